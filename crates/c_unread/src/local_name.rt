//! A local by its name.
use c_subset::CType;

/// A local, by its type and its number.
#[derive(Clone, Copy)]
pub struct LocalName {
    /// Its type.
    pub of: CType,
    /// Its number.
    pub number: u32,
}
