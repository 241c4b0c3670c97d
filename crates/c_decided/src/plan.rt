//! What is known of each function of a file, and what is known at a place of a body.
use c_facts::{Known, Places};
use c_subset::CType;
use flow_base::List;

/// What is known of the struct where a value is each of some numbers.
#[derive(Drop)]
pub enum Cases {
    /// None.
    End,
    /// Where it is that number, and where it is one of others. Of a number that is named twice the
    /// first counts.
    Case(u32, Known, Box<Cases>),
}

/// What is known of the struct by a value.
#[derive(Drop)]
pub struct ByNumber {
    /// Where it is each of some numbers.
    pub cases: Cases,
    /// Where it is another one.
    pub others: Known,
}

/// What is known at a place: of at most one local, and by its number of the struct.
#[derive(Drop)]
pub struct Facts {
    /// The type of the local.
    pub of: CType,
    /// Its number.
    pub local: u32,
    /// What is known.
    pub by: ByNumber,
}

/// What is known of a function.
#[derive(Drop)]
pub struct FunctionFacts {
    /// Where it begins.
    pub begins: Known,
    /// Where it returns, by the number that it returns.
    pub leaves: ByNumber,
    /// The places that it and the functions that it calls may change.
    pub touched: Places,
    /// It stays as it is, and is only checked.
    pub stays: bool,
}

/// What is known of each function, by its number.
#[derive(Drop)]
pub struct Plan {
    /// Of each function.
    pub functions: List<FunctionFacts>,
}
