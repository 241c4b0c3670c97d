//! Functions of the C that only read the struct.
//!
//! Read `specs/Readers.antt`, which functions these are. Nothing here runs: the law says that they
//! leave the struct as it was.
#![tactic(auto)]

mod laws;

pub use laws::what_only_reads_leaves_the_struct;
