//! Tables that agree with each other and with the bytes of their records are those of a book. The
//! functions do nothing, and the contract of each is a law.
#![tactic(auto)]

mod laws;

pub use laws::{consistent_are_readable, consistent_are_tables, readable_are_consistent};
