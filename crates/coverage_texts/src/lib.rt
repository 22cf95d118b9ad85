//! The coverage of a period, byte for byte: by day and system, how many records it counts, and their
//! first and last time.
#![tactic(auto)]

mod coverage_rows;
mod coverage_texts;

pub use coverage_rows::{
    CoveragePlace, CoverageRow, SystemDetail, coverage_place, coverage_with, empty_coverage,
};
pub use coverage_texts::{count_gaps, coverage_table, coverage_text};
