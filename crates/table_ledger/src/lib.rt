//! A ledger that keeps its books in the sorted trees of a store: each call is at most one commit,
//! and what a stop leaves is the book before the call or the one after it.
#![tactic(auto)]

mod accept;
mod adjustments;
mod adoption;
mod arrivals;
mod charges;
mod choices;
mod chosen;
mod close;
mod commits;
mod count_test;
mod credits;
mod day_write;
mod days;
mod detail_prices;
mod details;
mod disputes;
mod effects;
mod ends;
mod entries;
mod finish;
mod given_credits;
mod groups;
mod ledger;
mod line_periods;
mod listed_entries;
mod listed_rulings;
mod load;
mod many;
mod named_records;
mod newest;
mod other_prices;
mod periods;
mod replaced_prices;
mod replacing;
mod repricing;
mod row_sums;
mod summary;
mod tariff;
mod trails;
mod upgrading;
mod withheld;
mod withheld_together;
mod withholding;

pub use ledger::TableLedger;
pub use upgrading::{fill_details, has_book_row};
