//! Kept tables: the rows that a ledger keeps of its books, how each event changes them, and how the
//! book and each answer of a ledger are read back from them, by laws that follow from the definitions
//! alone.
#![tactic(auto)]

mod laws;
mod readings;

pub use laws::{
    adoption_follows, at_most_five_differ, at_most_four_differ, at_most_one_name_differs,
    at_most_three_differ, at_most_two_names_differ, choice_follows, choice_reads, close_follows,
    due_stays, event_follows, journal_changes_few, kept_follows, lines_follow, lines_stay,
    names_follow, past_stays, posts_few, replace_follows, rows_follow, sum_is_read, tables_follow,
    tariff_follows, view_fits, view_follows, withhold_follows,
};
pub use readings::{
    accept_follows, adoptions_follow, book_follows, calls_read, calls_stay, choices_follow,
    counted_follows, details_follow, disputes_follow, line_periods_follow, lists_follow,
    lists_show, numbers_fit, records_follow, tables_determine, terms_follow, trails_follow,
    two_are_enough, view_is_determined,
};
