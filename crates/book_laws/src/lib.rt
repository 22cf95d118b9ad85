//! Laws of the books: whole histories, runs of requests, and single calls.
#![tactic(auto)]

mod bill_checks;
mod bills;
mod calls;
mod centres;
mod coverage;
mod details;
mod focus;
mod histories;
mod journal;
mod other_prices;
mod pages;
mod records;
mod rulings;
mod runs;
mod tariffs;
mod works;

pub use bill_checks::{billed_rows_check, booked_add_up, lines_add_up, shifts_price};
pub use bills::{
    billed_lines_have_periods, billed_tariffs_price, billed_tariffs_rule, bills_add_up,
    bills_split_statements, closed_bills_stay, held_back_bounds,
};
pub use calls::{
    one_answer, one_book, one_prefix, one_receipt, one_refusal, one_refused_report, one_run,
    one_text, receipts_count_records, refusal_changes_nothing,
};
pub use centres::centres_add_up;
pub use coverage::{counted_records_are_held, coverage_adds_up, each_day_stands};
pub use details::{
    centre_details_add_up, counted_by_day, counted_follows, counted_is_read, detailed_once,
    details_add_up, details_are_kept, details_stay, next_is_next, rows_join_and_go,
    tariffs_read_kept,
};
pub use focus::focus_is_owed;
pub use histories::{
    books_charge_once, charged_once, closed_stays, closed_texts_stay, conserved, conserved_in_sets,
    dated_right, lines_once, named_once, posted_once, readable_stays, wrong_periods_fail,
};
pub use journal::{
    notes_change_no_text, runs_enter_rulings, runs_keep_each_once, runs_keep_entries,
    runs_keep_words,
};
pub use other_prices::{what_if, what_ifs_are_aligned};
pub use pages::{open_is_open, page_totals_are_the_reports};
pub use records::{
    lives_net, lives_take_turns, prices_are_reckoned, rates_say_what_is_charged, trails_net,
};
pub use rulings::{
    closed_credits_stay, closed_tariffs_stay, credits_add_up, credits_are_taken_off,
    credits_change_bills_alone, unused_changes_nothing, withheld_nets_to_nothing,
};
pub use runs::{
    calls_follow_history, closed_statements_stay, lists_conserve, open_statement_is_first,
    run_cuts_are_free, run_order_is_free, runs_charge_once, runs_conserve, runs_follow_history,
    runs_make_history, statements_are_aligned,
};
pub use tariffs::tariff_texts_stay;
pub use works::{chosen_is_charged, work_is_charged_once};
