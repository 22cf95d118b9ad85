//! The calls of any ledger, and rules that ledgers share.
#![tactic(auto)]

mod acceptance;
mod accepted_tariff;
mod charge_rows;
mod close_days;
mod credit_copies;
mod credit_limits;
mod details;
mod effects;
mod endings;
mod ledger;
mod limits;
mod line_periods;
mod lines;
mod listed_rulings;
mod notes;
mod placed_rulings;
mod pricing;
mod rulings;
mod withheld;

pub use book_model::{
    Accepted, Arrival, ChargeRow, Credit, Deed, Detail, Dispute, LedgerFault, Line, ListedEntry,
    ListedRuling, NamedChoice, Naming, Note, Reading, RowKey, Ruled, Ruling, ShaNames, Share, Stop,
    Trail, Turn, Variant,
};
// What a ledger of another crate needs to keep the same books.
pub use acceptance::{is_full, name_of};
pub use accepted_tariff::{AcceptedTariff, are_before};
pub use charge_rows::{empty_row, key_of, row_with};
pub use close_days::{is_after, is_through};
pub use credit_copies::copied_credit;
pub use credit_limits::{is_credit_amount, is_reason};
pub use details::{comes_after, copied, detail_with, is_asked, sort_details};
pub use effects::{
    ChoiceEffects, DayChange, Effects, LineChange, Member, View, plan, plan_charge, plan_choice,
    plan_withheld,
};
pub use endings::ending_of;
pub use ledger::Ledger;
pub use limits::{
    CREDIT_END, LAST_PERIOD, MAX_CHOICES, MAX_COST, MAX_CREDITS, MAX_HELD, MAX_REPLACED,
};
pub use line_periods::charged_before;
pub use lines::{line_with, sort_lines};
pub use listed_rulings::{ListedAt, RulingCounts};
pub use notes::{copied_if_noted, copied_note};
pub use pricing::{is_last_begun, price_in, reckon_in};
pub use rulings::{Rulings, is_done};
pub use smf_text::Name;
pub use streams::{Sink, Source};
pub use tariff_rules::Tariff;
pub use withheld::{Withheld, with_answer, work_answer};
