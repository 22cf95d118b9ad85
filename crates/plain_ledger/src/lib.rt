//! A plain ledger, which keeps its books in memory.
#![tactic(auto)]

mod arrivals;
mod charge_rows;
mod choices;
mod chosen;
mod copies;
mod credits;
mod held;
mod identities;
mod identity;
mod journal;
mod ledger;
mod life;
mod made_entries;
mod period;
mod period_end;
mod plain;
mod record_cache;
mod replaced;
mod repricing;
mod shown;
mod treatment;

pub use ledger::PlainLedger;
