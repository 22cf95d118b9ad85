//! A second reading of books: each row of each tree is compared with the bytes of the records and
//! the texts of the tariffs. It relies on no sum and no mark of a ledger, and writes nothing.
#![tactic(auto)]

mod all_trees;
mod arrivals;
mod audited;
mod choices;
mod day_sums;
mod details;
mod due;
mod entry_counts;
mod finding;
mod identity_rule;
mod journal;
mod kept_credits;
mod kept_replaced;
mod keys;
mod lines;
mod marks;
mod record_bytes;
mod record_row;
mod records;
mod repository;
mod ruled;
mod rulings;
mod stop;
mod texts;
mod trees;
mod walk;
mod watch;

pub use all_trees::audit_trees;
pub use audited::{Audited, Counts};
pub use finding::{DetailKey, Finding, Place, Tree, Wrong};
pub use repository::AuditedRepository;
pub use texts::audit_text;
pub use watch::Watch;
