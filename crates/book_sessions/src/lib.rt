//! Sessions on the two files of books, wherever these lie. Nothing here knows a path or the machine's
//! files: what was opened is all that a session can touch, and it gives that back.
#![tactic(auto)]

mod audits;
mod ended;
mod faults;
mod new_books;
mod upgrades;
mod visits;

pub use audits::{audit, not_looked_through};
pub use ended::Ended;
pub use faults::refused;
pub use new_books::{make, resume};
pub use upgrades::upgrade;
pub use visits::visit;
