//! Books in files: each file a database of its own.
#![tactic(auto)]

mod copied;
mod copies;
mod faults;
mod kept_pages;
mod laws;
mod log;
mod machine;
mod magic;
mod names;
mod paths;
mod releases;
mod repository;
mod seeds;
mod seen_logs;
mod session;
mod waiting;

pub use copied::{Copied, CopyFault};
pub use copies::visit_copy_at;
pub use laws::sound_are_ours;
pub use names::is_log_name;
pub use repository::Files;
pub use session::{audit_at, make_at, resume_at, upgrade_at, visit_at};
