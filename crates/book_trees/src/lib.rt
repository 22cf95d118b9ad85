//! The tables of books in a file and its log, as sorted trees below SQL. A file that a ledger left
//! is opened at the same cost whatever it holds: it is not read through again.
#![tactic(auto)]

mod added_tables;
mod catalog;
mod closing;
mod copying;
mod faults;
mod forms;
mod integrity;
mod ledger_files;
mod new_books;
mod old_forms;
mod opening;
mod schema;
mod unopened;
mod unused_logs;

pub use added_tables::{add_tables, old_form};
pub use closing::{
    Closed, LogLeft, checkpoint_log, close_books, close_old, close_unchanged, is_short,
    keeps_books, needs_no_log,
};
pub use copying::{copy_files, copy_to, lock_at};
pub use faults::OpenFault;
pub use forms::commit_form;
pub use integrity::{LookFault, look_through, look_through_at};
pub use ledger_files::LeftByLedger;
pub use new_books::{create_at, create_files};
pub use old_forms::{OldFault, open_old_at, open_old_files};
pub use opening::{CACHE_PAGES, open_at, open_files, open_left};
pub use schema::OlderForm;
pub use unused_logs::is_unused;
