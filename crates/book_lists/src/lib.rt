//! Lists of the books that are read one item at a time: what their items come to, and how they are
//! written while they are read.
#![tactic(auto)]

mod arrival_cursors;
mod credit_cursors;
mod cursors;
mod detail_cursors;
mod dispute_cursors;
mod entry_cursors;
mod fault;
mod folds;
mod output;
mod ruling_cursors;
mod tariff_cursors;
mod waiting;
mod written_lists;

pub use arrival_cursors::ArrivalCursor;
pub use credit_cursors::CreditCursor;
pub use cursors::Cursor;
pub use detail_cursors::DetailCursor;
pub use dispute_cursors::DisputeCursor;
pub use entry_cursors::EntryCursor;
pub use fault::ReportFault;
pub use folds::{Step, fold};
pub use output::{write_bytes, write_text};
pub use ruling_cursors::RulingCursor;
pub use tariff_cursors::{ListedTariff, TariffCursor, tariff_at};
pub use written_lists::{Lines, write_list};
