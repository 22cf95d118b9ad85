//! Texts and tables that are made piece by piece and remember that memory ran out: no piece has a
//! result, and the end says it once.
#![tactic(auto)]

mod draft;
mod meant;
mod meant_fields;
mod row;
mod table;

pub use draft::Draft;
pub use row::RowDraft;
pub use table::TableDraft;
