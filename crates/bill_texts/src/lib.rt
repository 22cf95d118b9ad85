//! Bills as sheets: parts of rows, which texts, tables and pages show alike.
#![tactic(auto)]

mod bill_sheets;
mod bill_tables;
mod bill_texts;
mod booking;
mod column;
mod credit_rows;
mod part;
mod record_rows;
mod sheet_texts;
mod shift_sums;
mod sums_rows;
mod terms_rows;
mod work_rows;

pub use bill_sheets::{centre_parts, centre_sheet, office_sheet};
pub use bill_tables::{bill_table, office_bill_table};
pub use bill_texts::{bill_text, first_day, office_bill_text, push_bill_number};
pub use booking::booked_by_centre;
pub use column::{Column, columns_of};
pub use part::{CentreParts, Layout, Part, PartName, Sheet};
pub use sheet_texts::text_at;
