//! The pages of bills as HTML, byte for byte: each shows the sheet that the text of the bill shows.
#![tactic(auto)]

mod bill_head;
mod bill_pages;
mod grouped;
mod page_style;
mod sheet_pages;

pub use bill_head::PageHead;
pub use bill_pages::{centre_bill_page, office_bill_page};
