//! The texts and days of SMF records: packed dates, days as `YYYY-MM-DD`, names, code page 037.
#![tactic(auto)]

mod code_page;
mod day;
mod encoded;
mod name;
mod packed_date;
mod shown;

pub use day::{FIRST_DAY, LAST_DAY, day_of_text, day_text, weekday};
pub use encoded::{TextFault, encode};
pub use name::{MAX_NAME, Name};
pub use packed_date::{DateFault, packed_day};
pub use shown::show;
