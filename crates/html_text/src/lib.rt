//! A text inside an HTML page: whatever it is, it makes no markup.
#![tactic(auto)]

mod escaping;
mod laws;

pub use escaping::{push_byte, push_escaped, push_shown};
pub use laws::data_makes_no_markup;
