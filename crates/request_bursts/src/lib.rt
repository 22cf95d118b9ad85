//! Clients that are answered while the books are open for others: by what they are seen to have
//! sent, and in so few bytes that nobody is waited for.
#![tactic(auto)]

mod arrivals;
mod seen_request;

pub use arrivals::{Arrivals, Nobody, answer_more};
pub use seen_request::{answer_seen, is_short};
