//! One HTTP request, from the bytes of its head to the bytes of its answer.
#![tactic(auto)]

mod answer;
mod answer_head;
mod asked;
mod body;
mod endpoint;
mod framing;
mod head;
mod host;
mod laws;
mod method;
mod notice;
mod numbers;
mod office_answers;
mod request;
mod requested;
mod route;
mod routes;
mod sending;
mod serve;
mod served;
mod status;

pub use answer::Answer;
pub use asked::Asked;
pub use laws::{
    answers_are_one, request_twice_is_once, requests_are_mended, requests_make_history,
};
pub use numbers::decimal_value;
pub use office_answers::{answer_report, ask_office};
pub use requested::read_request;
pub use routes::Routes;
pub use sending::{send, send_details};
pub use serve::serve_one;
pub use served::{Served, Unanswered};
pub use status::Status;
