//! The class of an SMF record, and the fields of a usage record, lent from its bytes.
#![tactic(auto)]

mod accounts;
mod class_of;
mod damage;
mod layout;
mod moment;
mod number;
mod record_class;
mod section;
mod usage;

pub use accounts::split_account;
pub use class_of::class;
pub use damage::Damage;
pub use layout::{HUNDREDTHS_PER_DAY, JOB_END, STEP_END};
pub use moment::Moment;
pub use record_class::Class;
pub use usage::Type30;
