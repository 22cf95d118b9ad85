//! The pages of the office as HTML, byte for byte: of all its periods, and of one of them.
#![tactic(auto)]

mod amounts;
mod bars;
mod centres;
mod closes;
mod figures;
mod frame;
mod legend;
mod letterheads;
mod markup;
mod office;
mod period;
mod period_adjustments;
mod period_disputes;
mod period_head;
mod period_pictures;
mod period_statement;

pub use closes::{close_of, day_after};
pub use figures::{PeriodFigures, period_figures};
pub use frame::push_head_start;
pub use letterheads::push_office_name;
pub use office::office_page;
pub use period::period_page;
pub use period_head::PeriodHead;
