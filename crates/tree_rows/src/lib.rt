//! The rows of sorted trees, below SQL, as maps by their keys: how they are looked up, walked,
//! listed and changed in any store.
#![tactic(auto)]

mod listing;
mod lookup;
mod pass;
mod writing;

pub use listing::{MOST_ROWS, ReadRow, list_first, list_run};
pub use lookup::{find_row, first_after, first_from, has_key, last_row};
pub use pass::{next_row, start_pass};
pub use writing::{add_row, change_row, drop_row, put_row, remove_row, replace_row};
