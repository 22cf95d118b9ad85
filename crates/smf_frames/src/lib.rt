//! Cuts a dump into joined records, and says why it stops; a dump may come whole or in pieces.
#![tactic(auto)]

mod block;
mod descriptor;
mod dump;
mod dump_split;
mod fault;
mod framed;
mod header;
mod joiner;
mod laws;
mod next;

pub use dump::{Layout, Split};
pub use dump_split::split;
pub use fault::FrameFault;
pub use framed::MAX_DATA;
pub use header::{HEADER_LEN, Header};
pub use joiner::Joiner;
pub use laws::{feed_is_determined, front_is_the_standards};
