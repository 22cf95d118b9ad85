//! Books in memory by their names: a place of which it is known what it holds.
#![tactic(auto)]

mod clients;
mod inputs;
mod kept;
mod laws;
mod places;
mod plain;
mod shelf;

pub use clients::MemoryClients;
pub use inputs::MemoryInputs;
pub use kept::KeptLedger;
pub use laws::commands_in_memory_follow_history;
pub use places::Kept;
pub use shelf::MemoryBooks;
