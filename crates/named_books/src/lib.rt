//! Books by their names, as a program keeps them: what is done with them while they are open.
#![tactic(auto)]

mod looks;
mod repository;
mod waiting;

pub use looks::Look;
pub use repository::{Opened, Repository, RepositoryFault, Upgraded, Visit};
pub use waiting::WaitingRepository;
