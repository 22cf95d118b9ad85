use thiserror::Error;

/// Why the words ask for nothing that the program does.
#[derive(Debug, Drop, Error)]
pub enum ArgumentFault {
    /// They ask for help, which is this text.
    #[error("{0}")]
    Help(String),
    /// They are wrong, and this text says how.
    #[error("{0}")]
    Wrong(String),
    /// A request for memory was refused.
    #[error("out of memory")]
    Memory,
}
