//! A reader and a writer that show what became of the calls on them so far.
#![tactic(auto)]

mod reader;
mod sink;
mod source;
mod writer;

pub use reader::Reader;
pub use sink::Sink;
pub use source::Source;
pub use writer::Writer;
