//! The law of the commands at a place of which it is known what it holds. It is the contract of a
//! function that does nothing.

ghost use Rattle.chargectl.specs.CommandLaws.{CommandsFollowHistory};
ghost use Rattle.memory_books.specs.Laws.{CommandsFromNothing, waits_in};
ghost use Rattle.memory_books.specs.MemoryShelf.{memory_shelf};
ghost use Rattle.program_output.specs.Messages.{AreSaid};

use crate::kept::KeptLedger;
use crate::shelf::MemoryBooks;
use chargectl::commands_follow_history;
use streams::Writer;

/// Whatever commands, one after the other: the books of a name hold what the commands made of them,
/// and each told what the definitions give for the whole history before it; so it is from the
/// command on that made the books.
pub fn commands_in_memory_follow_history<L: KeptLedger, O: Writer, E: Writer>()
    ensures follow { CommandsFollowHistory (memory_shelf L.Ledger.seen L.names) waits_in O.contents
        O.may_answer (AreSaid E.contents E.may_answer) }
    ensures begin { CommandsFromNothing L.Ledger.seen L.names O.contents O.may_answer
        (AreSaid E.contents E.may_answer) }
{
    commands_follow_history::<MemoryBooks<L>, O, E>();
}
