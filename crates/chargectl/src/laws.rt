//! The law of the commands. It is the contract of a function that does nothing.

ghost use Rattle.program_output.specs.Messages.{AreSaid};
ghost use Rattle.chargectl.specs.CommandLaws.{CommandsFollowHistory};

use named_books::WaitingRepository;
use streams::Writer;

/// Whatever commands, one after the other: the books of a name that held a history which calls made
/// hold it with what the commands made of it, and each told what the definitions give for the whole
/// history before it.
pub fn commands_follow_history<S: WaitingRepository, O: Writer, E: Writer>()
    ensures { CommandsFollowHistory S.shelf S.waits O.contents O.may_answer
        (AreSaid E.contents E.may_answer) }
{}
