//! The words on standard error that have no number, and what is said of each.

ghost use Rattle.std.specs.Prelude.{◌≡◌};
ghost use Rattle.program_output.specs.Explanations.{Explains};
ghost use Rattle.program_output.specs.Meanings as spec;

use crate::explanations::{Explanation, FaultKind};

/// A word on standard error that has no number.
#[derive(Clone, Copy)]
pub enum WordKind {
    /// A file, the port or the output failed.
    Io,
    /// Another program has the books open.
    Busy,
    /// A file is in the way of one that is to be made, or books have the name of a log.
    Exists,
    /// A date or a name has the wrong form.
    Word,
    /// An audit found books unsound.
    Unsound,
    /// A log was left beside books, or kept aside.
    Log,
    /// A dump that reads as blocks was read as segments alone.
    Layout,
    /// A ruling is dated long after the newest record, or after the last close or today.
    Far,
    /// A dump has no record, or fewer trailers than headers.
    Torn,
}

const IO: Explanation = Explanation {
    meaning: "A file or the port could not be opened, or reading or writing failed.",
    advice: "Check the path, the permissions and the disk: a file may be missing, a folder or a \
         second hard link, the port in use, the output full or closed. On a terminal the path and \
         the cause follow.",
};

const BUSY: Explanation = Explanation {
    meaning: "Another program has the books open, and had them for as long as the command waited; \
         nothing was done.",
    advice: "Wait until it has ended, and run the command again, or run it with a longer --wait.",
};

const EXISTS: Explanation = Explanation {
    meaning: "A file that the command would make is there, or a log or journal of it; or its name \
         ends in -wal, -journal or -shm; or BOOK-wal is a file of books, or BOOK-wal-kept is in \
         the way.",
    advice: "Take another name. What a stopped dry run left as BOOK-try and BOOK-try-wal, or a \
         stopped backup as FILE-new, may be deleted while no command runs. Rename books that are \
         called BOOK-wal while no command runs; find out whose BOOK-wal-kept is, and move it. \
         Delete nothing else before you know whose it is.",
};

const WORD: Explanation = Explanation {
    meaning: "What was given is no date, or no name of a record or a centre; of a list, the number \
         of the line follows.",
    advice: "Write a date as 2024-01-31, and copy all 64 digits of a record's name; a centre has 1 \
         to 16 characters of A to Z, 0 to 9 and the hyphen.",
};

const UNSOUND: Explanation = Explanation {
    meaning: "An audit found the books, or a copy of them, unsound; it printed what is wrong \
         first.",
    advice: "Restore the last sound backup, and import later dumps again; nothing is counted \
         twice.",
};

const LOG: Explanation = Explanation {
    meaning: "The books are in two files, BOOK and BOOK-wal, since the log BOOK-wal could not be \
         brought into BOOK; or a log of no use to them was kept aside as BOOK-wal-kept.",
    advice: "Keep both files together; make room on the disk, and read any report of the books. To \
         copy them, use backup. Find out whose log BOOK-wal-kept is before you delete it.",
};

const LAYOUT: Explanation = Explanation {
    meaning: "The dump was read as segments one after another, and what was taken for its first \
         record is a block.",
    advice: "The dump reads as blocks: give --layout bdw, and run the command again; nothing is \
         counted twice.",
};

const FAR: Explanation = Explanation {
    meaning: "The day of a close lies more than 7 days after the newest record of its period, or \
         after today; or that of a tariff more than 366 days after it; or, where the open period \
         charges none, either lies more than 366 days after the last close.",
    advice: "Check the date: neither can be taken back. With --near such a ruling is refused; one \
         that was made is undone by the backup from before it. --dry-run shows first what a ruling \
         changes.",
};

const TORN: Explanation = Explanation {
    meaning: "The dump has no record, or fewer trailers than headers: it was cut off, or not all of \
         it came.",
    advice: "Send it again, whole, and import that; nothing is counted twice. With --whole such a \
         dump is not imported from a file, and a command that read one ends with status 4.",
};

/// What a word means, and what to do about it.
#[tactic(auto, unfolding(crate::specs::Meanings::word_texts))]
fn explanation_of(kind: WordKind) -> Explanation
    ensures { spec.word_texts kind ≡ (result.meaning.now, result.advice.now) }
{
    match kind {
        WordKind::Io => IO,
        WordKind::Busy => BUSY,
        WordKind::Exists => EXISTS,
        WordKind::Word => WORD,
        WordKind::Unsound => UNSOUND,
        WordKind::Log => LOG,
        WordKind::Layout => LAYOUT,
        WordKind::Far => FAR,
        WordKind::Torn => TORN,
    }
}

/// What a word means, and what to do about it. It has no number: 0 stands for none.
pub(crate) fn explained(kind: WordKind, number: u16) -> Option<Explanation>
    ensures { Explains (FaultKind.Word kind) number result }
{
    match number {
        0 => Some(explanation_of(kind)),
        _ => None,
    }
}
