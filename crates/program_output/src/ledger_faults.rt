//! The refusals of the books by their numbers, and what is said of each.

ghost use Rattle.std.specs.Prelude.{◌≡◌, Some};
ghost use Rattle.book_model.specs.Faults.{ledger_number};
ghost use Rattle.program_output.specs.Explanations.{Explains, HasFaultNumber, texts_of};
ghost use Rattle.program_output.specs.Meanings as spec;

use crate::explanations::{Explanation, FaultKind};
use book_core::LedgerFault;
use tariff_rules::TariffFault;

/// The refusal of the books that has a number.
fn of_number(number: u16) -> Option<LedgerFault>
    ensures { HasFaultNumber ledger_number number result }
{
    match number {
        1 => Some(LedgerFault::Memory),
        2 => Some(LedgerFault::Store),
        3 => Some(LedgerFault::Reopen),
        4 => Some(LedgerFault::Full),
        5 => Some(LedgerFault::DigestClash),
        6 => Some(LedgerFault::TariffDate),
        7 => Some(LedgerFault::TariffExists),
        8 => Some(LedgerFault::RecordsDated),
        9 => Some(LedgerFault::WrongPeriod(0)),
        10 => Some(LedgerFault::NotLater),
        11 => Some(LedgerFault::NoSuchPeriod),
        12 => Some(LedgerFault::NoSuchRecord),
        13 => Some(LedgerFault::NotDisputed),
        14 => Some(LedgerFault::OldRule),
        15 => Some(LedgerFault::TariffRefused(TariffFault::Syntax)),
        16 => Some(LedgerFault::NotBooks),
        17 => Some(LedgerFault::OldForm),
        18 => Some(LedgerFault::NewForm),
        19 => Some(LedgerFault::NoSuchTariff),
        20 => Some(LedgerFault::NoSuchCentre),
        _ => None,
    }
}

const MEMORY: Explanation = Explanation {
    meaning: "There was not enough memory for this step. What was answered before it still holds.",
    advice: "Run the command again with more memory; nothing is counted twice.",
};

const STORE: Explanation = Explanation {
    meaning: "The file of the books could not be read or written, or its contents are not books.",
    advice: "Make room if the disk is full, and check the file's permissions; then run the command \
         again; nothing is counted twice. If it says the same, run audit.",
};

const REOPEN: Explanation = Explanation {
    meaning: "The books have to be opened again after a fault in their file.",
    advice: "Run the command again; nothing is counted twice.",
};

const FULL: Explanation = Explanation {
    meaning: "A limit is reached: 50,000,000 records, their total cost, 9,999 periods, 1,000,000 \
         choices, or 10,000 credits or replaced tariffs.",
    advice: "Begin new books; if a tariff was refused, submit one with lower prices; if a list of \
         names was, split it.",
};

const DIGEST_CLASH: Explanation = Explanation {
    meaning: "Another record has the same SHA-256 name as a record that is held. The first one is \
         kept.",
    advice: "Keep the dump: this is not known to have happened anywhere.",
};

const TARIFF_DATE: Explanation = Explanation {
    meaning: "The tariff begins no later than the last close or, without --replace, the last \
         tariff.",
    advice: "Date it later than both: what is dated by the last close can't be priced any more; \
         held records from its first day on are priced anew.",
};

const TARIFF_EXISTS: Explanation = Explanation {
    meaning: "Another tariff begins on the same day.",
    advice: "Date this one later; or, while no period that has that day is closed, put it in that \
         one's place with --replace.",
};

const RECORDS_DATED: Explanation = Explanation {
    meaning: "An old number, no longer in use: records are dated on a tariff's first day or later.",
    advice: "There is nothing to do: such records are priced anew.",
};

const WRONG_PERIOD: Explanation = Explanation {
    meaning: "Another period is open; its number follows this one.",
    advice: "Close that period first, or name it.",
};

const NOT_LATER: Explanation = Explanation {
    meaning: "The day is not later than that of the last close.",
    advice: "Name a later day.",
};

const NO_SUCH_PERIOD: Explanation = Explanation {
    meaning: "There is no such period yet: periods are numbered from 1 to the open one.",
    advice: "Ask for one of these.",
};

const NO_SUCH_RECORD: Explanation = Explanation {
    meaning: "No record of that name is held.",
    advice: "Take the name from details, or from the list of disputes or adjustments.",
};

const NOT_DISPUTED: Explanation = Explanation {
    meaning: "No held record contradicts that one, and its work was never withheld: it is charged \
         already.",
    advice: "Take the name from the list of disputes.",
};

const OLD_RULE: Explanation = Explanation {
    meaning: "The second rule of identity is in force, and the first can't come back.",
    advice: "There is nothing to do.",
};

const TARIFF_REFUSED: Explanation = Explanation {
    meaning: "The text is not a tariff.",
    advice: "The line on standard error has the tariff's own number: see explain tariff.",
};

const NOT_BOOKS: Explanation = Explanation {
    meaning: "The file holds no books.",
    advice: "Look for BOOK-wal first: one of other books may lie beside BOOK, or its own where \
         BOOK was copied from. Else name another file, or make new books with init.",
};

const OLD_FORM: Explanation = Explanation {
    meaning: "The books are of an older form: upgrade brings them over.",
    advice: "Copy them first, with BOOK-wal if it is there; then run upgrade BOOK. What they hold \
         stays as it is, and a stop leaves the old books or the new ones.",
};

const NEW_FORM: Explanation = Explanation {
    meaning: "The books are of a newer form than this program reads.",
    advice: "Use the program that they were written with, or a later one.",
};

const NO_SUCH_TARIFF: Explanation = Explanation {
    meaning: "No tariff begins on that day.",
    advice: "Take a tariff's first day from the list of rulings.",
};

const NO_SUCH_CENTRE: Explanation = Explanation {
    meaning: "No tariff has a rule for that centre.",
    advice: "Take the name from the statement, or from a tariff: see tariff-text.",
};

/// What a refusal of the books means, and what to do about it.
#[tactic(auto, unfolding(crate::specs::Meanings::ledger_texts))]
fn explanation_of(fault: LedgerFault) -> Explanation
    ensures { texts_of (ledger_number fault) spec.ledger_texts
        ≡ Some (result.meaning.now, result.advice.now) }
{
    match fault {
        LedgerFault::Memory => MEMORY,
        LedgerFault::Store => STORE,
        LedgerFault::Reopen => REOPEN,
        LedgerFault::Full => FULL,
        LedgerFault::DigestClash => DIGEST_CLASH,
        LedgerFault::TariffDate => TARIFF_DATE,
        LedgerFault::TariffExists => TARIFF_EXISTS,
        LedgerFault::RecordsDated => RECORDS_DATED,
        LedgerFault::WrongPeriod(_) => WRONG_PERIOD,
        LedgerFault::NotLater => NOT_LATER,
        LedgerFault::NoSuchPeriod => NO_SUCH_PERIOD,
        LedgerFault::NoSuchRecord => NO_SUCH_RECORD,
        LedgerFault::NotDisputed => NOT_DISPUTED,
        LedgerFault::OldRule => OLD_RULE,
        LedgerFault::TariffRefused(_) => TARIFF_REFUSED,
        LedgerFault::NotBooks => NOT_BOOKS,
        LedgerFault::OldForm => OLD_FORM,
        LedgerFault::NewForm => NEW_FORM,
        LedgerFault::NoSuchTariff => NO_SUCH_TARIFF,
        LedgerFault::NoSuchCentre => NO_SUCH_CENTRE,
    }
}

/// What the refusal of the books with a number means, and what to do about it.
pub(crate) fn explained(number: u16) -> Option<Explanation>
    ensures { Explains FaultKind.Ledger number result }
{
    let fault = of_number(number)?;
    Some(explanation_of(fault))
}
