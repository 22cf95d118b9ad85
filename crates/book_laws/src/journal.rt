//! Laws of the journal, which hold of the definitions alone. Each is the contract of a function
//! that does nothing.

ghost use Rattle.book_laws.specs.JournalRuns.{NotesChangeNoText, RunsEnterRulings};
ghost use Rattle.book_laws.specs.JournalRuns.{RunsKeepEachOnce, RunsKeepEntries, RunsKeepWords};

/// Histories that differ only in times, persons, remarks, files and imports give the same text of
/// each report, but for the line of a record that says by which entry it came.
pub fn notes_change_no_text()
    ensures { NotesChangeNoText }
{}

/// No run changes an entry of the journal or lets one go, but for an import that went on, which may
/// have kept more.
pub fn runs_keep_entries()
    ensures { RunsKeepEntries }
{}

/// After any run a record that is held came by one import, if each came in one; and what the
/// imports kept adds up to what is held.
pub fn runs_keep_each_once()
    ensures { RunsKeepEachOnce }
{}

/// After any run the journal names each tariff, close, choice and credit once, in their order, and
/// the adoption once, if each came with a note.
pub fn runs_enter_rulings()
    ensures { RunsEnterRulings }
{}

/// No run changes the words to which an entry of the journal leads.
pub fn runs_keep_words()
    ensures { RunsKeepWords }
{}
