//! A plain ledger: books that are kept in memory, with their journal.

ghost use Rattle.std.specs.Prelude.{◌≡◌, length, ◌==◌};

use crate::journal::{Journal, Said, is_done, is_kept};
use crate::plain::PlainBooks;
use book_core::{AcceptedTariff, Ledger, Rulings, copied_note};
use book_model::{
    Accepted, Arrival, ChargeRow, Credit, Detail, Dispute, LedgerFault, Line, ListedEntry,
    ListedRuling, Naming, Note, Ruled, Ruling, Share, Stop, Trail,
};
use smf_text::Name;
use std::alloc::{AllocError, Global};
use tariff_rules::Tariff;

/// Books that are kept in memory, and their journal.
#[derive(Drop)]
pub struct PlainLedger<N: Naming + Drop> {
    books: PlainBooks<N>,
    journal: Journal,
    alloc: Global,
}

/// There is one record.
fn is_one(records: &[Vec<u8>]) -> bool
    ensures { result ≡ (1 == length records.now) }
{
    1 == records.len()
}

impl<N: Naming + Drop> PlainLedger<N> {
    ghost use Rattle.std.specs.Prelude.{◌≡◌, [], IfOk, None, Some, option_map};
    ghost use Rattle.book_model.specs.Words.{Answers, IsBookCall, IsUsageRecord, MayBeAsked};
    ghost use Rattle.book_model.specs.Words.{ShowsEntryDays, accept_outcome, arrival_outcome};
    ghost use Rattle.book_model.specs.Words.{entry_outcome, entry_shown};
    ghost use Rattle.book_model.specs.Words.{ended_outcome, flat_book, new_book, note_given};
    ghost use Rattle.book_model.specs.Words.{note_shown, rule_outcome, ruling_asked};
    ghost use Rattle.book_core.specs.Ledgers.{IsOpenAt};
    ghost use Rattle.book_core.specs.OfficeRulings.{ruled_in};
    ghost use Rattle.plain_ledger.specs.Journals.{entries_in, said_all};
    ghost use Rattle.plain_ledger.specs.LedgerBook.{after_record, after_ruling, entries_ruled};
    ghost use Rattle.plain_ledger.specs.LedgerBook.{ledger_book};
    ghost use Rattle.plain_ledger.specs.PlainBook.{IsPlainCall, book_in, naming_in};

    /// New books, under no tariff yet.
    pub fn new(alloc: Global, naming: N) -> Result<PlainLedger<N>, AllocError>
        ensures { IfOk result (λ ledger. IsOpenAt (N.name_of naming) new_book
            (⟦<PlainLedger<N> as Ledger>⟧.seen ledger)) }
    {
        Ok(PlainLedger::under(alloc, naming, Rulings::new(alloc)))
    }

    /// New books under one tariff, which is in force on every day from its first on.
    pub fn flat(alloc: Global, naming: N, tariff: Tariff) -> Result<PlainLedger<N>, AllocError>
        ensures { IfOk result (λ ledger. IsOpenAt (N.name_of naming) (flat_book tariff)
            (⟦<PlainLedger<N> as Ledger>⟧.seen ledger)) }
    {
        let mut tariffs = Vec::with_capacity(alloc, 1)?;
        tariffs.push(AcceptedTariff { text: None, tariff })?;
        let rulings = Rulings::of(tariffs, Vec::new(alloc), None);
        Ok(PlainLedger::under(alloc, naming, rulings))
    }

    /// Books that hold no record and have no entry, under these rulings, with no close among them.
    fn under(alloc: Global, naming: N, rulings: Rulings) -> PlainLedger<N>
        requires { (ruled_in rulings).closes ≡ [] }
        ensures { IsOpenAt (N.name_of naming) (record new_book { rulings = ruled_in rulings })
            (⟦<PlainLedger<N> as Ledger>⟧.seen result) }
    {
        let books = PlainBooks::under(alloc, naming, rulings);
        let journal = Journal::new(alloc);
        PlainLedger {
            books,
            journal,
            alloc,
        }
    }

    /// What a ruling says with its note, if it is done.
    fn noted(&self, ruling: &Ruling<'_>, note: &Note) -> Result<Option<Said>, AllocError>
        ensures { IfOk result (λ said. said_all said (entries_in self.now.journal)
            ≡ entries_ruled (Some (note_shown note.now)) (ruling_asked ruling.now)
            (book_in self.now.books).rulings (entries_in self.now.journal)) }
    {
        let copy = copied_note(self.alloc, note)?;
        let standing = self.books.standing_of(ruling)?;
        Ok(Some(Said::Ruling(copy, standing)))
    }

    /// What a ruling says, if it is done: nothing where it has no note.
    fn said_of(&self, ruling: &Ruling<'_>, note: &Option<Note>) -> Result<Option<Said>, AllocError>
        ensures { IfOk result (λ said. said_all said (entries_in self.now.journal)
            ≡ entries_ruled (note_given note.now) (ruling_asked ruling.now)
            (book_in self.now.books).rulings (entries_in self.now.journal)) }
    {
        match note {
            None => Ok(None),
            Some(note) => self.noted(ruling, note),
        }
    }

    /// Makes a ruling, and its entry, if it has a note.
    fn make_entered(
        &mut self,
        ruling: &Ruling<'_>,
        note: &Option<Note>,
    ) -> Result<Ruled, LedgerFault>
        requires { MayBeAsked (ruling_asked ruling.now) }
        ensures books { IsPlainCall (λ ruled. ruled) self.old.books self.new.books result
            (rule_outcome (N.name_of (naming_in self.old.books)) None (ruling_asked ruling.now)) }
        ensures said { entries_in self.new.journal ≡ after_ruling (note_given note.now)
            (ruling_asked ruling.now) (book_in self.old.books).rulings result
            (entries_in self.old.journal) }
    {
        let said = self.said_of(ruling, note)?;
        // There is room before the ruling is made: a refusal leaves the books as they were.
        self.journal.reserve()?;
        let answer = self.books.make_ruling(ruling);
        self.journal.add_if(is_done(&answer), said);
        answer
    }

    /// Holds a record from now on, as the books do, with what its import says, if it says a word.
    fn keep_told(
        &mut self,
        bytes: &[u8],
        import: &Option<Share>,
        whole: bool,
    ) -> Result<Accepted, LedgerFault>
        requires { IsUsageRecord bytes.now }
        ensures books { IsPlainCall (λ accepted. accepted) self.old.books self.new.books result
            (accept_outcome (N.name_of (naming_in self.old.books)) bytes.now) }
        ensures said { entries_in self.new.journal ≡ after_record import.now whole bytes.now result
            (entries_in self.old.journal) }
    {
        let said = self.journal.of_record(self.alloc, bytes, import, whole)?;
        // There is room before the record is kept: a refusal leaves the books as they were.
        self.journal.reserve()?;
        let answer = self.books.keep_record(bytes);
        self.journal.add_if(is_kept(&answer), said);
        answer
    }

    /// The import that goes on ends.
    fn end_told(&mut self, stop: Stop) -> Result<(), LedgerFault>
        ensures call { IsBookCall (λ done. done) (ledger_book self.old) (ledger_book self.new) result
            (ended_outcome stop) }
        ensures naming { naming_in self.new.books ≡ naming_in self.old.books }
    {
        self.journal.reserve()?;
        self.journal.add(Said::End(stop));
        Ok(())
    }

    /// The entry of a number, from 0, if there is one. All are made for it.
    fn entry_listed(&self, number: u64) -> Result<Option<ListedEntry>, LedgerFault>
        ensures entry { Answers (λ found. option_map entry_shown found) result (entry_outcome
            (N.name_of (naming_in self.now.books)) number (ledger_book self.now)).answer }
        ensures shown { IfOk result ShowsEntryDays }
    {
        let mut made = self.journal.entries(self.alloc)?;
        if number >= made.len() as u64 {
            return Ok(None);
        }
        let entry = made.swap_remove(number as usize);
        let act = self.books.listed_act(entry.act)?;
        Ok(Some(ListedEntry {
            number: number + 1,
            note: entry.note,
            act,
        }))
    }

    /// The first record whose name is these bytes or comes after them, with the entry by which it
    /// came.
    fn arrival_kept(&self, from: &[u8]) -> Result<Option<Arrival>, LedgerFault>
        ensures { Answers (λ found. found) result (arrival_outcome
            (N.name_of (naming_in self.now.books)) from.now (ledger_book self.now)).answer }
    {
        let made = self.journal.entries(self.alloc)?;
        let found = self.books.arrival_held(&made, from);
        Ok(found)
    }
}

impl<N: Naming + Drop> Ledger for PlainLedger<N> {
    ghost use Rattle.plain_ledger.specs.LedgerBook.{seen_in};

    ghost seen = { seen_in };

    fn rule(&mut self, ruling: Ruling<'_>, note: &Option<Note>) -> Result<Ruled, LedgerFault> {
        match ruling {
            Ruling::Tariff(text) => self.make_entered(&Ruling::Tariff(text), note),
            Ruling::Close { period, through } => {
                self.make_entered(&Ruling::Close { period, through }, note)
            }
            Ruling::Choose(name) => self.make_entered(&Ruling::Choose(name), note),
            Ruling::Adopt(rule) => self.make_entered(&Ruling::Adopt(rule), note),
            Ruling::Replace(text) => self.make_entered(&Ruling::Replace(text), note),
            Ruling::Withhold(name) => self.make_entered(&Ruling::Withhold(name), note),
            Ruling::Credit {
                period,
                centre,
                amount,
                reason,
            } => {
                let credit = Ruling::Credit {
                    period,
                    centre,
                    amount,
                    reason,
                };
                self.make_entered(&credit, note)
            }
        }
    }

    fn accept(&mut self, bytes: &[u8]) -> Result<Accepted, LedgerFault> {
        self.keep_told(bytes, &None, false)
    }

    fn accept_many(
        &mut self,
        records: &[Vec<u8>],
        import: &Option<Share>,
    ) -> Result<Vec<Accepted>, LedgerFault> {
        // One record is a change here: nothing waits for a commit.
        let mut answers = Vec::with_capacity(self.alloc, 1)?;
        let accepted = self.keep_told(&records[0], import, is_one(records))?;
        answers.push(accepted)?;
        Ok(answers)
    }

    fn end_import(&mut self, stop: Stop) -> Result<(), LedgerFault> {
        self.end_told(stop)
    }

    fn charges(&mut self, period: u16) -> Result<Vec<ChargeRow>, LedgerFault> {
        self.books.charge_rows(period)
    }

    fn charges_under(
        &mut self,
        period: u16,
        tariff: &Tariff,
    ) -> Result<Vec<ChargeRow>, LedgerFault> {
        self.books.charge_rows_under(period, tariff)
    }

    fn adjustments(&mut self, period: u16) -> Result<Vec<Line>, LedgerFault> {
        self.books.lines(period)
    }

    fn period_of_line(&mut self, number: u16, line: &Line) -> Result<Option<u16>, LedgerFault> {
        self.books.line_period(number, line)
    }

    fn next_detail(
        &mut self,
        period: u16,
        centre: Option<Name>,
        after: Option<Detail>,
    ) -> Result<Option<Detail>, LedgerFault> {
        self.books.detail_after(period, centre, after)
    }

    fn disputes(&mut self) -> Result<Vec<Dispute>, LedgerFault> {
        self.books.disputes_held()
    }

    fn dispute_from(&mut self, from: &[u8]) -> Result<Option<Dispute>, LedgerFault> {
        self.books.dispute_held(from)
    }

    fn periods(&mut self) -> Result<Vec<i32>, LedgerFault> {
        self.books.close_days()
    }

    fn ruling(&mut self, number: u64) -> Result<Option<ListedRuling>, LedgerFault> {
        self.books.ruling_listed(number)
    }

    fn credit_given(&mut self, number: u64) -> Result<Option<Credit>, LedgerFault> {
        self.books.credit_kept(number)
    }

    fn entry(&mut self, number: u64) -> Result<Option<ListedEntry>, LedgerFault> {
        self.entry_listed(number)
    }

    fn arrival_from(&mut self, from: &[u8]) -> Result<Option<Arrival>, LedgerFault> {
        self.arrival_kept(from)
    }

    fn record_named(&mut self, alloc: Global, name: &[u8; 32]) -> Result<Vec<u8>, LedgerFault> {
        self.books.record_held(alloc, name)
    }

    fn trail_of(&mut self, alloc: Global, name: &[u8; 32]) -> Result<Trail, LedgerFault> {
        self.books.trail_held(alloc, name)
    }

    ghost settled = { λ ledger honest books is_open book left. absurd left };
}
