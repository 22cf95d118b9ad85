ghost use Rattle.std.specs.Prelude.{◌<◌, ◌≤◌, ◌+◌, All, IfOk, length, map, option_map};
ghost use Rattle.book_model.specs.Words.{IsDay, IsUsageRecord, AreRows, AreLines, AreDisputes};
ghost use Rattle.book_model.specs.Words.{dispute_shown, accept_outcome, close_outcome};
ghost use Rattle.book_model.specs.Words.{tariff_outcome, adjustments_outcome, charges_outcome};
ghost use Rattle.book_model.specs.Words.{choose_outcome, disputes_outcome, periods_outcome};
ghost use Rattle.book_model.specs.Words.{adopt_outcome, ruling_outcome, ruling_shown, ShowsDays};
ghost use Rattle.book_model.specs.Words.{IsCreditOf, MayBeAsked, rule_outcome, ruling_asked};
ghost use Rattle.book_model.specs.Words.{credit_outcome, replace_outcome, withhold_outcome};
ghost use Rattle.book_model.specs.Words.{ShowsDispute, dispute_outcome, what_if_outcome};
ghost use Rattle.book_model.specs.Words.{ShowsDetail, ended_outcome, next_detail_outcome};
ghost use Rattle.book_model.specs.Words.{IsTrail, note_given, trail_outcome, trail_shown};
ghost use Rattle.book_model.specs.Words.{IsUsage, record_outcome};
ghost use Rattle.book_model.specs.Words.{credit_given_outcome, credit_shown, line_period_outcome};
ghost use Rattle.book_model.specs.Words.{ShowsEntryDays, arrival_outcome, entry_outcome, entry_shown};
ghost use Rattle.book_core.specs.Ledgers.{StopIsHarmless, Seen};
ghost use Rattle.book_core.specs.Calls.{IsCall};
ghost use Rattle.book_core.specs.Submissions.{TakesOf, records_in};
ghost use Rattle.book_core.specs.Transition.{IsTransition};
ghost use Rattle.book_core.specs.Withholdings.{TakesWorks};

use crate::withheld::{Withheld, with_answer, work_answer};
use book_model::{
    Accepted, Arrival, ChargeRow, Credit, Detail, Dispute, LedgerFault, Line, ListedEntry,
    ListedRuling, Note, Ruled, Ruling, Share, Stop, Trail,
};
use smf_text::Name;
use std::alloc::Global;
use tariff_rules::Tariff;

/// The books of an office, however they are kept. Each call is at most one change of them: it is
/// made whole, or not at all. A refused call changes nothing; what refuses it is said at each, in
/// the order of the tests. Any call may answer `Memory` or `Store` instead. After `Store` every
/// call answers `Reopen`, and only the next open of the books shows whether the change was made.
pub trait Ledger {
    /// What is seen of the books, and what a stop leaves of them.
    ghost seen: { Self → Seen };

    /// Makes a ruling. The calls below say of each what it does, and what refuses it. Where it is
    /// done and has a note, it has an entry in the journal, in the same change.
    fn rule(&mut self, ruling: Ruling<'_>, note: &Option<Note>) -> Result<Ruled, LedgerFault>
        requires { MayBeAsked (ruling_asked ruling) }
        ensures { IsCall (λ ruled. ruled) (seen self.old) (seen self.new) result
            (rule_outcome (seen self.old).naming (note_given note.now)
            (ruling_asked ruling.entry)) };

    /// Submits a tariff file. Its tariff is in force from its first day on, where that day is
    /// later than the last close and every other tariff's; the records that are held and dated on
    /// it or after it are priced anew, where the books have room for what all of them cost then.
    /// Refused: `TariffRefused`, `TariffExists`, `TariffDate`, `Full`.
    fn tariff(&mut self, text: &str, note: &Option<Note>) -> Result<Ruled, LedgerFault>
        ensures { IsCall (λ ruled. ruled) (seen self.old) (seen self.new) result
            (tariff_outcome (note_given note.now) text.now) }
    {
        self.rule(Ruling::Tariff(text), note)
    }

    /// Closes the open period, which is to be this one, through a day later than the last close.
    /// The day is counted from 1970-01-01. Refused: `WrongPeriod` with the open one, `NotLater`,
    /// and `Full` where no period may follow.
    fn close(
        &mut self,
        period: u16,
        through: i32,
        note: &Option<Note>,
    ) -> Result<Ruled, LedgerFault>
        requires { IsDay through }
        ensures { IsCall (λ ruled. ruled) (seen self.old) (seen self.new) result
            (close_outcome (note_given note.now) period through) }
    {
        self.rule(Ruling::Close { period, through }, note)
    }

    /// Chooses a record that is held, by its name, among those of its identity: it counts as
    /// undisputed from now on, the others stay uncharged. The choice that came last counts, also
    /// where it says that none of them does. Refused: `NoSuchRecord`; `NotDisputed` where it is
    /// alone and its work was never withheld; and `Full` where there is no room for a choice.
    fn choose(&mut self, name: [u8; 32], note: &Option<Note>) -> Result<Ruled, LedgerFault>
        ensures { IsCall (λ ruled. ruled) (seen self.old) (seen self.new) result
            (choose_outcome (seen self.old).naming (note_given note.now) name) }
    {
        self.rule(Ruling::Choose(name), note)
    }

    /// Adopts a rule of identity, 1 or 2: by the second one two records measure the same work only
    /// where that began at the same moment. Books begin under the first rule, and adopt the second
    /// once, for good; closed periods stay. Refused: `OldRule`, for rule 1 where the second is in
    /// force, and for any number that is no rule.
    fn adopt_identity(&mut self, rule: u8, note: &Option<Note>) -> Result<Ruled, LedgerFault>
        ensures { IsCall (λ ruled. ruled) (seen self.old) (seen self.new) result
            (adopt_outcome (note_given note.now) rule) }
    {
        self.rule(Ruling::Adopt(rule), note)
    }

    /// Puts the tariff of a file in the place of the one that begins on its first day, which is kept
    /// in the list of rulings. The records that had that tariff are priced anew. Refused:
    /// `TariffRefused`; `NoSuchTariff` where none begins on that day; `TariffDate` where the day is
    /// not later than the last close; `Full`.
    fn replace_tariff(&mut self, text: &str, note: &Option<Note>) -> Result<Ruled, LedgerFault>
        ensures { IsCall (λ ruled. ruled) (seen self.old) (seen self.new) result
            (replace_outcome (note_given note.now) text.now) }
    {
        self.rule(Ruling::Replace(text), note)
    }

    /// Withholds the work of a record that is held, by its name: no record of its identity counts
    /// from now on, whatever comes, until one of them is chosen. Refused: `NoSuchRecord`, and `Full`
    /// where there is no room for a choice.
    fn withhold(&mut self, name: [u8; 32], note: &Option<Note>) -> Result<Ruled, LedgerFault>
        ensures { IsCall (λ ruled. ruled) (seen self.old) (seen self.new) result
            (withhold_outcome (seen self.old).naming (note_given note.now) name) }
    {
        self.rule(Ruling::Withhold(name), note)
    }

    /// Withholds the works of the records of these names in order, as one change of the books: the
    /// first, and as many after it as one change takes, up to the next that is refused. Answers how
    /// many it took, each as `withhold` would, and those that are not held among them; or why the
    /// first is refused, as `withhold` says it. After `Store` the next open finds the works of some
    /// first of them withheld, or of none.
    fn withhold_many(
        &mut self,
        names: &[[u8; 32]],
        note: &Option<Note>,
    ) -> Result<Withheld, LedgerFault>
        requires { 0 < length names.now }
        ensures takes { IsTransition (seen self.old) (seen self.new)
            (TakesWorks (seen self.old).naming (note_given note.now) names.now result) }
        ensures some { IfOk result (λ told. 0 < told.taken) }
        ensures few { IfOk result (λ told. told.taken ≤ length names.now) }
        ensures done { IfOk result (λ told. told.done + told.absent ≤ told.taken) }
    {
        let told = self.withhold(names[0], note);
        let answer = work_answer(told)?;
        let none = Withheld {
            taken: 0,
            done: 0,
            absent: 0,
        };
        Ok(with_answer(none, answer))
    }

    /// Credits a centre with an amount, in ten-thousandths of the money unit, for a reason: the
    /// centre owes less for the open period, which is to be this one; where the amount is below 0,
    /// more. The same credit twice is one. Refused: `WrongPeriod` with the open one, `NoSuchCentre`,
    /// and `Full` where there is no room for a credit.
    fn credit(
        &mut self,
        period: u16,
        centre: Name,
        amount: i64,
        reason: &str,
        note: &Option<Note>,
    ) -> Result<Ruled, LedgerFault>
        requires { IsCreditOf centre amount reason.now }
        ensures { IsCall (λ ruled. ruled) (seen self.old) (seen self.new) result
            (credit_outcome (note_given note.now) period centre amount reason.now) }
    {
        self.rule(
            Ruling::Credit {
                period,
                centre,
                amount,
                reason,
            },
            note,
        )
    }

    /// Submits a record, which is held from now on where it is new, a tariff is in force on its
    /// day, and there is room for it. Refused: `DigestClash`, `Full`.
    fn accept(&mut self, bytes: &[u8]) -> Result<Accepted, LedgerFault>
        requires { IsUsageRecord bytes.now }
        ensures { IsCall (λ accepted. accepted) (seen self.old) (seen self.new) result
            (accept_outcome (seen self.old).naming bytes.now) };

    /// Submits records in order, as one change of the books: the first, and as many after it as
    /// one change takes, up to the next that is refused. Answers those that it took, each as
    /// `accept` would; or why the first is refused, as `accept` says it. After `Store` the next
    /// open finds some first records of them, or none. With those that are kept comes, in the same
    /// change, what their import says of itself, if one is given: so its entry counts them.
    fn accept_many(
        &mut self,
        records: &[Vec<u8>],
        import: &Option<Share>,
    ) -> Result<Vec<Accepted>, LedgerFault>
        requires some { 0 < length records.now }
        requires usage { All (λ one. IsUsageRecord one.items) records.now }
        ensures takes { IsTransition (seen self.old) (seen self.new)
            (TakesOf (seen self.old).naming import.now (records_in records.now) result) }
        ensures some { IfOk result (λ answers. 0 < length answers.items) };

    /// The import that has the newest entry ended, and why: the entry says so from now on. Never
    /// refused.
    fn end_import(&mut self, stop: Stop) -> Result<(), LedgerFault>
        ensures { IsCall (λ done. done) (seen self.old) (seen self.new) result
            (ended_outcome stop) };

    /// The charge rows of a period, by day, then centre, then shift. Refused: `NoSuchPeriod`.
    fn charges(&mut self, period: u16) -> Result<Vec<ChargeRow>, LedgerFault>
        ensures rows { IsCall (λ rows. rows.items) (seen self.old) (seen self.new) result
            (charges_outcome period) }
        ensures shown { IfOk result (λ rows. AreRows rows.items) };

    /// The charge rows that a period would have by another tariff: the records that it counts, each
    /// by this tariff, whatever its first day. Nothing is changed. Refused: `NoSuchPeriod`, and
    /// `Full` where they cost more by it than books hold.
    fn charges_under(&mut self, period: u16, tariff: &Tariff) -> Result<Vec<ChargeRow>, LedgerFault>
        ensures rows { IsCall (λ rows. rows.items) (seen self.old) (seen self.new) result
            (what_if_outcome period tariff.now) }
        ensures shown { IfOk result (λ rows. AreRows rows.items) };

    /// The adjustment lines of a period, by day, then name. Refused: `NoSuchPeriod`.
    fn adjustments(&mut self, period: u16) -> Result<Vec<Line>, LedgerFault>
        ensures lines { IsCall (λ lines. lines.items) (seen self.old) (seen self.new) result
            (adjustments_outcome (seen self.old).naming period) }
        ensures shown { IfOk result (λ lines. AreLines lines.items) };

    /// The period that an adjustment line of a period speaks of: where it adds its record, the one
    /// that the record's day belongs to; where it takes a charge back, the one that had charged it.
    /// `None` where no record of its name is held, or nothing was charged before. It takes few looks
    /// where the record's trail takes many. Never refused.
    fn period_of_line(&mut self, number: u16, line: &Line) -> Result<Option<u16>, LedgerFault>
        ensures { IsCall (λ period. period) (seen self.old) (seen self.new) result
            (line_period_outcome (seen self.old).naming number line.now) };

    /// The first of the details of a period that comes after one; `None` where there are no more.
    /// They are the records that the period counts, by day, centre, shift, time and name; where a
    /// centre is named, those of that centre alone. After none it is the first of all: so a list of
    /// any length is read with one detail in memory. Refused: `NoSuchPeriod`.
    fn next_detail(
        &mut self,
        period: u16,
        centre: Option<Name>,
        after: Option<Detail>,
    ) -> Result<Option<Detail>, LedgerFault>
        ensures detail { IsCall (λ found. found) (seen self.old) (seen self.new) result
            (next_detail_outcome (seen self.old).naming period centre after) }
        ensures shown { IfOk result ShowsDetail };

    /// The identities of two or more records that are held, where none was chosen, by their
    /// bytes, each with its records by name. Never refused.
    fn disputes(&mut self) -> Result<Vec<Dispute>, LedgerFault>
        ensures disputes { IsCall (λ found. map dispute_shown found.items)
            (seen self.old) (seen self.new) result (disputes_outcome (seen self.old).naming) }
        ensures shown { IfOk result (λ found. AreDisputes (map dispute_shown found.items)) };

    /// The first of the disputes whose identity is these bytes or comes after them; `None` where
    /// there are no more. From no bytes on it is the first of all, and from an identity with a zero
    /// byte behind it the next one: so a list of any length is read with one dispute in memory.
    /// Never refused.
    fn dispute_from(&mut self, from: &[u8]) -> Result<Option<Dispute>, LedgerFault>
        ensures dispute { IsCall (λ found. option_map dispute_shown found)
            (seen self.old) (seen self.new) result
            (dispute_outcome (seen self.old).naming from.now) }
        ensures shown { IfOk result ShowsDispute };

    /// The days through which periods were closed, in order, counted from 1970-01-01. The open
    /// period comes after them. Never refused.
    fn periods(&mut self) -> Result<Vec<i32>, LedgerFault>
        ensures days { IsCall (λ days. days.items) (seen self.old) (seen self.new) result
            periods_outcome }
        ensures shown { IfOk result (λ days. All IsDay days.items) };

    /// The ruling of a number, from 0, in the list of the office's rulings: the tariffs that came
    /// as texts, the closes, the choices, the adoption of the second rule of identity, the tariffs
    /// that were replaced, the credits. `None` where there are no more. Never refused.
    fn ruling(&mut self, number: u64) -> Result<Option<ListedRuling>, LedgerFault>
        ensures ruling { IsCall (λ found. option_map ruling_shown found)
            (seen self.old) (seen self.new) result
            (ruling_outcome (seen self.old).naming number) }
        ensures shown { IfOk result ShowsDays };

    /// The credit of a number, from 0, in the order in which they were given; `None` where there
    /// are no more. In the list of rulings they stand behind all others, however many there are.
    /// Never refused.
    fn credit_given(&mut self, number: u64) -> Result<Option<Credit>, LedgerFault>
        ensures { IsCall (λ found. option_map credit_shown found)
            (seen self.old) (seen self.new) result
            (credit_given_outcome number) };

    /// The entry of a number, from 0, of the journal, the oldest first: each ruling that was done
    /// with a note, and each import that kept a record. A ruling is shown as it stands among those
    /// of the office. `None` where there are no more. Never refused.
    fn entry(&mut self, number: u64) -> Result<Option<ListedEntry>, LedgerFault>
        ensures entry { IsCall (λ found. option_map entry_shown found)
            (seen self.old) (seen self.new) result
            (entry_outcome (seen self.old).naming number) }
        ensures shown { IfOk result ShowsEntryDays };

    /// The first of the records that are held whose name is these bytes or comes after them, with
    /// the entry by which it came; `None` where there are no more. From a name on it is the record
    /// of that name, if one is held, and from a name with a zero byte behind it the next one: so all
    /// records are walked over with one name in memory. Never refused.
    fn arrival_from(&mut self, from: &[u8]) -> Result<Option<Arrival>, LedgerFault>
        ensures { IsCall (λ found. found) (seen self.old) (seen self.new) result
            (arrival_outcome (seen self.old).naming from.now) };

    /// The record that is held under a name, and nothing else of it: one look where its trail
    /// takes many. Refused: `NoSuchRecord`.
    fn record_named(&mut self, alloc: Global, name: &[u8; 32]) -> Result<Vec<u8>, LedgerFault>
        ensures bytes { IsCall (λ bytes. bytes.items) (seen self.old) (seen self.new) result
            (record_outcome (seen self.old).naming name.now) }
        ensures usage { IfOk result (λ bytes. IsUsage bytes.items) };

    /// The trail of the record that is held under a name: how its price came about, the other
    /// records of its identity and the choices among them, and what each period did with it.
    /// Refused: `NoSuchRecord`.
    fn trail_of(&mut self, alloc: Global, name: &[u8; 32]) -> Result<Trail, LedgerFault>
        ensures trail { IsCall trail_shown (seen self.old) (seen self.new) result
            (trail_outcome (seen self.old).naming name.now) }
        ensures shown { IfOk result (λ trail. IsTrail (trail_shown trail)) };

    /// While the books are open, a stop leaves them as they are.
    ghost settled: { (ledger : Self) → (seen ledger).is_honest → (seen ledger).is_books
        → StopIsHarmless (seen ledger) };
}
