//! Tariffs that take the place of others.

ghost use Rattle.std.specs.Prelude.{◌≡◌, ◌<◌, ◌^◌, false, find, IfOk, nat_le, Ok, option_copied};
ghost use Rattle.std.specs.Prelude.{Some, string_bytes, true};
ghost use Rattle.book_model.specs.RulingAnswers.{replace_ruled};
ghost use Rattle.book_model.specs.Journal.{ReplacementOf};
ghost use Rattle.book_model.specs.Words.{Naming, are_rising, is_effective, most_replaced};
ghost use Rattle.book_model.specs.Words.{note_given, replace_outcome, terms_in};
ghost use Rattle.book_core.specs.OfficeRulings.{ruled_in};
ghost use Rattle.table_model.specs.Changed.{replaced_at};
ghost use Rattle.tree_tables.specs.States.{state_of};
ghost use Rattle.table_ledger.specs.Entries.{DoesRuling};
ghost use Rattle.table_ledger.specs.Replacing.{HasTextAndCounts, text_begun};
ghost use Rattle.table_ledger.specs.Stages.{AttemptsOne};

use crate::commits::commit_written;
use crate::entries::enter;
use crate::replaced_prices::{cost_in_place, replace_all};
use crate::summary::Summary;
use crate::tariff::{take_memory, tariff_of};
use book_core::{AcceptedTariff, LedgerFault, MAX_REPLACED, Ruled, is_done};
use book_model::{Note, Place};
use sqlite_trees::error::StoreError;
use sqlite_trees::store::Store;
use std::alloc::Global;
use tariff_rules::Tariff;
use tree_tables::{ReplacedText, Sums, TariffText, TreeTables};

/// What is written beside the prices: the text, and that of the tariff whose place it takes, under
/// the number of that among those that were replaced, with the period that is open.
#[derive(Clone, Copy)]
struct Replacement<'a> {
    number: u32,
    period: u16,
    text: &'a str,
    was: &'a str,
}

/// The first of some tariffs that begins on the first day of another.
fn begun_on<'a>(tariffs: &'a [AcceptedTariff], tariff: &Tariff) -> Option<&'a AcceptedTariff>
    ensures { option_copied result ≡ find (is_effective tariff.now.effective) tariffs.now }
{
    tariffs.iter().find(|accepted| accepted.has_day_of(tariff))
}

/// The text of a tariff, which came with one: else the books are not what was kept.
fn own_text(alloc: Global, accepted: &AcceptedTariff) -> Result<String, StoreError>
    ensures { IfOk result (λ text. accepted.now.text ≡ Some (string_bytes text)) }
{
    let Some(text) = &accepted.text else {
        return Err(StoreError::Corrupt);
    };
    Ok(String::from_str(alloc, text)?)
}

/// The text of the tariff that begins on the first day of another.
fn replaced_text(
    alloc: Global,
    tariffs: &[AcceptedTariff],
    tariff: &Tariff,
) -> Result<String, StoreError>
    ensures { IfOk result (λ text.
        text_begun tariff.now.effective tariffs.now ≡ Some (string_bytes text)) }
{
    let Some(accepted) = begun_on(tariffs, tariff) else {
        return Err(StoreError::Corrupt);
    };
    let text = own_text(alloc, accepted)?;
    Ok(text)
}

/// Writes a tariff in the place of another: the prices of the records whose day has that, both
/// texts, what the book counts then, and the entry.
fn write_replacement<S: Store>(
    tables: &mut TreeTables<S>,
    alloc: Global,
    tariffs: &[AcceptedTariff],
    tariff: &Tariff,
    given: &Replacement<'_>,
    sums: &Sums,
    note: &Option<Note>,
) -> Result<(), StoreError>
    requires rising { are_rising tariffs.now ≡ true }
    requires held { sums.now.held < 2 ^ 63 }
    requires amount { sums.now.amount < 2 ^ 63 }
    ensures { DoesRuling result (state_of tables.old) (state_of tables.new)
        (HasTextAndCounts tariff.now given.now.was.now sums.now.held)
        (replaced_at given.now.number given.now.period tariffs.now given.now.text.now tariff.now
        sums.now.amount) (note_given note.now) (ReplacementOf given.now.number) }
{
    let day = tariff.effective();
    replace_all(tables, alloc, given.period, tariffs, tariff)?;
    let replaced = ReplacedText {
        day,
        period: given.period,
        body: given.was,
    };
    tables.put_replaced(given.number, &replaced)?;
    tables.put_tariff(&TariffText {
        day,
        body: given.text,
    })?;
    tables.set_sums(sums)?;
    enter(tables, note, Place::Replacement(given.number))
}

/// No more tariffs can be replaced.
fn has_most(count: u32) -> bool
    ensures full { result ≡ nat_le most_replaced count }
    ensures room { result ≡ false → count < most_replaced }
{
    count as usize >= MAX_REPLACED
}

/// Puts a tariff in the place of another, where the books can hold what the records cost then and
/// one more replaced tariff.
fn put_in_place<S: Store>(
    tables: &mut TreeTables<S>,
    summary: &mut Summary,
    alloc: Global,
    text: &str,
    tariff: Tariff,
    note: &Option<Note>,
) -> Result<Result<Ruled, LedgerFault>, StoreError>
    requires said { terms_in text.now ≡ Ok tariff }
    requires done { replace_ruled (ruled_in summary.old.rulings) false text.now tariff
        ≡ Ok Ruled.Done }
    ensures tries { (naming : Naming) → AttemptsOne (λ ruled. ruled) naming summary.old summary.new
        (state_of tables.old) (state_of tables.new)
        (replace_outcome (note_given note.now) text.now) result }
{
    if has_most(summary.replaced) {
        return Ok(Err(LedgerFault::Full));
    }
    let Some(amount) = cost_in_place(tables, alloc, summary.rulings.tariffs(), &tariff)? else {
        return Ok(Err(LedgerFault::Full));
    };
    // The memory is taken first: if there is too little, the books stay as they were.
    let own = take_memory(&mut summary.rulings, alloc, text)?;
    let was = replaced_text(alloc, summary.rulings.tariffs(), &tariff)?;
    let given = Replacement {
        number: summary.replaced + 1,
        period: summary.rulings.open_number(),
        text,
        was: was.as_str(),
    };
    let sums = Sums {
        held: summary.held as u64,
        amount,
    };
    let tariffs = summary.rulings.tariffs();
    let written = write_replacement(tables, alloc, tariffs, &tariff, &given, &sums, note);
    commit_written(tables, written)?;
    summary.rulings.put_replacement(own, tariff);
    summary.replaced += 1;
    summary.total = amount;
    Ok(Ok(Ruled::Done))
}

/// Answers a tariff file, and puts the tariff in the place of the one that begins on its first day
/// if that day is open and the books can hold what the records cost then.
pub(crate) fn try_replace<S: Store>(
    tables: &mut TreeTables<S>,
    summary: &mut Summary,
    alloc: Global,
    text: &str,
    note: &Option<Note>,
) -> Result<Result<Ruled, LedgerFault>, StoreError>
    ensures tries { (naming : Naming) → AttemptsOne (λ ruled. ruled) naming summary.old summary.new
        (state_of tables.old) (state_of tables.new)
        (replace_outcome (note_given note.now) text.now) result }
{
    let tariff = match tariff_of(alloc, text) {
        Ok(tariff) => tariff,
        Err(fault) => return Ok(Err(fault)),
    };
    let answer = summary.rulings.replacing_answer(text, &tariff);
    if !is_done(&answer) {
        return Ok(answer);
    }
    put_in_place(tables, summary, alloc, text, tariff, note)
}
