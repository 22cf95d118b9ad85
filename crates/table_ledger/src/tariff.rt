//! Tariffs that are submitted.

ghost use Rattle.std.specs.Prelude.{◌≡◌, ◌<◌, ◌^◌, false, IfErr, IfOk, Ok, OnOk, Some, string_bytes};
ghost use Rattle.tree_tables.specs.States.{state_of};
ghost use Rattle.book_model.specs.RulingAnswers.{terms_ruled};
ghost use Rattle.book_model.specs.Journal.{TariffOf};
ghost use Rattle.book_model.specs.Words.{note_given, terms_in, tariff_outcome, Naming};
ghost use Rattle.book_core.specs.OfficeRulings.{HasTariffRoom, ruled_in};
ghost use Rattle.table_model.specs.Changed.{tariff_at};
ghost use Rattle.table_ledger.specs.Entries.{DoesRuling};
ghost use Rattle.table_ledger.specs.Repricing.{TakesAndCounts};
ghost use Rattle.table_ledger.specs.TariffRefusals.{IsNoTariff};
ghost use Rattle.table_ledger.specs.Stages.{AttemptsOne};

use crate::commits::commit_written;
use crate::entries::enter;
use crate::many::counts_many;
use crate::repricing::{cost_under, reprice_all};
use crate::summary::Summary;
use book_core::{LedgerFault, Ruled, Rulings, is_done};
use book_model::{Note, Place};
use smf_text::LAST_DAY;
use sqlite_trees::error::StoreError;
use sqlite_trees::store::Store;
use std::alloc::Global;
use tariff_rules::{Tariff, TariffFault};
use tree_tables::{Sums, TariffText, TreeTables};

/// Writes a tariff: the prices of the records that it is for, its text, what the book counts then,
/// and its entry.
fn write_tariff<S: Store>(
    tables: &mut TreeTables<S>,
    alloc: Global,
    period: u16,
    text: &str,
    tariff: &Tariff,
    sums: &Sums,
    note: &Option<Note>,
    many: bool,
) -> Result<(), StoreError>
    requires held { sums.now.held < 2 ^ 63 }
    requires amount { sums.now.amount < 2 ^ 63 }
    ensures { DoesRuling result (state_of tables.old) (state_of tables.new)
        (TakesAndCounts period tariff.now sums.now.held)
        (tariff_at period (Some text.now) tariff.now sums.now.amount)
        (note_given note.now) (TariffOf tariff.now.effective) }
{
    reprice_all(tables, alloc, period, tariff, many)?;
    let day = tariff.effective();
    tables.put_tariff(&TariffText { day, body: text })?;
    tables.set_sums(sums)?;
    enter(tables, note, Place::Tariff(day))
}

/// The tariff of a text.
pub(crate) fn tariff_of(alloc: Global, text: &str) -> Result<Tariff, LedgerFault>
    ensures said { IfOk result (λ tariff. terms_in text.now ≡ Ok tariff) }
    ensures refused { IfErr result (IsNoTariff text.now) }
{
    match Tariff::parse(alloc, text) {
        Ok(tariff) => Ok(tariff),
        Err(TariffFault::Memory) => Err(LedgerFault::Memory),
        Err(why) => Err(LedgerFault::TariffRefused(why)),
    }
}

/// Takes the memory that one more tariff needs: room for it, and its text.
pub(crate) fn take_memory(
    rulings: &mut Rulings,
    alloc: Global,
    text: &str,
) -> Result<String, StoreError>
    ensures same { ruled_in rulings.new ≡ ruled_in rulings.old }
    ensures room { OnOk result (HasTariffRoom rulings.new) }
    ensures own { IfOk result (λ own. string_bytes own ≡ text.now) }
{
    rulings.reserve_tariff()?;
    Ok(String::from_str(alloc, text)?)
}

/// Puts a tariff in force that may be, if the books can hold what the records cost under it.
fn put_in_force<S: Store>(
    tables: &mut TreeTables<S>,
    summary: &mut Summary,
    alloc: Global,
    text: &str,
    tariff: Tariff,
    note: &Option<Note>,
) -> Result<Result<Ruled, LedgerFault>, StoreError>
    requires said { terms_in text.now ≡ Ok tariff }
    requires done { terms_ruled (ruled_in summary.old.rulings) false text.now tariff
        ≡ Ok Ruled.Done }
    ensures tries { (naming : Naming) → AttemptsOne (λ ruled. ruled) naming summary.old summary.new
        (state_of tables.old) (state_of tables.new)
        (tariff_outcome (note_given note.now) text.now) result }
{
    let period = summary.rulings.open_number();
    let first = tariff.effective();
    let many = counts_many(tables, alloc, summary.held, period, first, LAST_DAY)?;
    let Some(amount) = cost_under(tables, alloc, &tariff, summary.total, many)? else {
        return Ok(Err(LedgerFault::Full));
    };
    // The memory is taken first: if there is too little, the books stay as they were.
    let own = take_memory(&mut summary.rulings, alloc, text)?;
    let sums = Sums {
        held: summary.held as u64,
        amount,
    };
    let written = write_tariff(tables, alloc, period, text, &tariff, &sums, note, many);
    commit_written(tables, written)?;
    summary.rulings.put_tariff(own, tariff);
    summary.total = amount;
    Ok(Ok(Ruled::Done))
}

/// Answers a tariff file, and puts the tariff in force if it is later than all that was ruled and
/// the books can hold what the records cost under it.
pub(crate) fn try_tariff<S: Store>(
    tables: &mut TreeTables<S>,
    summary: &mut Summary,
    alloc: Global,
    text: &str,
    note: &Option<Note>,
) -> Result<Result<Ruled, LedgerFault>, StoreError>
    ensures tries { (naming : Naming) → AttemptsOne (λ ruled. ruled) naming summary.old summary.new
        (state_of tables.old) (state_of tables.new)
        (tariff_outcome (note_given note.now) text.now) result }
{
    let tariff = match tariff_of(alloc, text) {
        Ok(tariff) => tariff,
        Err(fault) => return Ok(Err(fault)),
    };
    let answer = summary.rulings.tariff_answer(text, &tariff);
    if !is_done(&answer) {
        return Ok(answer);
    }
    put_in_force(tables, summary, alloc, text, tariff, note)
}
