//! The period that an adjustment line speaks of.

ghost use Rattle.std.specs.Prelude.{◌≡◌};
ghost use Rattle.book_core.specs.OfficeRulings.{ruled_in};
ghost use Rattle.book_model.specs.Words.{Naming, line_period_outcome};
ghost use Rattle.table_model.specs.TrailRead.{line_period_row};
ghost use Rattle.tree_tables.specs.States.{state_of};
ghost use Rattle.tree_tables.specs.Steps.{Looks};
ghost use Rattle.tree_tables.specs.Stored.{stored_entry};
ghost use Rattle.table_ledger.specs.Stages.{AttemptsOne};

use crate::summary::Summary;
use crate::trails::look_for_life;
use book_core::{LedgerFault, Line, charged_before};
use sqlite_trees::error::StoreError;
use sqlite_trees::store::Store;
use std::alloc::Global;
use tree_tables::{StoredRecord, TreeTables};

/// The period that a line of a record speaks of: where it adds the record, the day tells it; else
/// the lines of the periods after that day do, by one look a period.
fn look_for_period<S: Store>(
    tables: &mut TreeTables<S>,
    alloc: Global,
    summary: &Summary,
    number: u16,
    plus: bool,
    stored: &StoredRecord,
) -> Result<Option<u16>, StoreError>
    ensures { Looks result (state_of tables.old) (state_of tables.new) (λ tables period. period
        ≡ line_period_row number plus (ruled_in summary.now.rulings) tables.lines
        (stored_entry stored.now)) }
{
    if plus {
        return Ok(Some(summary.rulings.period_of_day(&stored.priced.day)));
    }
    let life = look_for_life(tables, alloc, summary, stored)?;
    Ok(charged_before(number, &life))
}

/// The period that a line of a period speaks of, by the row of its record: no other record is
/// looked at, and no price is made anew.
pub(crate) fn try_period_of_line<S: Store>(
    tables: &mut TreeTables<S>,
    summary: &Summary,
    alloc: Global,
    number: u16,
    line: &Line,
) -> Result<Result<Option<u16>, LedgerFault>, StoreError>
    ensures { (naming : Naming) → AttemptsOne (λ period. period) naming summary.now summary.now
        (state_of tables.old) (state_of tables.new) (line_period_outcome naming number line.now)
        result }
{
    let Some(stored) = tables.find_record(alloc, &line.name)? else {
        return Ok(Ok(None));
    };
    let period = look_for_period(tables, alloc, summary, number, line.plus, &stored)?;
    Ok(Ok(period))
}
