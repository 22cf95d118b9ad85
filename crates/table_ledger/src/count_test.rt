//! Which records a period counts. What a closed period counted is not stored: it is told by what is
//! charged now, and by the lines of the later periods.

ghost use Rattle.std.specs.Prelude.{◌≡◌, ◌≤◌, ◌-◌, ℕ, suc, List, OnOk, map};
ghost use Rattle.std.specs.BTreeMap.{get};
ghost use Rattle.std.specs.FinMap.{find};
ghost use Rattle.std.specs.Option.{option_or};
ghost use Rattle.book_model.specs.Words.{by_bytes};
ghost use Rattle.table_model.specs.CountedRead.{first_line};
ghost use Rattle.tree_tables.specs.States.{state_of};
ghost use Rattle.tree_tables.specs.Steps.{Looks};
ghost use Rattle.tree_tables.specs.Stored.{signed_name};

use crate::summary::Summary;
use book_core::{is_after, is_through};
use sqlite_trees::error::StoreError;
use sqlite_trees::store::Store;
use std::alloc::{AllocError, Global};
use std::collections::BTreeMap;
use tree_tables::{RecordMark, StoredLine, TreeTables};

/// Tells which records a period counts.
#[derive(Drop)]
pub(crate) struct CountTest {
    /// The day of the close before the period, if there was one.
    last: Option<i32>,
    /// The day through which it was closed, if it was.
    through: Option<i32>,
    /// By name, the first line of each record that has one in a later period: whether it is a plus
    /// line.
    lines: BTreeMap<[u8; 32], bool>,
}

/// Each line joins those of earlier periods, if its record has none among them.
pub(crate) fn add_first(
    lines: &mut BTreeMap<[u8; 32], bool>,
    found: &[StoredLine],
) -> Result<(), AllocError>
    ensures { OnOk result ((name : List ℕ) → get by_bytes lines.new name
        ≡ option_or (get by_bytes lines.old name)
        (find by_bytes name (map signed_name found.now))) }
{
    for line in found {
        lines.entry(line.name)?.or_insert(line.plus);
    }
    Ok(())
}

/// The first line of each record that has one in the periods after one, up to the last.
fn first_lines<S: Store>(
    tables: &mut TreeTables<S>,
    alloc: Global,
    after: u16,
    last: u16,
) -> Result<BTreeMap<[u8; 32], bool>, StoreError>
    requires { after ≤ last }
    ensures looks { Looks result (state_of tables.old) (state_of tables.new)
        (λ tables lines. (name : List ℕ) → get by_bytes lines name
        ≡ first_line tables.lines name (suc after) (last - after)) }
{
    let mut lines = BTreeMap::new(alloc);
    let mut period = after;
    while period < last {
        period += 1;
        let found = tables.list_lines(alloc, period)?;
        add_first(&mut lines, &found)?;
    }
    Ok(lines)
}

impl CountTest {
    ghost use Rattle.std.specs.Prelude.{◌≡◌, true};
    ghost use Rattle.book_core.specs.OfficeRulings.{ruled_in};
    ghost use Rattle.table_model.specs.ListsRead.{is_period};
    ghost use Rattle.tree_tables.specs.States.{state_of};
    ghost use Rattle.tree_tables.specs.Steps.{Looks};
    ghost use Rattle.table_ledger.specs.OtherPrices.{IsTestOf, passes_mark};

    /// Looks for what tells it of a period.
    pub(crate) fn of_period<S: Store>(
        tables: &mut TreeTables<S>,
        alloc: Global,
        summary: &Summary,
        period: u16,
    ) -> Result<CountTest, StoreError>
        requires { is_period period (ruled_in summary.now.rulings) ≡ true }
        ensures looks { Looks result (state_of tables.old) (state_of tables.new)
            (IsTestOf period (ruled_in summary.now.rulings)) }
    {
        let lines = first_lines(tables, alloc, period, summary.rulings.open_number())?;
        Ok(CountTest {
            last: summary.rulings.through_of(period - 1),
            through: summary.rulings.through_of(period),
            lines,
        })
    }

    /// The period counts the record: it is dated in the period, and was charged at its end. Before
    /// a plus line it was not charged, and before a minus line it was.
    pub(crate) fn counts(&self, mark: &RecordMark) -> bool
        ensures { result ≡ passes_mark self.now mark.now }
    {
        if !is_after(self.last, mark.day) || !is_through(self.through, mark.day) {
            return false;
        }
        match self.lines.get(&mark.name) {
            Some(plus) => !*plus,
            None => mark.charged,
        }
    }
}
