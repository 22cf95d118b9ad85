//! The shifts of a tariff with their percents, each once and by name.

ghost use Rattle.std.specs.Prelude.{◌≡◌, ◌++◌, IfOk, OnOk, map};
ghost use Rattle.std.specs.BTreeSet.{insert_key};
ghost use Rattle.tariff_rules.specs.Price.{base_shift};
ghost use Rattle.book_model.specs.Words as words;
ghost use Rattle.book_model.specs.Words.{by_shift};
ghost use Rattle.book_reports.specs.BillTariffs.{with_shifts};

use book_core::Tariff;
use book_model::BilledShift;
use std::alloc::{AllocError, Global};
use std::collections::BTreeSet;
use tariff_rules::{Shift, ShiftRule};

/// `BASE` joins shifts.
fn insert_base(shifts: &mut BTreeSet<Shift>) -> Result<(), AllocError>
    ensures { OnOk result (shifts.new.keys ≡ insert_key by_shift shifts.old.keys base_shift) }
{
    shifts.insert(Shift::base())?;
    Ok(())
}

/// The shift of a rule joins others.
fn insert_shift(shifts: &mut BTreeSet<Shift>, rule: &ShiftRule) -> Result<(), AllocError>
    ensures { OnOk result
        (shifts.new.keys ≡ insert_key by_shift shifts.old.keys rule.now.shift) }
{
    shifts.insert(rule.shift())?;
    Ok(())
}

/// The shifts of rules join others.
fn insert_shifts(shifts: &mut BTreeSet<Shift>, rules: &[ShiftRule]) -> Result<(), AllocError>
    ensures { OnOk result (shifts.new.keys ≡ with_shifts shifts.old.keys rules.now) }
{
    for rule in rules {
        insert_shift(shifts, rule)?;
    }
    Ok(())
}

/// The shifts of a tariff: those of its rules, and `BASE`.
pub(crate) fn shifts_of(alloc: Global, tariff: &Tariff) -> Result<Vec<Shift>, AllocError>
    ensures { IfOk result (λ shifts. shifts.items ≡ words.shifts_of tariff.now) }
{
    let mut shifts = BTreeSet::new(alloc);
    insert_base(&mut shifts)?;
    insert_shifts(&mut shifts, tariff.shift_rules())?;
    shifts.into_iter().collect(alloc)
}

/// Shifts of a tariff that begins on a day join others.
#[tactic(auto, using(std::proofs::lemmas::List::map_more))]
pub(crate) fn push_shifts(
    billed: &mut Vec<BilledShift>,
    day: i32,
    shifts: &[Shift],
) -> Result<(), AllocError>
    ensures { OnOk result
        (billed.new.items ≡ billed.old.items ++ map (words.billed_shift day) shifts.now) }
{
    for shift in shifts {
        billed.push(BilledShift {
            day,
            shift: shift.name,
            percent: shift.percent,
        })?;
    }
    Ok(())
}
