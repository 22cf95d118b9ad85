//! Which centres are there in a period: those that a tariff has a rule for which begins no later
//! than the period's last day, and that of the records that no rule applies to. Tariffs are read
//! one at a time, and none is parsed after one that has such a rule.

ghost use Rattle.std.specs.Prelude.{◌≡◌, ◌||◌, IfErr, IfOk, Some};
ghost use Rattle.std.specs.Option.{ForSome};
ghost use Rattle.tariff_rules.specs.Price.{unassigned};
ghost use Rattle.book_model.specs.Words as words;
ghost use Rattle.book_model.specs.Words.{IsDay, same_bytes};
ghost use Rattle.book_core.specs.Calls.{IsCall};
ghost use Rattle.book_reports.specs.KnownCentres as spec;

use crate::book_texts::closed_through;
use crate::period_days::{PeriodDays, period_days};
use book_core::{Ledger, LedgerFault, Tariff, is_through};
use book_lists::{ListedTariff, Step, TariffCursor, fold};
use smf_text::Name;
use std::alloc::{AllocError, Global};
use tariff_rules::{TariffFault, is_unassigned};

/// The text of a tariff has a rule for the centre.
fn text_names(alloc: Global, centre: &Name, text: &str) -> Result<bool, LedgerFault>
    ensures named { IfOk result (λ named. named ≡ words.text_names centre.now text.now) }
    ensures memory { IfErr result (λ fault. fault ≡ LedgerFault.Memory) }
{
    match Tariff::parse(alloc, text) {
        Ok(tariff) => Ok(tariff.has_centre(centre)),
        Err(TariffFault::Memory) => Err(LedgerFault::Memory),
        Err(_) => Ok(false),
    }
}

/// So has that of a tariff which begins by the last of these days.
fn is_named_by(
    alloc: Global,
    centre: &Name,
    days: PeriodDays,
    day: i32,
    text: &str,
) -> Result<bool, LedgerFault>
    requires { IsDay day }
    ensures named { IfOk result (λ named. named
        ≡ spec.is_named_by centre.now days.through day text.now) }
    ensures memory { IfErr result (λ fault. fault ≡ LedgerFault.Memory) }
{
    if !is_through(days.through, day) {
        return Ok(false);
    }
    text_names(alloc, centre, text)
}

/// Looks for a rule for the centre, in the tariffs that begin by the last of these days.
#[derive(Drop)]
struct CentreStep {
    centre: Name,
    days: PeriodDays,
}

impl Step<ListedTariff> for CentreStep {
    ghost use Rattle.std.specs.Prelude.{◌≡◌, map};
    ghost use Rattle.book_model.specs.Words.{IsDay};
    ghost use Rattle.book_lists.specs.TariffsInTurn.{tariff_shown};
    ghost use Rattle.book_reports.specs.KnownCentres.{is_named};

    type State = bool;

    ghost Takes = { λ step tariff. IsDay tariff.day };

    ghost Has = { λ step named tariffs.
        named ≡ is_named step.centre step.days.through (map tariff_shown tariffs) };

    fn begin(&self, _alloc: Global) -> Result<bool, AllocError> {
        Ok(false)
    }

    fn add(
        &self,
        alloc: Global,
        named: &mut bool,
        tariff: &ListedTariff,
    ) -> Result<(), LedgerFault> {
        // One that has a rule for it is enough: the texts after it are not parsed.
        if *named {
            return Ok(());
        }
        let more = is_named_by(
            alloc,
            &self.centre,
            self.days,
            tariff.day,
            tariff.text.as_str(),
        )?;
        *named = more;
        Ok(())
    }
}

/// Some tariff that begins by the last of these days has a rule for the centre.
fn is_named<L: Ledger>(
    alloc: Global,
    ledger: &mut L,
    days: PeriodDays,
    centre: Name,
) -> Result<bool, LedgerFault>
    ensures { IsCall (λ named. named) (L.seen ledger.old) (L.seen ledger.new) result
        (spec.named_outcome centre days.through) }
{
    fold(alloc, ledger, &TariffCursor, &CentreStep { centre, days })
}

/// The centre is that of the records that no rule applies to, or it is named.
fn is_there(centre: &Name, named: bool) -> bool
    ensures { result ≡ (same_bytes unassigned centre.now || named) }
{
    is_unassigned(centre) || named
}

/// Refuses a centre that is not there in a period.
pub(crate) fn known_centre<L: Ledger>(
    alloc: Global,
    ledger: &mut L,
    period: u16,
    centre: Name,
) -> Result<(), LedgerFault>
    ensures { IsCall (λ done. done) (L.seen ledger.old) (L.seen ledger.new) result
        (spec.known_outcome period centre) }
{
    let days = period_days(ledger, period)?;
    let named = is_named(alloc, ledger, days, centre)?;
    if !is_there(&centre, named) {
        return Err(LedgerFault::NoSuchCentre);
    }
    Ok(())
}

/// The day that a period was closed through, `None` if no such period is closed; a centre that is
/// not there in it is refused.
fn centre_through<L: Ledger>(
    alloc: Global,
    ledger: &mut L,
    period: u16,
    centre: Name,
) -> Result<Option<i32>, LedgerFault>
    ensures through { IsCall (λ through. through) (L.seen ledger.old) (L.seen ledger.new) result
        (spec.known_through_outcome period (Some centre)) }
    ensures shown { IfOk result (λ through. ForSome through IsDay) }
{
    known_centre(alloc, ledger, period, centre)?;
    closed_through(ledger, period)
}

/// The same for a centre, where one is named.
pub(crate) fn known_through<L: Ledger>(
    alloc: Global,
    ledger: &mut L,
    period: u16,
    centre: &Option<Name>,
) -> Result<Option<i32>, LedgerFault>
    ensures through { IsCall (λ through. through) (L.seen ledger.old) (L.seen ledger.new) result
        (spec.known_through_outcome period centre.now) }
    ensures shown { IfOk result (λ through. ForSome through IsDay) }
{
    match *centre {
        Some(centre) => centre_through(alloc, ledger, period, centre),
        None => closed_through(ledger, period),
    }
}
