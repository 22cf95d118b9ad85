//! What is held back in dispute: how many disputes there are in which a centre would pay for some
//! record, and the least and the greatest amount that choices come to. Disputes are read one at a
//! time.

ghost use Rattle.std.specs.Prelude.{◌≡◌, ◌++◌, ◌∷◌, [], IfSome, None};
ghost use Rattle.book_model.specs.Words as words;
ghost use Rattle.book_model.specs.Words.{dispute_shown, held_back_in};
ghost use Rattle.book_core.specs.Calls.{IsCall};
ghost use Rattle.book_reports.specs.HeldBack as spec;
ghost use Rattle.book_reports.specs.HeldBack.{AllDisputes};

use crate::period_days::{is_closed, period_days};
use book_core::{Dispute, Ledger, LedgerFault, Variant};
use book_lists::{DisputeCursor, Step, fold};
use book_model::HeldBack;
use smf_text::Name;
use std::alloc::{AllocError, Global};
use tariff_rules::Priced;

/// What no disputes hold back.
const NOTHING: HeldBack = HeldBack {
    disputes: 0,
    least: 0,
    greatest: 0,
};

/// The centre that is named pays it, or none is named.
fn is_paid_by(centre: &Option<Name>, priced: &Priced) -> bool
    ensures { result ≡ words.is_paid_by centre.now priced.now }
{
    match *centre {
        Some(centre) => priced.centre == centre,
        None => true,
    }
}

/// What the centre is charged where the record is chosen.
fn amount_for(centre: &Option<Name>, member: &Variant) -> u64
    ensures { result ≡ words.amount_for centre.now member.now }
{
    if is_paid_by(centre, &member.priced) {
        member.priced.amount
    } else {
        0
    }
}

/// The centre would pay for some of the records.
fn is_any_paid_by(centre: &Option<Name>, members: &[Variant]) -> bool
    ensures { result ≡ spec.is_any_paid_by centre.now members.now }
{
    for member in members {
        if is_paid_by(centre, &member.priced) {
            return true;
        }
    }
    false
}

/// The least that it would pay for one of the records of a dispute.
fn least_for(centre: &Option<Name>, dispute: &Dispute) -> u64
    ensures { result ≡ words.least_for centre.now (dispute_shown dispute.now) }
{
    let members = dispute.members.as_slice();
    let least = members
        .iter()
        .map(|member| amount_for(centre, member))
        .min();
    least.unwrap_or(0)
}

/// The greatest.
fn greatest_for(centre: &Option<Name>, dispute: &Dispute) -> u64
    ensures { result ≡ words.greatest_for centre.now (dispute_shown dispute.now) }
{
    let members = dispute.members.as_slice();
    let greatest = members
        .iter()
        .map(|member| amount_for(centre, member))
        .max();
    greatest.unwrap_or(0)
}

/// What is held back with one more dispute of these amounts, if 64 bits hold it.
fn with_amounts(held: HeldBack, least: u64, greatest: u64) -> Option<HeldBack>
    ensures more { IfSome result (λ more. more ≡ spec.with_amounts held least greatest) }
    ensures large { result ≡ None → ¬ spec.FitsAmounts held least greatest }
{
    Some(HeldBack {
        disputes: held.disputes.checked_add(1)?,
        least: held.least.checked_add(least)?,
        greatest: held.greatest.checked_add(greatest)?,
    })
}

/// The same with one more dispute of any kind.
fn with_dispute(held: HeldBack, centre: &Option<Name>, dispute: &Dispute) -> Option<HeldBack>
    ensures more { IfSome result (λ more. (disputes : AllDisputes)
        → held ≡ held_back_in centre.now disputes
        → more ≡ held_back_in centre.now (disputes ++ dispute_shown dispute.now ∷ [])) }
    ensures large { result ≡ None → ¬ spec.FitsAmounts held
        (words.least_for centre.now (dispute_shown dispute.now))
        (words.greatest_for centre.now (dispute_shown dispute.now)) }
{
    if !is_any_paid_by(centre, dispute.members.as_slice()) {
        return Some(held);
    }
    let least = least_for(centre, dispute);
    let greatest = greatest_for(centre, dispute);
    let Some(more) = with_amounts(held, least, greatest) else {
        return None;
    };
    Some(more)
}

/// Adds up what disputes hold back, for the centre that is named or for the whole office.
#[derive(Drop)]
struct HeldStep {
    centre: Option<Name>,
}

impl Step<Dispute> for HeldStep {
    ghost use Rattle.std.specs.Prelude.{◌≡◌, map};
    ghost use Rattle.book_model.specs.Words.{dispute_shown, held_back_in};

    type State = HeldBack;

    ghost Takes = { λ step dispute. Unit {0} };

    ghost Has = { λ step held disputes.
        held ≡ held_back_in step.centre (map dispute_shown disputes) };

    fn begin(&self, _alloc: Global) -> Result<HeldBack, AllocError> {
        Ok(NOTHING)
    }

    fn add(
        &self,
        _alloc: Global,
        held: &mut HeldBack,
        dispute: &Dispute,
    ) -> Result<(), LedgerFault> {
        let Some(more) = with_dispute(*held, &self.centre, dispute) else {
            return Err(LedgerFault::Memory);
        };
        *held = more;
        Ok(())
    }
}

/// What all disputes hold back.
fn held_in_all<L: Ledger>(
    alloc: Global,
    ledger: &mut L,
    centre: &Option<Name>,
) -> Result<HeldBack, LedgerFault>
    ensures { IsCall (λ held. held) (L.seen ledger.old) (L.seen ledger.new) result
        (spec.held_in_outcome (L.seen ledger.old).naming centre.now) }
{
    fold(alloc, ledger, &DisputeCursor, &HeldStep { centre: *centre })
}

/// What is held back of a period. A closed one holds nothing back: what is decided after its close
/// comes late in the period that is open then, so its bill is final.
pub(crate) fn held_back<L: Ledger>(
    alloc: Global,
    ledger: &mut L,
    period: u16,
    centre: &Option<Name>,
) -> Result<Option<HeldBack>, LedgerFault>
    ensures { IsCall (λ held. held) (L.seen ledger.old) (L.seen ledger.new) result
        (spec.held_back_outcome (L.seen ledger.old).naming period centre.now) }
{
    let days = period_days(ledger, period)?;
    if is_closed(days) {
        return Ok(None);
    }
    let held = held_in_all(alloc, ledger, centre)?;
    Ok(Some(held))
}
