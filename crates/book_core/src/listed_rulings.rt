//! The list of the office's rulings: the tariffs that came as texts, the closes, the choices, the
//! adoption of the second rule of identity, the tariffs that were replaced, and the credits.

ghost use Rattle.std.specs.Prelude.{ℕ, ◌<◌, All, IfOk, length};
ghost use Rattle.book_model.specs.Words.{IsDay, ShowsDays, closes_seen, last_period, tariffs_seen};
ghost use Rattle.book_core.specs.ListedRulings.{IsShownAt, LeadsInto, StandsIn, adoption_part};
ghost use Rattle.book_core.specs.ListedRulings.{choices_part, last_part};

use crate::accepted_tariff::AcceptedTariff;
use crate::rulings::Rulings;
use book_model::ListedRuling;
use std::alloc::{AllocError, Global};

/// What stands at a number of the list.
#[derive(Drop)]
pub enum ListedAt {
    /// A choice: its place among the choices, from 0.
    Choice(u32),
    /// A tariff that was replaced: its place among those of them that came as texts, from 0.
    Replaced(u32),
    /// A credit: its place among the credits, from 0.
    Credit(u32),
    /// Another ruling, or none where there are no more.
    Other(Option<ListedRuling>),
}

/// How many rulings a ledger keeps beside its tariffs and closes.
#[derive(Clone, Copy)]
pub struct RulingCounts {
    pub choices: u32,
    /// The tariffs that were replaced, but for those that came without a text.
    pub replaced: u32,
    pub credits: u32,
}

/// The tariff at a number among those that came as texts, or by how much the number is past them.
fn tariff_at(
    alloc: Global,
    tariffs: &[AcceptedTariff],
    number: u64,
) -> Result<Result<Option<ListedRuling>, u64>, AllocError>
    ensures leads { IfOk result (LeadsInto (tariffs_seen tariffs.now) number) }
    ensures days { IfOk result (λ found. IfOk found ShowsDays) }
{
    let mut rest = number;
    for accepted in tariffs {
        if accepted.came_as_text() {
            if rest == 0 {
                return Ok(Ok(accepted.listed(alloc)?));
            }
            rest -= 1;
        }
    }
    Ok(Err(rest))
}

/// The close at a number among them, or by how much the number is past them.
pub(crate) fn close_at(closes: &[i32], number: u64) -> Result<Option<ListedRuling>, u64>
    requires few { length closes.now < last_period }
    requires days { All IsDay closes.now }
    ensures leads { LeadsInto (closes_seen 1 closes.now) number result }
    ensures days { IfOk result ShowsDays }
{
    let count = closes.len() as u64;
    if number >= count {
        return Err(number - count);
    }
    Ok(Some(ListedRuling::Close {
        period: number as u16 + 1,
        through: closes[number as usize],
    }))
}

/// What stands at a number among the tariffs that were replaced, and the credits behind them.
fn listed_last(replaced: u32, credits: u32, number: u64) -> ListedAt
    ensures stands { (choices : ℕ) → StandsIn last_part
        (record { choices = choices; replaced = replaced; credits = credits }) number result }
    ensures days { IsShownAt result }
{
    let those = u64::from(replaced);
    if number < those {
        return ListedAt::Replaced(number as u32);
    }
    let rest = number - those;
    let count = u64::from(credits);
    if rest < count {
        return ListedAt::Credit(rest as u32);
    }
    ListedAt::Other(None)
}

/// The same, with an adoption before them.
fn listed_from_adoption(period: u16, replaced: u32, credits: u32, number: u64) -> ListedAt
    ensures stands { (choices : ℕ) → StandsIn (adoption_part (Some period))
        (record { choices = choices; replaced = replaced; credits = credits }) number result }
    ensures days { IsShownAt result }
{
    if number == 0 {
        return ListedAt::Other(Some(ListedRuling::Adoption { period }));
    }
    listed_last(replaced, credits, number - 1)
}

/// The same behind the choices: the adoption comes first, if there was one.
fn listed_behind_choices(adopted: Option<u16>, replaced: u32, credits: u32, number: u64) -> ListedAt
    ensures stands { (choices : ℕ) → StandsIn (adoption_part adopted)
        (record { choices = choices; replaced = replaced; credits = credits }) number result }
    ensures days { IsShownAt result }
{
    match adopted {
        Some(period) => listed_from_adoption(period, replaced, credits, number),
        None => listed_last(replaced, credits, number),
    }
}

/// The same behind the closes: the choices come first.
fn listed_behind_closes(
    adopted: Option<u16>,
    choices: u32,
    replaced: u32,
    credits: u32,
    number: u64,
) -> ListedAt
    ensures stands { StandsIn (choices_part adopted)
        (record { choices = choices; replaced = replaced; credits = credits }) number result }
    ensures days { IsShownAt result }
{
    let count = u64::from(choices);
    if number < count {
        return ListedAt::Choice(number as u32);
    }
    listed_behind_choices(adopted, replaced, credits, number - count)
}

impl Rulings {
    ghost use Rattle.std.specs.Prelude.{IfOk};
    ghost use Rattle.book_core.specs.ListedRulings.{IsShownAt, StandsAt};
    ghost use Rattle.book_core.specs.OfficeRulings.{ruled_in};

    /// What stands at a number of the list, from 0, where so many rulings are kept beside these.
    pub fn listed_at(
        &self,
        alloc: Global,
        counts: &RulingCounts,
        number: u64,
    ) -> Result<ListedAt, AllocError>
        ensures stands { IfOk result (StandsAt (ruled_in self.now) counts.now number) }
        ensures days { IfOk result IsShownAt }
    {
        let rest = match tariff_at(alloc, self.tariffs(), number)? {
            Ok(found) => return Ok(ListedAt::Other(found)),
            Err(rest) => rest,
        };
        let rest = match close_at(self.closes(), rest) {
            Ok(found) => return Ok(ListedAt::Other(found)),
            Err(rest) => rest,
        };
        Ok(listed_behind_closes(
            self.adopted(),
            counts.choices,
            counts.replaced,
            counts.credits,
            rest,
        ))
    }
}
