//! The list of the office's rulings, as it is read of a plain ledger.

use super::PlainBooks;
use crate::credits::credit_at;
use crate::replaced::list_replaced;
use book_core::{ListedAt, RulingCounts, name_of};
use book_model::{Credit, LedgerFault, ListedRuling, Naming};
use std::alloc::AllocError;

impl<N: Naming + Drop> PlainBooks<N> {
    ghost use Rattle.std.specs.Prelude.{◌≡◌, ◌<◌, ◌≤◌, ◌+◌, IfOk, Some, length, option_map};
    ghost use Rattle.std.specs.Prelude.{slice_get};
    ghost use Rattle.book_model.specs.Words.{Answers, HasDays, ShowsDays, choice_seen, credit_seen};
    ghost use Rattle.book_model.specs.Words.{credit_given_outcome, credit_shown};
    ghost use Rattle.book_model.specs.Words.{most_replaced, ruling_outcome, ruling_shown};
    ghost use Rattle.plain_ledger.specs.PlainBook.{book_in, naming_in};

    /// The choice at a place among the choices, from 0.
    pub(super) fn choice_listed(&self, place: u32) -> ListedRuling
        requires { place < length (book_in self.now).rulings.choices }
        ensures listed { Some (ruling_shown result)
            ≡ option_map (choice_seen (N.name_of (naming_in self.now)) (place + 1))
            (slice_get (book_in self.now).rulings.choices place) }
        ensures days { HasDays (ruling_shown result) }
    {
        let choice = &self.choices[place as usize];
        let number = place + 1;
        let period = choice.period;
        let name = name_of(&self.naming, &choice.bytes);
        if choice.counts {
            ListedRuling::Choice {
                number,
                period,
                name,
            }
        } else {
            ListedRuling::Withheld {
                number,
                period,
                name,
            }
        }
    }

    /// The credit at a place among the credits, from 0.
    pub(super) fn credit_listed(&self, place: u32) -> Result<ListedRuling, AllocError>
        requires { place < length (book_in self.now).rulings.credits }
        ensures listed { IfOk result (λ ruling. Some (ruling_shown ruling)
            ≡ option_map (credit_seen (place + 1))
            (slice_get (book_in self.now).rulings.credits place)) }
        ensures days { IfOk result (λ ruling. HasDays (ruling_shown ruling)) }
    {
        let credit = &self.credits[place as usize];
        Ok(ListedRuling::Credit {
            number: place + 1,
            period: credit.period,
            centre: credit.centre,
            amount: credit.amount,
            reason: credit.reason.clone()?,
        })
    }

    /// How many rulings are kept beside the tariffs and the closes.
    fn ruling_counts(&self, replaced: &[ListedRuling]) -> RulingCounts
        requires { length replaced.now ≤ most_replaced }
        ensures choices { result.choices ≡ length (book_in self.now).rulings.choices }
        ensures replaced { result.replaced ≡ length replaced.now }
        ensures credits { result.credits ≡ length (book_in self.now).rulings.credits }
    {
        RulingCounts {
            choices: self.choices.len() as u32,
            replaced: replaced.len() as u32,
            credits: self.credits.len() as u32,
        }
    }

    /// The ruling of a number, if there is one.
    pub(crate) fn ruling_listed(&self, number: u64) -> Result<Option<ListedRuling>, LedgerFault>
        ensures ruling { Answers (λ found. option_map ruling_shown found) result
            (ruling_outcome (N.name_of (naming_in self.now)) number (book_in self.now)).answer }
        ensures shown { IfOk result ShowsDays }
    {
        let mut replaced = list_replaced(self.alloc, &self.replaced)?;
        let counts = self.ruling_counts(&replaced);
        let listed = self.rulings.listed_at(self.alloc, &counts, number)?;
        match listed {
            ListedAt::Choice(place) => Ok(Some(self.choice_listed(place))),
            ListedAt::Replaced(place) => Ok(Some(replaced.swap_remove(place as usize))),
            ListedAt::Credit(place) => Ok(Some(self.credit_listed(place)?)),
            ListedAt::Other(found) => Ok(found),
        }
    }

    /// The credit of a number, if there is one.
    pub(crate) fn credit_kept(&self, number: u64) -> Result<Option<Credit>, LedgerFault>
        ensures { Answers (λ found. option_map credit_shown found) result
            (credit_given_outcome number (book_in self.now)).answer }
    {
        let found = credit_at(&self.credits, number)?;
        Ok(found)
    }
}
