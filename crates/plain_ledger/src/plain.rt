ghost use Rattle.std.specs.Prelude.{◌≡◌, ◌≤◌, length};
ghost use Rattle.std.specs.List.Sorted.{IsStrictlySortedBy};
ghost use Rattle.std.specs.Map.{keys_of};
ghost use Rattle.std.proofs.Props.{props};
ghost use Rattle.book_model.specs.Words.{by_bytes, most_choices, most_credits, most_replaced};
ghost use Rattle.book_core.specs.OfficeRulings.{ruled_in};
ghost use Rattle.plain_ledger.specs.Plain.{AreBooked, CacheIsHeld, ruled_by};
ghost use Rattle.plain_ledger.specs.Treatments.{AreNamed};

mod adoption;
mod choices;
mod credits;
mod lists;
mod places;
mod records;
mod replacements;
mod ruling_list;
mod rulings;
mod standings;
mod trail;

use crate::chosen::ChosenRecord;
use crate::held::HeldRecord;
use crate::record_cache::RecordCache;
use crate::replaced::ReplacedTariff;
use crate::treatment::ClosedPeriod;
use book_core::Rulings;
use book_model::{Credit, Naming};
use std::alloc::Global;
use std::collections::{BTreeMap, BTreeSet};

/// Books that are kept in memory: records by their names, and every list computed from them anew.
/// They have no journal.
#[derive(Drop)]
pub(crate) struct PlainBooks<N: Naming + Drop> {
    naming: N,
    rulings: Rulings,
    held: BTreeMap<[u8; 32], HeldRecord>,
    cache: RecordCache,
    /// What the records cost together.
    total: u64,
    /// The names of the records that the last close charged.
    posted: BTreeSet<[u8; 32]>,
    /// What each closed period does with the records.
    closed: Vec<ClosedPeriod>,
    choices: Vec<ChosenRecord>,
    /// The tariffs that were replaced.
    replaced: Vec<ReplacedTariff>,
    credits: Vec<Credit>,
    alloc: Global,
    ghost rising: { IsStrictlySortedBy by_bytes (keys_of held.entries) } by { Prim.hlevel props },
    ghost kept: { AreBooked (N.name_of naming)
        (ruled_by rulings choices.items replaced.items credits.items) held.entries total },
    ghost recalls: { CacheIsHeld held.entries cache },
    ghost named: { AreNamed held.entries posted closed.items },
    ghost counted: { length closed.items ≡ length (ruled_in rulings).closes },
    ghost few: { length choices.items ≤ most_choices },
    ghost few_replaced: { length replaced.items ≤ most_replaced },
    ghost few_credits: { length credits.items ≤ most_credits },
}

impl<N: Naming + Drop> PlainBooks<N> {
    ghost use Rattle.std.specs.Prelude.{◌≡◌, []};
    ghost use Rattle.book_model.specs.Words.{new_book};
    ghost use Rattle.plain_ledger.specs.PlainBook.{book_in, naming_in};

    /// Books that hold no record, under these rulings, with no close among them.
    pub(crate) fn under(alloc: Global, naming: N, rulings: Rulings) -> PlainBooks<N>
        requires { (ruled_in rulings).closes ≡ [] }
        ensures book { book_in result ≡ record new_book { rulings = ruled_in rulings } }
        ensures naming { naming_in result ≡ naming }
    {
        PlainBooks {
            naming,
            rulings,
            held: BTreeMap::new(alloc),
            cache: RecordCache::new(alloc),
            total: 0,
            posted: BTreeSet::new(alloc),
            closed: Vec::new(alloc),
            choices: Vec::new(alloc),
            replaced: Vec::new(alloc),
            credits: Vec::new(alloc),
            alloc,
        }
    }
}
