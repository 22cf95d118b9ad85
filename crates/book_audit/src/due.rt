//! How many records are due by each entry of the journal.

ghost use Rattle.std.specs.Prelude.{◌<◌, ◌≡◌, ◌+◌, IfSome, OnOk, length, slice_set};
ghost use Rattle.book_audit.specs.Came.{AreAllThere, TakesOne};

use crate::finding::{Place, Wrong};
use crate::record_row::Arrived;
use crate::stop::{Stop, unsound};
use std::alloc::{AllocError, Global};

/// How many records are still to be met that came by each entry, by what the entries say that they
/// kept. The memory for it grows with the entries, and not with the records.
#[derive(Drop)]
pub(crate) struct Due {
    /// In the order of the entries, which are numbered from 1.
    left: Vec<u64>,
}

/// Where the entry of a number stands among so many, if it is one of them.
fn place_of(number: u64, count: usize) -> Option<usize>
    ensures number { IfSome result (λ at. number ≡ at + 1) }
    ensures inside { IfSome result (λ at. at < count) }
{
    if number == 0 || (count as u64) < number {
        return None;
    }
    Some((number - 1) as usize)
}

/// Another number stands at a place.
fn put_at(numbers: &mut Vec<u64>, at: usize, number: u64)
    requires { at < length numbers.old.items }
    ensures { numbers.new.items ≡ slice_set numbers.old.items at number }
{
    numbers[at] = number;
}

impl Due {
    ghost use Rattle.std.specs.Prelude.{◌≡◌, ◌++◌, ◌∷◌, ◌==◌, [], OnOk, Some, true};
    ghost use Rattle.std.specs.List.{list_all};
    ghost use Rattle.book_audit.specs.Came.{TakesOne};

    /// By no entries.
    pub(crate) fn new(alloc: Global) -> Due
        ensures { result.left.items ≡ [] }
    {
        Due {
            left: Vec::new(alloc),
        }
    }

    /// So many by the next entry.
    pub(crate) fn push(&mut self, kept: u64) -> Result<(), AllocError>
        ensures { OnOk result (self.new.left.items ≡ self.old.left.items ++ kept ∷ []) }
    {
        self.left.push(kept)?;
        Ok(())
    }

    /// One fewer by the entry of a number, if one is due by it.
    fn take_one(&mut self, number: u64) -> bool
        ensures { result ≡ true
            → TakesOne self.old.left.items self.new.left.items (Some number) }
    {
        let Some(at) = place_of(number, self.left.len()) else {
            return false;
        };
        let left = self.left[at];
        if left == 0 {
            return false;
        }
        put_at(&mut self.left, at, left - 1);
        true
    }

    /// A record that came by an entry is met, if one is due by that; one that came by none is not
    /// counted.
    fn take(&mut self, came: Option<u64>) -> bool
        ensures { result ≡ true → TakesOne self.old.left.items self.new.left.items came }
    {
        let Some(number) = came else {
            return true;
        };
        self.take_one(number)
    }

    /// Whether all are met.
    fn is_empty(&self) -> bool
        ensures { result ≡ list_all (λ left. left == 0) self.now.left.items }
    {
        self.left.iter().all(|left| *left == 0)
    }

    /// The number of the first entry by which some are due.
    fn first(&self) -> u64 {
        match self.left.iter().position(|left| *left != 0) {
            Some(at) => (at as u64).saturating_add(1),
            None => 0,
        }
    }
}

/// A record is one of those that are due by the entry by which it came, if it came by one.
pub(crate) fn check_came(due: &mut Due, one: &Arrived) -> Result<(), Stop>
    ensures { OnOk result (TakesOne due.old.left.items due.new.left.items one.now.came) }
{
    if !due.take(one.came) {
        return Err(unsound(Place::Record(one.record.name), Wrong::Came));
    }
    Ok(())
}

/// No record is due any more.
pub(crate) fn check_all_came(due: &Due) -> Result<(), Stop>
    ensures { OnOk result (AreAllThere due.now.left.items) }
{
    if !due.is_empty() {
        return Err(unsound(Place::Entry(due.first()), Wrong::Kept));
    }
    Ok(())
}
