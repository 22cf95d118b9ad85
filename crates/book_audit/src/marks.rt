//! The marks of a record, and the trees that find it.

ghost use Rattle.std.specs.Prelude.{◌≡◌, ◌≤◌, ◌-◌, None, true};
ghost use Rattle.tree_tables.specs.Stored.{stored_entry};
ghost use Rattle.book_audit.specs.Looks.{Looks, Tells, TellsIfSome};
ghost use Rattle.book_audit.specs.Marks as spec;
ghost use Rattle.book_audit.specs.Records.{GoesBack, HasPast, IsChargedRight, IsFound, IsMarked};
ghost use Rattle.book_audit.specs.Records.{IsPostedRight};

use crate::choices::Chosen;
use crate::finding::{Place, Wrong};
use crate::rulings::Rulings;
use crate::stop::{Stop, unsound};
use crate::trees::Trees;
use sqlite_trees::store::Store;
use tree_tables::StoredRecord;

/// Whether a record is to be charged: if its work is not withheld, and it is alone in its identity,
/// or was named last of it.
fn should_be_charged(is_withheld: bool, is_shared: bool, is_chosen: bool) -> bool
    ensures { result ≡ spec.should_be_charged is_withheld is_shared is_chosen }
{
    !is_withheld && (!is_shared || is_chosen)
}

/// Whether a record is posted as the last close charged it: as it is charged now, except for what a
/// line of the open period changed since. A record that is dated later was not posted.
fn is_posted_so(stored: &StoredRecord, is_closed: bool, line: Option<bool>) -> bool
    ensures { result ≡ spec.is_posted_so stored.now.charged stored.now.posted is_closed line }
{
    let charged = stored.charged;
    let posted = stored.posted;
    match (is_closed, line) {
        (true, None) => posted == charged,
        (true, Some(true)) => charged && !posted,
        (true, Some(false)) => !charged && posted,
        (false, None) => !posted,
        (false, Some(_)) => false,
    }
}

/// What is wrong with the way in which the trees find a record.
fn wrong_by_trees<S: Store>(
    trees: &mut Trees<S>,
    chosen: &Chosen,
    stored: &StoredRecord,
) -> Result<Option<Wrong>, Stop>
    ensures found { Tells result trees.old trees.new (λ all wrong.
        wrong ≡ None → IsFound all (stored_entry stored.now)) }
    ensures charged { Tells result trees.old trees.new (λ all wrong.
        wrong ≡ None → IsChargedRight (all 6) chosen.now (stored_entry stored.now)) }
    ensures looks { Looks result trees.old trees.new }
{
    if !trees.has_identity(stored)? {
        return Ok(Some(Wrong::NoIdentity));
    }
    if !trees.has_mark(stored)? {
        return Ok(Some(Wrong::NoMark));
    }
    let is_shared = trees.is_shared(&stored.identity)?;
    let is_chosen = chosen.is_last(&stored.identity, &stored.name);
    let is_withheld = chosen.withholds(&stored.identity);
    if stored.charged != should_be_charged(is_withheld, is_shared, is_chosen) {
        return Ok(Some(Wrong::Charged));
    }
    Ok(None)
}

/// Whether a record is posted as its day, its mark and the lines of the open period require.
fn is_posted_right<S: Store>(
    trees: &mut Trees<S>,
    rulings: &Rulings,
    stored: &StoredRecord,
) -> Result<bool, Stop>
    ensures posted { Tells result trees.old trees.new (λ all right.
        right ≡ true → IsPostedRight (all 5) rulings.now.closes.items (stored_entry stored.now)) }
    ensures looks { Looks result trees.old trees.new }
{
    let line = trees.line_of(rulings.open_period(), &stored.name)?;
    let is_closed = rulings.is_closed(stored.priced.day);
    Ok(is_posted_so(stored, is_closed, line))
}

/// Whether a record was charged at the end of its own period: from the open period back, each line
/// turns what was charged. None if a line adds a record that is not charged at the end of the line's
/// period, or reverses one that is.
fn past_of<S: Store>(
    trees: &mut Trees<S>,
    name: &[u8; 32],
    charged: bool,
    own: u16,
    last: u16,
) -> Result<Option<bool>, Stop>
    requires { own ≤ last }
    ensures past { TellsIfSome result trees.old trees.new (λ all before.
        GoesBack (all 5) name.now last (last - own) charged before) }
    ensures looks { Looks result trees.old trees.new }
{
    let mut now = charged;
    for back in 0..last - own {
        let line = trees.line_of(last - back, name)?;
        if let Some(plus) = line {
            if plus != now {
                return Ok(None);
            }
            now = !plus;
        }
    }
    Ok(Some(now))
}

/// Whether the row of its own period counts a record, by its lines; None if they do not turn what
/// was charged.
pub(crate) fn past_in<S: Store>(
    trees: &mut Trees<S>,
    rulings: &Rulings,
    stored: &StoredRecord,
) -> Result<Option<bool>, Stop>
    ensures past { TellsIfSome result trees.old trees.new (λ all counted.
        HasPast (all 5) rulings.now.closes.items (stored_entry stored.now) counted) }
    ensures looks { Looks result trees.old trees.new }
{
    let open = rulings.open_period();
    let own = rulings.period_of(stored.priced.day);
    past_of(trees, &stored.name, stored.charged, own, open)
}

/// A record is found by its identity and its mark, is charged if it is alone in its identity or
/// was chosen last of it, and is posted as the last close charged it. Its lines turn what was
/// charged, one after the other. Returns whether the row of its own period counts it.
pub(crate) fn check_marks<S: Store>(
    trees: &mut Trees<S>,
    rulings: &Rulings,
    stored: &StoredRecord,
) -> Result<bool, Stop>
    ensures marked { Tells result trees.old trees.new (λ all _.
        IsMarked all rulings.now (stored_entry stored.now)) }
    ensures past { Tells result trees.old trees.new (λ all counted.
        HasPast (all 5) rulings.now.closes.items (stored_entry stored.now) counted) }
    ensures looks { Looks result trees.old trees.new }
{
    if let Some(wrong) = wrong_by_trees(trees, &rulings.chosen, stored)? {
        return Err(unsound(Place::Record(stored.name), wrong));
    }
    if !is_posted_right(trees, rulings, stored)? {
        return Err(unsound(Place::Record(stored.name), Wrong::Posted));
    }
    match past_in(trees, rulings, stored)? {
        Some(counted) => Ok(counted),
        None => Err(unsound(Place::Record(stored.name), Wrong::Lines)),
    }
}
