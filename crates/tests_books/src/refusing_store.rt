//! A store that answers one of its calls that memory ran out.

ghost use Rattle.std.specs.Prelude.{◌≡◌};

use sqlite_trees::error::StoreError;
use sqlite_trees::store::{Direction, Shape, Store};
use sqlite_value::row::Row;
use tests_scripts::is_due;

/// It passes a given number of calls on, answers the next that memory ran out, and passes on all
/// after that.
#[derive(Drop)]
pub(crate) struct RefusingStore<S: Store> {
    inner: S,
    /// The calls before the refused one; none is refused any more where there is no number.
    calls_left: Option<u32>,
}

impl<S: Store> RefusingStore<S> {
    /// A store that refuses the call after a given number.
    pub(crate) fn new(inner: S, calls: u32) -> RefusingStore<S>
        ensures { result.inner ≡ inner }
    {
        RefusingStore {
            inner,
            calls_left: Some(calls),
        }
    }

    /// It has refused a call.
    pub(crate) fn has_refused(&self) -> bool {
        self.calls_left.is_none()
    }
}

impl<S: Store> Store for RefusingStore<S> {
    ghost view = { λ store. S.Store.view store.inner };

    ghost faults = { λ store. S.Store.faults store.inner };

    ghost recovers = { λ store. S.Store.recovers store.inner };

    ghost is_shielded = { λ store. S.Store.is_shielded store.inner };

    ghost is_step = { λ _ _ _. Unit {0} };

    ghost ordered = { λ store. S.Store.ordered store.inner };

    ghost shut_if_dirty = { λ store. S.Store.shut_if_dirty store.inner };

    ghost empty_if_dirty = { λ store. S.Store.empty_if_dirty store.inner };

    ghost broken_if_shut = { λ store. S.Store.broken_if_shut store.inner };

    ghost settled = { λ store. S.Store.settled store.inner };

    ghost stays = { λ store. S.Store.stays store.inner };

    ghost survives = { λ store. S.Store.survives store.inner };

    ghost unaltered = { λ store. S.Store.unaltered store.inner };

    fn is_broken(&self) -> bool {
        self.inner.is_broken()
    }

    fn shape(&self, tree: u32) -> Shape {
        self.inner.shape(tree)
    }

    fn tree_count(&self) -> u64 {
        self.inner.tree_count()
    }

    fn reals(&self, tree: u32) -> u64 {
        self.inner.reals(tree)
    }

    fn seek(
        &mut self,
        cursor: u16,
        tree: u32,
        key: &Row,
        direction: Direction,
    ) -> Result<(), StoreError> {
        if is_due(&mut self.calls_left) {
            return Err(StoreError::OutOfMemory);
        }
        self.inner.seek(cursor, tree, key, direction)
    }

    fn next(&mut self, cursor: u16, row: &mut Row) -> Result<bool, StoreError> {
        if is_due(&mut self.calls_left) {
            return Err(StoreError::OutOfMemory);
        }
        self.inner.next(cursor, row)
    }

    fn get(&mut self, table: u32, id: i64, row: &mut Row) -> Result<bool, StoreError> {
        if is_due(&mut self.calls_left) {
            return Err(StoreError::OutOfMemory);
        }
        self.inner.get(table, id, row)
    }

    fn put(&mut self, table: u32, row: &Row) -> Result<(), StoreError> {
        if is_due(&mut self.calls_left) {
            return Err(StoreError::OutOfMemory);
        }
        self.inner.put(table, row)
    }

    fn delete(&mut self, table: u32, id: i64) -> Result<(), StoreError> {
        if is_due(&mut self.calls_left) {
            return Err(StoreError::OutOfMemory);
        }
        self.inner.delete(table, id)
    }

    fn insert(&mut self, index: u32, entry: &Row) -> Result<(), StoreError> {
        if is_due(&mut self.calls_left) {
            return Err(StoreError::OutOfMemory);
        }
        self.inner.insert(index, entry)
    }

    fn remove(&mut self, index: u32, entry: &Row) -> Result<(), StoreError> {
        if is_due(&mut self.calls_left) {
            return Err(StoreError::OutOfMemory);
        }
        self.inner.remove(index, entry)
    }

    // A commit that fails rolls back.
    fn commit(&mut self) -> Result<(), StoreError> {
        if is_due(&mut self.calls_left) {
            self.inner.rollback();
            return Err(StoreError::OutOfMemory);
        }
        self.inner.commit()
    }

    fn rollback(&mut self) {
        self.inner.rollback();
    }

    fn savepoint(&mut self) -> Result<(), StoreError> {
        if is_due(&mut self.calls_left) {
            return Err(StoreError::OutOfMemory);
        }
        self.inner.savepoint()
    }

    fn release(&mut self) -> Result<(), StoreError> {
        if is_due(&mut self.calls_left) {
            return Err(StoreError::OutOfMemory);
        }
        self.inner.release()
    }

    fn rollback_to(&mut self) -> Result<(), StoreError> {
        if is_due(&mut self.calls_left) {
            return Err(StoreError::OutOfMemory);
        }
        self.inner.rollback_to()
    }
}
