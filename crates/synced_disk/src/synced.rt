//! Each sync of a real file waits for its disk. A store syncs its files as it begins with them, and
//! again before it writes what must come later, whether or not they were written to meanwhile.

ghost use Rattle.std.specs.Prelude.{◌≡◌, false, true};
ghost use Rattle.sqlite_disk.specs.Disk.{Only};

use sqlite_disk::{Disk, Tally};
use std::io;

/// Passes each call on to a disk, but for a sync where nothing was written since the last one: there
/// a crash leaves what a read returns already.
#[derive(Drop)]
pub struct SyncedDisk<D: Disk> {
    inner: D,
    /// Nothing was written since it was synced.
    is_synced: bool,
    ghost synced: { is_synced ≡ true → Only (D.Disk.seen inner) (D.Disk.may_leave inner) },
}

impl<D: Disk> SyncedDisk<D> {
    ghost use Rattle.synced_disk.specs.Synced.{inner_of};

    /// Over a disk that was just synced.
    pub fn new(inner: D) -> SyncedDisk<D>
        requires { Only (D.Disk.seen inner) (D.Disk.may_leave inner) }
        ensures { inner_of result ≡ inner }
    {
        SyncedDisk {
            inner,
            is_synced: true,
        }
    }
}

impl<D: Disk> Disk for SyncedDisk<D> {
    ghost seen = { λ disk. D.Disk.seen disk.inner };

    ghost may_leave = { λ disk. D.Disk.may_leave disk.inner };

    ghost is_usable = { λ disk. D.Disk.is_usable disk.inner };

    ghost faults = { λ disk. D.Disk.faults disk.inner };

    ghost tally_of = { λ disk. D.Disk.tally_of disk.inner };

    ghost is_rotten = { λ disk. D.Disk.is_rotten disk.inner };

    ghost is_clean = { λ disk. D.Disk.is_clean disk.inner };

    ghost key_of = { λ disk. D.Disk.key_of disk.inner };

    ghost is_fair = { λ disk. D.Disk.is_fair disk.inner };

    ghost fair_if_clean = { λ disk. D.Disk.fair_if_clean disk.inner };

    ghost seen_may_stay = { λ disk. D.Disk.seen_may_stay disk.inner };

    ghost is_mixing = { λ disk. D.Disk.is_mixing disk.inner };

    fn mixes(&self) -> bool {
        self.inner.mixes()
    }

    fn key(&self) -> u64 {
        self.inner.key()
    }

    fn tally(&self) -> Tally {
        self.inner.tally()
    }

    fn may_be_used(&self) -> bool {
        self.inner.may_be_used()
    }

    fn len(&mut self) -> io::Result<usize> {
        self.inner.len()
    }

    fn read_at(&mut self, at: usize, buf: &mut [u8]) -> io::Result<()> {
        self.inner.read_at(at, buf)
    }

    fn read_checked(&mut self, key: u64, want: u64, at: usize, buf: &mut [u8]) -> io::Result<()> {
        self.inner.read_checked(key, want, at, buf)
    }

    fn write_at(&mut self, at: usize, bytes: &[u8]) -> io::Result<()> {
        self.is_synced = false;
        self.inner.write_at(at, bytes)
    }

    fn set_len(&mut self, len: usize) -> io::Result<()> {
        self.is_synced = false;
        self.inner.set_len(len)
    }

    fn sync(&mut self) -> io::Result<()> {
        if self.is_synced {
            return Ok(());
        }
        self.inner.sync()?;
        self.is_synced = true;
        Ok(())
    }
}
