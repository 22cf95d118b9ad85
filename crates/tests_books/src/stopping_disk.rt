//! A disk that stops at some call, and once more after the crash that follows.

ghost use Rattle.std.specs.Prelude.{◌≡◌, ◌+◌, ◌-◌, ◌==◌, ◌↔◌, ◌&&◌, not, false, IsErr};
ghost use Rattle.sqlite_disk.specs.Disk.{CountsFault};
ghost use Rattle.sqlite_disk.specs.Refusal.{finds_no_room};

use sqlite_disk::{Crash, Disk, Tally};
use std::io;

/// What is found, after a crash, of what was written and not synced.
#[derive(Clone, Copy)]
pub(crate) enum Found {
    /// Nothing.
    Synced,
    /// All.
    Written,
    /// All, and the first half of the write in progress.
    Torn,
}

/// When a disk stops.
#[derive(Clone, Copy)]
pub(crate) struct Stop {
    /// The calls before it stops.
    pub(crate) calls: u64,
    /// Those after the crash, before it stops once more.
    pub(crate) calls_again: u64,
    pub(crate) found: Found,
}

/// It passes a given number of calls on, and is then frozen: each call fails and changes nothing,
/// except for a write that is torn. After a crash it passes on as many as are named for that.
#[derive(Drop)]
pub(crate) struct StoppingDisk<D: Disk> {
    inner: D,
    calls_left: u64,
    calls_again: u64,
    /// What was written is found after a crash.
    keeps: bool,
    /// The first call that is not passed on, if it writes, writes the first half.
    tears: bool,
    refused: u64,
    sync_refused: bool,
}

impl<D: Disk> StoppingDisk<D> {
    pub(crate) fn new(inner: D, stop: Stop) -> StoppingDisk<D> {
        StoppingDisk {
            inner,
            calls_left: stop.calls,
            calls_again: stop.calls_again,
            keeps: !matches!(stop.found, Found::Synced),
            tears: matches!(stop.found, Found::Torn),
            refused: 0,
            sync_refused: false,
        }
    }
}

/// Passes a call on, or counts it as refused.
fn spend(calls_left: &mut u64, tears: &mut bool, refused: &mut u64) -> io::Result<()>
    ensures faults { CountsFault result refused.old refused.new }
    ensures kind { finds_no_room result ≡ false }
    ensures stopped { IsErr result ↔ (calls_left.old ≡ 0) }
    ensures spent { calls_left.new ≡ calls_left.old - 1 }
    ensures torn { calls_left.old ≡ 0 → tears.new ≡ false }
{
    if *calls_left == 0 {
        *tears = false;
        *refused = refused.saturating_add(1);
        return Err(io::Error::other("the disk has stopped"));
    }
    *calls_left -= 1;
    Ok(())
}

impl<D: Disk> Disk for StoppingDisk<D> {
    ghost seen = { λ f. D.Disk.seen f.inner };

    ghost may_leave = { λ f. D.Disk.may_leave f.inner };

    ghost is_usable = { λ f. D.Disk.is_usable f.inner && not f.sync_refused };

    ghost faults = { λ f. D.Disk.faults f.inner + f.refused };

    ghost tally_of = { λ f. D.Disk.tally_of f.inner };

    ghost is_rotten = { λ f. D.Disk.is_rotten f.inner };

    ghost key_of = { λ f. D.Disk.key_of f.inner };

    ghost is_frozen = { λ f. (f.calls_left == 0) && not f.tears };

    ghost is_clean = { λ f. D.Disk.is_clean f.inner };

    ghost is_fair = { λ f. D.Disk.is_fair f.inner };

    ghost fair_if_clean = { λ f. D.Disk.fair_if_clean f.inner };

    ghost seen_may_stay = { λ f. D.Disk.seen_may_stay f.inner };

    // A torn write may leave any bytes.
    fn mixes(&self) -> bool {
        false
    }

    fn key(&self) -> u64 {
        self.inner.key()
    }

    fn tally(&self) -> Tally {
        self.inner.tally()
    }

    fn may_be_used(&self) -> bool {
        self.inner.may_be_used() && !self.sync_refused
    }

    fn len(&mut self) -> io::Result<usize> {
        spend(&mut self.calls_left, &mut self.tears, &mut self.refused)?;
        self.inner.len()
    }

    fn read_at(&mut self, at: usize, buf: &mut [u8]) -> io::Result<()> {
        spend(&mut self.calls_left, &mut self.tears, &mut self.refused)?;
        self.inner.read_at(at, buf)
    }

    fn read_checked(&mut self, key: u64, want: u64, at: usize, buf: &mut [u8]) -> io::Result<()> {
        spend(&mut self.calls_left, &mut self.tears, &mut self.refused)?;
        self.inner.read_checked(key, want, at, buf)
    }

    fn write_at(&mut self, at: usize, bytes: &[u8]) -> io::Result<()> {
        if self.calls_left == 0 && self.tears {
            self.tears = false;
            self.inner.write_at(at, &bytes[..bytes.len() / 2])?;
        }
        spend(&mut self.calls_left, &mut self.tears, &mut self.refused)?;
        self.inner.write_at(at, bytes)
    }

    fn set_len(&mut self, len: usize) -> io::Result<()> {
        spend(&mut self.calls_left, &mut self.tears, &mut self.refused)?;
        self.inner.set_len(len)
    }

    fn sync(&mut self) -> io::Result<()> {
        if let Err(error) = spend(&mut self.calls_left, &mut self.tears, &mut self.refused) {
            self.sync_refused = true;
            return Err(error);
        }
        self.inner.sync()
    }
}

/// The machine comes back.
impl<D: Crash> Crash for StoppingDisk<D> {
    fn crash(&mut self) {
        if !self.keeps || !self.inner.may_be_used() {
            self.inner.crash();
        }
        self.calls_left = self.calls_again;
        self.calls_again = u64::MAX;
        self.tears = false;
        self.sync_refused = false;
    }
}
