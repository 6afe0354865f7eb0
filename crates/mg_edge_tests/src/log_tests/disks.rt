//! A disk that is full.
ghost use Rattle.std.specs.Prelude.{◌≡◌, ◌+◌};

use sqlite_disk::{Disk, Tally};
use std::io;

/// Passes calls on, but has room for so many bytes alone: a write past them finds none.
#[derive(Drop)]
pub(crate) struct Full<D: Disk> {
    inner: D,
    room: usize,
    refused: u64,
}

impl<D: Disk> Full<D> {
    pub(crate) fn new(inner: D, room: usize) -> Full<D> {
        Full {
            inner,
            room,
            refused: 0,
        }
    }

    pub(crate) fn into_inner(self) -> D {
        let Full {
            inner,
            room: _,
            refused: _,
        } = self;
        inner
    }
}

impl<D: Disk> Disk for Full<D> {
    ghost seen = { λ f. D.Disk.seen f.inner };

    ghost may_leave = { λ f. D.Disk.may_leave f.inner };

    ghost is_usable = { λ f. D.Disk.is_usable f.inner };

    ghost faults = { λ f. D.Disk.faults f.inner + f.refused };

    ghost tally_of = { λ f. record { caught = (D.Disk.tally_of f.inner).caught; refused = f.refused } };

    ghost is_rotten = { λ f. D.Disk.is_rotten f.inner };

    ghost key_of = { λ f. D.Disk.key_of f.inner };

    ghost is_clean = { λ f. D.Disk.is_clean f.inner };

    ghost is_fair = { λ f. D.Disk.is_fair f.inner };

    ghost fair_if_clean = { λ f. D.Disk.fair_if_clean f.inner };

    ghost seen_may_stay = { λ f. D.Disk.seen_may_stay f.inner };

    ghost is_mixing = { λ f. D.Disk.is_mixing f.inner };

    fn mixes(&self) -> bool {
        self.inner.mixes()
    }

    fn key(&self) -> u64 {
        self.inner.key()
    }

    fn tally(&self) -> Tally {
        Tally {
            caught: self.inner.tally().caught,
            refused: self.refused,
        }
    }

    fn may_be_used(&self) -> bool {
        self.inner.may_be_used()
    }

    fn len(&mut self) -> io::Result<usize> {
        self.inner.len()
    }

    fn read_at(&mut self, at: usize, buf: &mut [u8]) -> io::Result<()> {
        self.inner.read_at(at, buf)
    }

    fn read_checked(&mut self, key: u64, want: u64, at: usize, buf: &mut [u8]) -> io::Result<()> {
        self.inner.read_checked(key, want, at, buf)
    }

    fn write_at(&mut self, at: usize, bytes: &[u8]) -> io::Result<()> {
        if at > self.room || bytes.len() > self.room - at {
            self.refused = self.refused.saturating_add(1);
            return Err(io::Error::from(io::ErrorKind::StorageFull));
        }
        match self.inner.write_at(at, bytes) {
            Ok(()) => Ok(()),
            Err(_) => Err(io::Error::other("a write")),
        }
    }

    fn set_len(&mut self, len: usize) -> io::Result<()> {
        match self.inner.set_len(len) {
            Ok(()) => Ok(()),
            Err(_) => Err(io::Error::other("a length")),
        }
    }

    fn sync(&mut self) -> io::Result<()> {
        match self.inner.sync() {
            Ok(()) => Ok(()),
            Err(_) => Err(io::Error::other("a sync")),
        }
    }
}
