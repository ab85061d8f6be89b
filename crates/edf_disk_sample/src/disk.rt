//! Disks in memory that are lent, and stop.

use sqlite::Files;
use sqlite_disk::{Disk, Fuse, Memory, Tally};
use std::io;

/// A file in memory that is there again when the store over it is gone, and stops after a number of
/// calls. Each store over disks is one over this type, so that its code is compiled once.
pub type Lendable<'a> = Fuse<Lent<'a, Memory>>;

/// A log and a database file, which are reached by `log_calls` and `db_calls` calls.
pub fn stopping<'a>(
    log: &'a mut Memory,
    db: &'a mut Memory,
    log_calls: u64,
    db_calls: u64,
) -> Files<Lendable<'a>> {
    Files {
        log: Fuse::new(Lent::new(log), log_calls),
        db: Fuse::new(Lent::new(db), db_calls),
    }
}

/// A log and a database file that stop at nothing.
pub fn lend<'a>(log: &'a mut Memory, db: &'a mut Memory) -> Files<Lendable<'a>> {
    stopping(log, db, u64::MAX, u64::MAX)
}

/// Passes each call on to the disk that it borrows, which is there again when what was opened over
/// this one is gone.
#[derive(Drop)]
pub struct Lent<'a, D: Disk> {
    disk: &'a mut D,
}

impl<'a, D: Disk> Lent<'a, D> {
    pub fn new(disk: &'a mut D) -> Lent<'a, D> {
        Lent { disk }
    }
}

impl<D: Disk> Disk for Lent<'_, D> {
    ghost seen = { λ l. D.Disk.seen l.disk.now };

    ghost may_leave = { λ l. D.Disk.may_leave l.disk.now };

    ghost is_usable = { λ l. D.Disk.is_usable l.disk.now };

    ghost faults = { λ l. D.Disk.faults l.disk.now };

    ghost tally_of = { λ l. D.Disk.tally_of l.disk.now };

    ghost is_rotten = { λ l. D.Disk.is_rotten l.disk.now };

    ghost key_of = { λ l. D.Disk.key_of l.disk.now };

    ghost is_clean = { λ l. D.Disk.is_clean l.disk.now };

    ghost is_fair = { λ l. D.Disk.is_fair l.disk.now };

    ghost fair_if_clean = { λ l. D.Disk.fair_if_clean l.disk.now };

    ghost seen_may_stay = { λ l. D.Disk.seen_may_stay l.disk.now };

    ghost is_mixing = { λ l. D.Disk.is_mixing l.disk.now };

    fn mixes(&self) -> bool {
        self.disk.mixes()
    }

    fn key(&self) -> u64 {
        self.disk.key()
    }

    fn tally(&self) -> Tally {
        self.disk.tally()
    }

    fn may_be_used(&self) -> bool {
        self.disk.may_be_used()
    }

    fn len(&mut self) -> io::Result<usize> {
        self.disk.len()
    }

    fn read_at(&mut self, at: usize, buf: &mut [u8]) -> io::Result<()> {
        self.disk.read_at(at, buf)
    }

    fn read_checked(&mut self, key: u64, want: u64, at: usize, buf: &mut [u8]) -> io::Result<()> {
        self.disk.read_checked(key, want, at, buf)
    }

    fn write_at(&mut self, at: usize, bytes: &[u8]) -> io::Result<()> {
        self.disk.write_at(at, bytes)
    }

    fn set_len(&mut self, len: usize) -> io::Result<()> {
        self.disk.set_len(len)
    }

    fn sync(&mut self) -> io::Result<()> {
        self.disk.sync()
    }
}
