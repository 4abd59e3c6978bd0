//! Gates that hold threads, each hold for a limited number of turns.

use gate_workers::Gate;
use std::sync::atomic::{AtomicU64, Ordering};
use std::thread;

// How often a thread looks before it gives up.
const TURNS: u32 = 10_000_000;

// Holds each of two workers after its first fold until the other has folded too.
#[derive(Drop)]
pub(crate) struct Meeting {
    first: AtomicU64,
    second: AtomicU64,
    missed: AtomicU64,
}

impl Meeting {
    pub(crate) fn new() -> Meeting {
        Meeting {
            first: AtomicU64::new(0),
            second: AtomicU64::new(0),
            missed: AtomicU64::new(0),
        }
    }

    // How often a worker gave up.
    pub(crate) fn missed(&self) -> u64 {
        self.missed.load(Ordering::SeqCst)
    }
}

impl Gate for Meeting {
    fn before_fold(&self, _worker: u32, _shard: u32) {}

    fn after_fold(&self, worker: u32, _shard: u32) {
        let (mine, other) = if worker == 0 {
            (&self.first, &self.second)
        } else {
            (&self.second, &self.first)
        };
        if mine.fetch_add(1, Ordering::SeqCst) == 0 && !reaches(other, 1) {
            self.missed.fetch_add(1, Ordering::SeqCst);
        }
    }

    fn before_read(&self, _caller: u32, _round: u32) {}

    fn after_read(&self, _caller: u32, _round: u32) {}
}

// Holds the first read of each of two callers until `folds` folds were made, and the next fold until both have read.
#[derive(Drop)]
pub(crate) struct Turnstile {
    folds: u64,
    begun: AtomicU64,
    made: AtomicU64,
    reads: AtomicU64,
    missed: AtomicU64,
}

impl Turnstile {
    pub(crate) fn after(folds: u64) -> Turnstile {
        Turnstile {
            folds,
            begun: AtomicU64::new(0),
            made: AtomicU64::new(0),
            reads: AtomicU64::new(0),
            missed: AtomicU64::new(0),
        }
    }

    // How often a thread gave up.
    pub(crate) fn missed(&self) -> u64 {
        self.missed.load(Ordering::SeqCst)
    }

    fn hold(&self, number: &AtomicU64, least: u64) {
        if !reaches(number, least) {
            self.missed.fetch_add(1, Ordering::SeqCst);
        }
    }
}

impl Gate for Turnstile {
    fn before_fold(&self, _worker: u32, _shard: u32) {
        if self.begun.fetch_add(1, Ordering::SeqCst) == self.folds {
            self.hold(&self.reads, 2);
        }
    }

    fn after_fold(&self, _worker: u32, _shard: u32) {
        self.made.fetch_add(1, Ordering::SeqCst);
    }

    fn before_read(&self, _caller: u32, round: u32) {
        if round == 0 {
            self.hold(&self.made, self.folds);
        }
    }

    fn after_read(&self, _caller: u32, round: u32) {
        if round == 0 {
            self.reads.fetch_add(1, Ordering::SeqCst);
        }
    }
}

// Counts for the numbers 0, 1 and 2, and one for all others.
#[derive(Drop)]
struct Counts {
    first: AtomicU64,
    second: AtomicU64,
    third: AtomicU64,
    others: AtomicU64,
}

impl Counts {
    fn new() -> Counts {
        Counts {
            first: AtomicU64::new(0),
            second: AtomicU64::new(0),
            third: AtomicU64::new(0),
            others: AtomicU64::new(0),
        }
    }

    fn of(&self, number: u32) -> &AtomicU64 {
        match number {
            0 => &self.first,
            1 => &self.second,
            2 => &self.third,
            _ => &self.others,
        }
    }

    // Counts one more for a number. Returns how many there were before.
    fn add(&self, number: u32) -> u64 {
        self.of(number).fetch_add(1, Ordering::SeqCst)
    }

    fn read(&self, number: u32) -> u64 {
        self.of(number).load(Ordering::SeqCst)
    }
}

// Lets three workers, two callers and the calling thread, which has the number 2, go one after the other: each worker
// folds once; the first caller and the calling thread read; each worker folds again; the second caller reads. Counts
// what each does by its number.
#[derive(Drop)]
pub(crate) struct RollCall {
    begun: Counts,
    made: Counts,
    reads: Counts,
    missed: AtomicU64,
}

impl RollCall {
    pub(crate) fn new() -> RollCall {
        RollCall {
            begun: Counts::new(),
            made: Counts::new(),
            reads: Counts::new(),
            missed: AtomicU64::new(0),
        }
    }

    // How often a thread gave up.
    pub(crate) fn missed(&self) -> u64 {
        self.missed.load(Ordering::SeqCst)
    }

    // How many folds were tried by a worker with a number above 2.
    pub(crate) fn other_folds(&self) -> u64 {
        self.made.read(3)
    }

    // How many reads were made by those with the numbers 0, 1 and 2, and by any other.
    pub(crate) fn reads(&self) -> [u64; 4] {
        [
            self.reads.read(0),
            self.reads.read(1),
            self.reads.read(2),
            self.reads.read(3),
        ]
    }

    fn hold(&self, counts: &Counts, number: u32, least: u64) {
        if !reaches(counts.of(number), least) {
            self.missed.fetch_add(1, Ordering::SeqCst);
        }
    }
}

impl Gate for RollCall {
    fn before_fold(&self, worker: u32, _shard: u32) {
        match self.begun.add(worker) {
            1 => {
                self.hold(&self.reads, 0, 1);
                self.hold(&self.reads, 2, 1);
            }
            2 => self.hold(&self.reads, 1, 1),
            _ => {}
        }
    }

    fn after_fold(&self, worker: u32, _shard: u32) {
        self.made.add(worker);
    }

    fn before_read(&self, caller: u32, _round: u32) {
        let folds = if caller == 1 { 2 } else { 1 };
        for worker in 0..3 {
            self.hold(&self.made, worker, folds);
        }
    }

    fn after_read(&self, caller: u32, _round: u32) {
        self.reads.add(caller);
    }
}

// Waits until a number is at least this. Returns whether it was.
fn reaches(number: &AtomicU64, least: u64) -> bool {
    for _ in 0..TURNS {
        if number.load(Ordering::SeqCst) >= least {
            return true;
        }
        thread::yield_now();
    }
    false
}
