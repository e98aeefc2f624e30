//! A gate that counts the turns of each seat, and at which the first turns of seats 0 and 1 wait for each other; and
//! one that counts calls.
use shared_jobs::Gate;
use std::alloc::{AllocError, Global};
use std::sync::atomic::{AtomicU64, Ordering};
use std::thread;

/// How many turns of a seat began, and how many ended.
#[derive(Drop)]
struct Turns {
    begun: AtomicU64,
    ended: AtomicU64,
}

/// A gate that counts the turns of some first seats that began, and those that ended. It counts a turn that begins or
/// ends out of its order, or of another seat, as wrong: the turns of a seat are numbered from 0 on, and none begins
/// before the one before it has ended. Others may report to it what was done outside of a turn. The first turns of
/// seats 0 and 1 look for each other, `looks` times each, and the gate counts those that saw the other.
#[derive(Drop)]
pub(crate) struct TurnCounts {
    seats: Vec<Turns>,
    wrong: AtomicU64,
    met: AtomicU64,
    looks: u32,
}

impl TurnCounts {
    /// A gate for `seats` seats that nothing has passed yet.
    pub(crate) fn new(alloc: Global, seats: u32, looks: u32) -> Result<TurnCounts, AllocError> {
        let mut counts = Vec::new(alloc);
        for _ in 0..seats {
            counts.push(Turns {
                begun: AtomicU64::new(0),
                ended: AtomicU64::new(0),
            })?;
        }
        Ok(TurnCounts {
            seats: counts,
            wrong: AtomicU64::new(0),
            met: AtomicU64::new(0),
            looks,
        })
    }

    /// How many turns of a seat ended, none of any seat being wrong; no number if one is, or if one is under way.
    pub(crate) fn of(&self, seat: usize) -> Option<u64> {
        let turns = self.seats.get(seat)?;
        let ended = turns.ended.load(Ordering::SeqCst);
        if self.wrong.load(Ordering::SeqCst) > 0 || turns.begun.load(Ordering::SeqCst) != ended {
            return None;
        }
        Some(ended)
    }

    /// Whether a turn of a seat has begun and not ended.
    pub(crate) fn is_under_way(&self, seat: usize) -> bool {
        match self.seats.get(seat) {
            Some(turns) => turns.begun.load(Ordering::SeqCst) > turns.ended.load(Ordering::SeqCst),
            None => false,
        }
    }

    /// Whether the first seats had these turns each, the others none, and `met` of two first turns saw the other.
    pub(crate) fn are(&self, counts: &[u64], met: u64) -> bool {
        for seat in 0..self.seats.len() {
            if self.of(seat) != Some(counts.get(seat).copied().unwrap_or(0)) {
                return false;
            }
        }
        self.has_met(met)
    }

    /// Whether `met` of two first turns saw the other.
    pub(crate) fn has_met(&self, met: u64) -> bool {
        self.met.load(Ordering::SeqCst) == met
    }

    // Looks for the first turn of another seat.
    fn meet(&self, other: usize) {
        let Some(turns) = self.seats.get(other) else {
            return;
        };
        for _ in 0..self.looks {
            if turns.begun.load(Ordering::SeqCst) > 0 {
                self.met.fetch_add(1, Ordering::SeqCst);
                return;
            }
            thread::yield_now();
        }
    }

    /// Counts something as wrong, unless it is right.
    pub(crate) fn tell(&self, is_right: bool) {
        if !is_right {
            self.wrong.fetch_add(1, Ordering::SeqCst);
        }
    }
}

impl Gate for TurnCounts {
    fn before(&self, seat: u64, turn: u64) {
        let Some(turns) = self.seats.get(seat as usize) else {
            return self.tell(false);
        };
        let ended = turns.ended.load(Ordering::SeqCst);
        let begun = turns.begun.fetch_add(1, Ordering::SeqCst);
        self.tell(begun == turn && ended == turn);
        if seat < 2 && turn == 0 {
            self.meet(1 - seat as usize);
        }
    }

    fn after(&self, seat: u64, turn: u64) {
        let Some(turns) = self.seats.get(seat as usize) else {
            return self.tell(false);
        };
        let begun = turns.begun.load(Ordering::SeqCst);
        let ended = turns.ended.fetch_add(1, Ordering::SeqCst);
        self.tell(ended == turn && begun.checked_sub(1) == Some(turn));
    }
}

/// How many calls of the gate came before a turn or a job, and how many after one. More turns or jobs under way than
/// there are workers are counted as wrong.
#[derive(Drop)]
pub(crate) struct Calls {
    before: AtomicU64,
    after: AtomicU64,
    wrong: AtomicU64,
    workers: u64,
}

impl Calls {
    /// A gate that nothing has passed yet.
    pub(crate) fn new(workers: u32) -> Calls {
        Calls {
            before: AtomicU64::new(0),
            after: AtomicU64::new(0),
            wrong: AtomicU64::new(0),
            workers: u64::from(workers),
        }
    }

    /// How many calls there were of each kind, none being wrong.
    pub(crate) fn count(&self) -> Option<[u64; 2]> {
        if self.wrong.load(Ordering::SeqCst) > 0 {
            return None;
        }
        Some([
            self.before.load(Ordering::SeqCst),
            self.after.load(Ordering::SeqCst),
        ])
    }
}

impl Gate for Calls {
    fn before(&self, _seat: u64, _turn: u64) {
        let begun = self.before.fetch_add(1, Ordering::SeqCst);
        if begun.saturating_sub(self.after.load(Ordering::SeqCst)) >= self.workers {
            self.wrong.fetch_add(1, Ordering::SeqCst);
        }
    }

    fn after(&self, _seat: u64, _turn: u64) {
        self.after.fetch_add(1, Ordering::SeqCst);
    }
}
