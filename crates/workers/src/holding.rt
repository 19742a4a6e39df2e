//! A gate for the tests of whoever lets workers run.
use crate::gate::Gate;
use std::sync::atomic::{AtomicU64, Ordering};
use std::thread;

/// How many turns a piece waits for the others.
const TURNS: u32 = 10_000_000;

/// A gate for tests. It holds each piece until so many were entered, so that as many threads have to be inside at once, and
/// keeps how often pieces were entered and left: a hexadecimal digit for each of the first 16 numbers.
#[derive(Debug, Drop)]
pub struct HoldingGate {
    until: u64,
    count: AtomicU64,
    entered: AtomicU64,
    left: AtomicU64,
    in_vain: AtomicU64,
}

/// The digit of a piece.
fn digit(piece: u32) -> u64 {
    1u64 << (4 * (piece % 16))
}

impl HoldingGate {
    /// A gate that holds each piece until so many were entered.
    pub fn until(count: u64) -> HoldingGate {
        HoldingGate {
            until: count,
            count: AtomicU64::new(0),
            entered: AtomicU64::new(0),
            left: AtomicU64::new(0),
            in_vain: AtomicU64::new(0),
        }
    }

    /// How often each piece was entered, a hexadecimal digit for each.
    pub fn entered(&self) -> u64 {
        self.entered.load(Ordering::SeqCst)
    }

    /// How often each piece was left, a hexadecimal digit for each.
    pub fn left(&self) -> u64 {
        self.left.load(Ordering::SeqCst)
    }

    /// How many pieces waited in vain.
    pub fn in_vain(&self) -> u64 {
        self.in_vain.load(Ordering::SeqCst)
    }
}

impl Gate for HoldingGate {
    fn enter(&self, piece: u32) {
        self.entered.fetch_add(digit(piece), Ordering::SeqCst);
        self.count.fetch_add(1, Ordering::SeqCst);
        for _ in 0..TURNS {
            if self.count.load(Ordering::SeqCst) >= self.until {
                return;
            }
            thread::yield_now();
        }
        self.in_vain.fetch_add(1, Ordering::SeqCst);
    }

    fn leave(&self, piece: u32) {
        self.left.fetch_add(digit(piece), Ordering::SeqCst);
    }
}
