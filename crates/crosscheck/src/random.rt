//! Random numbers from a seed, and the memory for what is made with them: the same seed gives the same row everywhere.
ghost use Rattle.std.specs.Prelude.{◌<◌, max, length};

use crate::variable::Variable;
use std::alloc::Global;

/// A generator of the kind xorshift, whose state is never 0.
#[derive(Drop)]
pub struct Random {
    state: u64,
    pub heap: Global,
}

impl Random {
    /// The generator of a seed.
    pub(crate) fn new(heap: Global, seed: u64) -> Random {
        Random {
            state: seed.wrapping_mul(0x9e37_79b9_7f4a_7c15) | 1,
            heap,
        }
    }

    /// Any number.
    pub(crate) fn any(&mut self) -> u64 {
        let mut x = self.state;
        x ^= x << 13;
        x ^= x >> 7;
        x ^= x << 17;
        self.state = x;
        x.wrapping_mul(0x2545_f491_4f6c_dd1d)
    }

    /// A number below a bound; 0 below 0. Values are picked from tables; where cases draw on, or do something else each, a
    /// `match` over the number says it most plainly.
    pub(crate) fn below(&mut self, bound: u64) -> u64
        ensures { result < max bound 1 }
    {
        (self.any() >> 24) % bound.max(1)
    }

    /// Is it so, in so many cases of a hundred?
    pub(crate) fn chance(&mut self, percent: u64) -> bool {
        self.below(100) < percent
    }

    /// One entry of a table, each as often as the others.
    pub(crate) fn pick<T: Copy>(&mut self, table: &[T]) -> T
        requires { 0 < length table.now }
    {
        table[self.below(table.len() as u64) as usize]
    }

    /// One of a few, each in one of so many cases, and in the other cases the usual one.
    pub(crate) fn seldom<T: Copy>(&mut self, few: &[T], cases: u64, usual: T) -> T {
        few.get(self.below(cases) as usize)
            .copied()
            .unwrap_or(usual)
    }

    /// A word, most often a small one or one near a bound.
    pub(crate) fn word(&mut self) -> u16 {
        match self.below(8) {
            0..=3 => self.below(6) as u16,
            4 => self.below(300) as u16,
            5 => 65535 - self.below(4) as u16,
            6 => 32766 + self.below(4) as u16,
            _ => self.below(65536) as u16,
        }
    }

    /// A variable, most often one of the first six.
    pub(crate) fn variable(&mut self) -> Variable {
        if self.chance(85) {
            Variable(self.below(6) as u8)
        } else {
            Variable(self.below(64) as u8)
        }
    }
}
