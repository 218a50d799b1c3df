//! The cells of a device, modelled plainly: two slots, each a stamp, values and the stamp again, written one cell after another.
ghost use Rattle.std.specs.Prelude.{◌<◌};

/// Where the power goes in a save: at this write, which leaves this junk.
#[derive(Clone, Copy)]
pub struct Cut {
    pub write: u64,
    pub junk: u64,
}

/// The writes of a save so far, and where the power goes if it does.
#[derive(Drop)]
struct Save {
    writes: u64,
    cut: Option<Cut>,
}

impl Save {
    /// Writes a number to a cell that holds another one.
    fn write(&mut self, cell: &mut u64, number: u64) {
        if *cell == number {
            return;
        }
        let write = self.writes;
        self.writes = write.saturating_add(1);
        *cell = match self.cut {
            Some(cut) if cut.write == write => cut.junk,
            Some(cut) if cut.write < write => *cell,
            _ => number,
        };
    }
}

/// A stamp, values and the stamp again.
#[derive(Clone, Copy)]
struct Slot {
    first: u64,
    values: [u64; 64],
    last: u64,
}

impl Slot {
    /// No stamp, and nothing kept.
    const BLANK: Slot = Slot {
        first: 0,
        values: [0; 64],
        last: 0,
    };

    /// The stamp of a slot that is valid: both are the same, and not 0.
    fn stamp(&self) -> Option<u64> {
        (self.first == self.last && self.first != 0).then_some(self.first)
    }
}

/// Two slots, of whose values so many are kept.
#[derive(Clone, Copy)]
pub struct Cells {
    kept: usize,
    slots: [Slot; 2],
}

impl Cells {
    /// As it leaves the factory.
    pub(crate) fn new(kept: usize, firsts: &[u16; 64]) -> Cells {
        let mut slot = Slot {
            first: 1,
            last: 1,
            ..Slot::BLANK
        };
        for (cell, value) in slot.values.iter_mut().zip(firsts).take(kept) {
            *cell = u64::from(*value);
        }
        Cells {
            kept,
            slots: [slot, Slot::BLANK],
        }
    }

    /// Which slot is the current one.
    fn current(&self) -> usize
        ensures { result < 2 }
    {
        usize::from(self.slots[0].stamp() < self.slots[1].stamp())
    }

    /// The kept values, 0 past them.
    pub(crate) fn recovered(&self) -> [u64; 64] {
        self.slots[self.current()].values
    }

    /// Saves values, while there is power; answers how many writes that takes.
    pub(crate) fn save(&mut self, values: &[u16; 64], cut: Option<Cut>) -> u64 {
        let current = self.current();
        let stamp = self.slots[current].first.wrapping_add(1);
        let mut save = Save { writes: 0, cut };
        let mut slot = self.slots[1 - current];
        save.write(&mut slot.first, stamp);
        for (cell, value) in slot.values.iter_mut().zip(values).take(self.kept) {
            save.write(cell, u64::from(*value));
        }
        save.write(&mut slot.last, stamp);
        self.slots[1 - current] = slot;
        save.writes
    }
}
