//! Code while it is made.
ghost use Rattle.std.specs.Prelude.{◌≡◌, ◌-◌, ◌≤◌, List, [], ◌∷◌, length, map, take, slice_set};
ghost use Rattle.compiler.specs.Instr.{Instr, stop};
ghost use Rattle.compiler.specs.Listed.{listed};
ghost use Rattle.compiler.specs.Emitted.{Appends, Copies};

use super::instruction::Instruction;
use base::Refusal;
use std::marker::Model;

/// How many instructions there are at most: a program has no more of them than tokens.
const ROOM: usize = 4096;

/// Where an instruction stands that is written later.
#[derive(Clone, Copy)]
pub(crate) struct Place(usize);

/// The instructions that were made so far. Those for which there is no room are left out.
// An array and a length, and no `Vec`: the compiler has no heap.
#[derive(Drop)]
pub(crate) struct Draft {
    code: [Instruction; ROOM],
    len: usize,
}

impl Model for Draft {
    ghost Value = { List Instr };

    ghost view = { λ d. map listed (take d.len d.code) };

    ghost invariant = { λ d. (d.len ≤ 4096) × (length d.code ≡ 4096) };
}

impl Draft {
    /// No instruction.
    pub(crate) fn new() -> Self
        ensures { result ≡ [] }
    {
        Draft {
            // All zeros, which a machine fills in fastest; nobody reads them.
            code: [Instruction::Push(0); ROOM],
            len: 0,
        }
    }

    /// How many instructions there are.
    fn len(&self) -> usize
        ensures few { result ≤ 4096 }
        ensures len { result ≡ length self.now }
    {
        self.len
    }

    /// Adds an instruction.
    pub(crate) fn put(&mut self, instruction: Instruction)
        ensures { Appends (listed instruction ∷ []) self.old self.new }
    {
        if self.len < ROOM {
            self.code[self.len] = instruction;
            self.len += 1;
        }
    }

    /// Leaves room for an instruction that is written later, and says where.
    pub(crate) fn reserve(&mut self) -> Place
        ensures here { result.0 ≡ length self.old }
        ensures reserves { Appends (stop ∷ []) self.old self.new }
    {
        let place = Place(self.len());
        self.put(Instruction::Stop);
        place
    }

    /// How many instructions stand after a place.
    pub(crate) fn since(&self, place: Place) -> u16
        ensures few { result ≤ 4096 }
        ensures since { result ≡ length self.now - place.0 - 1 }
    {
        self.len().saturating_sub(place.0).saturating_sub(1) as u16
    }

    /// Writes an instruction for which room was left.
    pub(crate) fn patch(&mut self, place: Place, instruction: Instruction)
        ensures { self.new ≡ slice_set self.old place.0 (listed instruction) }
    {
        if place.0 < self.len {
            self.code[place.0] = instruction;
        }
    }

    /// Writes the code to the front of a lent room, four numbers to an instruction, if it is long enough, and says how many
    /// instructions there are.
    pub(crate) fn copy_to(&self, room: &mut [u16]) -> Result<u64, Refusal>
        ensures { Copies self.now room.old result room.new }
    {
        let len = self.len();
        if room.len() < 4 * len {
            return Err(Refusal::Room(room.len() as u64));
        }
        for (place, instruction) in self.code[..len].iter().enumerate() {
            room[4 * place..4 * place + 4].copy_from_slice(&instruction.numbers());
        }
        Ok(len as u64)
    }
}
