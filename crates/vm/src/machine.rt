//! The machine: what each instruction does, and the loop that does one after another.
ghost use Rattle.std.specs.Prelude.{◌≡◌, ℕ, ◌^◌, ◌<◌, List, length, map};
ghost use Rattle.base.specs.Ops.{op_of};
ghost use Rattle.compiler.specs.Instr.{Instr, push, load, store, invert, binary, jump, jump_if_zero, enter, back, tick};
ghost use Rattle.compiler.specs.Machine.{boot};
ghost use Rattle.compiler.specs.Code.{instr_of, instr_at};
ghost use Rattle.vm.specs.Bounds.{bounded_steps};
ghost use Rattle.vm.specs.State.{machine_of, Done, DoneInside};
ghost use Rattle.vm.specs.Outcomes.{values_of};

use crate::stack::Stack;
use base::Op;
use base::words::count_time;

/// The numbers on a machine's stacks.
#[derive(Drop)]
pub(crate) struct Items {
    pub(crate) values: [u64; 32],
    pub(crate) control: [u64; 8],
}

/// What a machine holds besides the numbers on its stacks and its variables, which are lent.
///
/// While an instruction is done, `pc` is at the one after it, from which jumps are counted. Each
/// instruction answers whether it was done: it is not where it would leave the stacks or the
/// variables, and then nothing is changed. Done or not is a yes or no that the loop asks for; an `Option`
/// of nothing would say no more. What is lent comes to each call by itself, and time and variables are
/// no fields, so that a compiler keeps the rest in registers.
#[derive(Drop)]
pub(crate) struct Vm {
    pub(crate) pc: usize,
    pub(crate) values: Stack<32>,
    pub(crate) control: Stack<8>,
    pub(crate) base: usize,
    pub(crate) fault: u64,
}

impl Vm {
    /// A machine before its first instruction.
    pub(crate) fn new(fault: u64) -> Vm
        ensures start { result.pc ≡ 0 }
        ensures boots { (items : Items) (vars : List ℕ) → machine_of result items vars ≡ boot (values_of vars fault) }
    {
        Vm {
            pc: 0,
            values: Stack::new(),
            control: Stack::new(),
            base: 0,
            fault,
        }
    }

    /// Puts `n` on the stack.
    fn push(&mut self, items: &mut Items, n: u16) -> bool
        ensures { DoneInside (push n) self.old items.old self.new items.new result }
    {
        if self.values.len() >= 32 {
            return false;
        }
        self.values.push(&mut items.values, n as u64);
        true
    }

    /// Puts a variable on the stack.
    fn load(&mut self, items: &mut Items, vars: &[u64], i: u16) -> bool
        ensures { (elapsed : ℕ) → Done elapsed (load i) self.old items.old vars.now self.new items.new vars.now result }
    {
        let at = self.base.saturating_add(i as usize);
        if at >= vars.len() || self.values.len() >= 32 {
            return false;
        }
        self.values.push(&mut items.values, vars[at]);
        true
    }

    /// Takes the top off into a variable.
    fn store(&mut self, items: &Items, vars: &mut [u64], i: u16) -> bool
        ensures { (elapsed : ℕ) → Done elapsed (store i) self.old items.now vars.old self.new items.now vars.new result }
    {
        let at = self.base.saturating_add(i as usize);
        if at >= vars.len() {
            return false;
        }
        vars[at] = self.values.pop(&items.values);
        true
    }

    /// Makes the top 1 where it is 0, and 0 where it is not.
    fn invert(&mut self, items: &mut Items) -> bool
        ensures { DoneInside invert self.old items.old self.new items.new result }
    {
        let x = self.values.pop(&items.values);
        self.values.push(&mut items.values, (x == 0) as u64);
        true
    }

    /// Takes two values off, and puts on what the operation makes of them.
    fn binary(&mut self, items: &mut Items, op: u16) -> bool
        ensures { DoneInside (binary (op_of op)) self.old items.old self.new items.new result }
    {
        let y = self.values.pop(&items.values);
        let x = self.values.pop(&items.values);
        let value = Op::from_number(op).apply(x, y, &mut self.fault);
        self.values.push(&mut items.values, value);
        true
    }

    /// Goes on `n` instructions after the next one.
    fn jump(&mut self, n: u16) -> bool
        requires { self.old.pc < 2 ^ 63 }
        ensures { (items : Items) → DoneInside (jump n) self.old items self.new items result }
    {
        self.pc += n as usize;
        true
    }

    /// Takes the top off, and goes on `skip` instructions after the next one where it was 0.
    fn jump_if_zero(&mut self, items: &Items, skip: u16) -> bool
        requires { self.old.pc < 2 ^ 63 }
        ensures { DoneInside (jump_if_zero skip) self.old items.now self.new items.now result }
    {
        if self.values.pop(&items.values) == 0 {
            self.pc += skip as usize;
        }
        true
    }

    /// Begins `rounds` rounds of a repetition, or goes past it where there are none.
    fn enter(&mut self, items: &mut Items, rounds: u16, past: u16) -> bool
        requires { self.old.pc < 2 ^ 63 }
        ensures { DoneInside (enter rounds past) self.old items.old self.new items.new result }
    {
        if rounds == 0 {
            self.pc += past as usize;
            return true;
        }
        if self.control.len() >= 8 {
            return false;
        }
        self.control.push(&mut items.control, rounds as u64);
        true
    }

    /// Ends a round: goes back for the next one, or goes on where it was the last.
    fn back(&mut self, items: &mut Items, n: u16) -> bool
        ensures { DoneInside (back n) self.old items.old self.new items.new result }
    {
        let left = self.control.pop(&items.control);
        if left > 1 {
            self.control.push(&mut items.control, left - 1);
            self.pc = self.pc.saturating_sub(n as usize);
        }
        true
    }

    /// Counts a delay on by the time since the last run, while the top, which it takes off, is not 0.
    fn tick(
        &mut self,
        items: &Items,
        elapsed: u64,
        vars: &mut [u64],
        out: u16,
        counter: u16,
        preset: u16,
    ) -> bool
        ensures { Done elapsed (tick out counter preset) self.old items.now vars.old self.new items.now vars.new result }
    {
        let out = self.base.saturating_add(out as usize);
        let counter = self.base.saturating_add(counter as usize);
        if out >= vars.len() || counter >= vars.len() {
            return false;
        }
        let on = self.values.pop(&items.values) != 0;
        count_time(elapsed, vars, out, counter, preset, on);
        true
    }

    /// Does the instruction of four numbers, if it is allowed, and tells whether it was. The kind is a number in a
    /// local and no enum, by a rule of the project; the place is bounded anew for each instruction, since jumps add to it.
    fn step(
        &mut self,
        items: &mut Items,
        kind: u16,
        a: u16,
        b: u16,
        c: u16,
        elapsed: u64,
        vars: &mut [u64],
    ) -> bool
        requires { self.old.pc < 2 ^ 63 }
        ensures { Done elapsed (instr_of kind a b c) self.old items.old vars.old self.new items.new vars.new result }
    {
        match kind {
            0 => self.push(items, a),
            1 => self.load(items, vars, a),
            2 => self.store(items, vars, a),
            3 => self.invert(items),
            4 => self.binary(items, a),
            5 => self.jump(a),
            6 => self.jump_if_zero(items, a),
            7 => self.enter(items, a, b),
            8 => self.back(items, a),
            9 => self.tick(items, elapsed, vars, a, b, c),
            _ => false,
        }
    }

    /// Runs code, an instruction in four numbers, for at most `budget` instructions: a loop with a budget, by a rule of the project.
    pub(crate) fn execute(
        &mut self,
        items: &mut Items,
        budget: u32,
        code: &[[u16; 4]],
        elapsed: u64,
        vars: &mut [u64],
    )
        requires { self.old.pc ≡ 0 }
        ensures { machine_of self.new items.new vars.new ≡ bounded_steps (length vars.old) budget elapsed (map instr_at code.now) (machine_of self.old items.old vars.old) }
    {
        let mut left = budget;
        while left > 0 && self.pc < code.len() {
            let here = self.pc;
            let [kind, a, b, c] = code[here];
            self.pc = here + 1;
            if !self.step(items, kind, a, b, c, elapsed, vars) {
                self.pc = here;
                return;
            }
            left -= 1;
        }
    }
}
