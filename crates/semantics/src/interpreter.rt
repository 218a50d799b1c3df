//! One run of a tree, worked out as its meaning says.
ghost use Rattle.std.specs.Prelude.{◌≡◌, ◌<◌, length};
ghost use Rattle.base.specs.Stores.{update, cells};
ghost use Rattle.semantics.specs.Evaluated.{SameScan, ValuesExpr, RunsDelay, RunsStmt};

use base::words::count_time;
use syntax::node::{Node, node_at};

/// One scan of a program, so long after the last one, over its variables, with the first fault.
#[derive(Drop)]
pub(crate) struct Scan<'a> {
    pub(crate) nodes: &'a [u16],
    pub(crate) elapsed: u64,
    pub(crate) vars: &'a mut [u64],
    pub(crate) fault: u64,
}

impl Scan<'_> {
    /// What a variable holds, 0 where there is none.
    fn variable(&self, i: u16) -> u64
        ensures { result ≡ cells self.now.vars.now i }
    {
        self.vars.get(i as usize).copied().unwrap_or(0)
    }

    /// Sets a variable, if there is one.
    fn assign(&mut self, i: u16, new: u64)
        ensures same { SameScan self.old self.new }
        ensures fault { self.new.fault ≡ self.old.fault }
        ensures sets { i < length self.old.vars.now → cells self.new.vars.now ≡ update (cells self.old.vars.now) i new }
    {
        let i = i as usize;
        // By its index: what `get_mut` lends tells a proof nothing of the other variables.
        if i < self.vars.len() {
            self.vars[i] = new;
        }
    }

    /// The value of the expression that a node holds. Its first fault is noted.
    fn value(&mut self, i: u16) -> u64
        ensures same { SameScan self.old self.new }
        ensures vars { self.new.vars.now ≡ self.old.vars.now }
        ensures values { ValuesExpr self.old.nodes.now i self.old.vars.now self.old.fault result self.new.fault }
    {
        match node_at(self.nodes, i) {
            Node::Literal(number) => number as u64,
            Node::Variable(variable) => self.variable(variable),
            Node::Not(operand) => (self.value(operand) == 0) as u64,
            Node::Binary(op, left, right) => {
                let left = self.value(left);
                let right = self.value(right);
                op.apply(left, right, &mut self.fault)
            }
            // No expression.
            _ => 0,
        }
    }

    /// One run of a delay, whose condition and length a node of their own holds.
    fn delay(&mut self, i: u16, out: u16, counter: u16)
        ensures same { SameScan self.old self.new }
        ensures runs { RunsDelay self.old.nodes.now i self.old.elapsed out counter self.old.vars.now self.old.fault self.new.vars.now self.new.fault }
    {
        if let Node::Setting(condition, preset) = node_at(self.nodes, i) {
            let on = self.value(condition) != 0;
            count_time(
                self.elapsed,
                self.vars,
                out as usize,
                counter as usize,
                preset,
                on,
            );
        }
    }

    /// One run of the statement that a node holds.
    pub(crate) fn run(&mut self, i: u16)
        ensures same { SameScan self.old self.new }
        ensures runs { RunsStmt self.old.nodes.now i self.old.elapsed self.old.vars.now self.old.fault self.new.vars.now self.new.fault }
    {
        match node_at(self.nodes, i) {
            Node::Assign(variable, value) => {
                let new = self.value(value);
                self.assign(variable, new);
            }
            Node::Seq(first, second) => {
                self.run(first);
                self.run(second);
            }
            Node::Branch(condition, yes, no) => {
                if self.value(condition) == 0 {
                    self.run(no);
                } else {
                    self.run(yes);
                }
            }
            Node::Repeat(rounds, body) => {
                for _round in 0..rounds {
                    self.run(body);
                }
            }
            Node::Delay(out, counter, setting) => self.delay(setting, out, counter),
            // A skip, or no statement.
            _ => {}
        }
    }
}
