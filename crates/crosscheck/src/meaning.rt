//! What a program means, written from docs/LANGUAGE.md over this crate's own trees: words of 16 bits that go round.
use crate::tree::{Delay, Expr, Stmt};
use crate::variable::Variable;
use base::Op;

/// What a run works on: the variables, and whether the lamp is lit.
#[derive(Clone, Copy)]
pub struct Values {
    pub vars: [u16; 64],
    pub lamp: bool,
}

impl Values {
    /// The value of a variable.
    fn get(&self, variable: Variable) -> u16 {
        self.vars[variable.index()]
    }

    /// Gives a variable a value.
    fn set(&mut self, variable: Variable, value: u16) {
        self.vars[variable.index()] = value;
    }

    /// A quotient; by 0 it is 0 and lights the lamp.
    fn quotient(&mut self, left: u16, right: u16) -> u16 {
        self.lamp |= right == 0;
        left.checked_div(right).unwrap_or(0)
    }

    /// What an operation makes of two values.
    fn operate(&mut self, op: Op, left: u16, right: u16) -> u16 {
        match op {
            Op::Add => left.wrapping_add(right),
            Op::Sub => left.wrapping_sub(right),
            Op::Mul => left.wrapping_mul(right),
            Op::Div => self.quotient(left, right),
            Op::Less => (left < right) as u16,
            Op::Equal => (left == right) as u16,
            Op::And => (left != 0 && right != 0) as u16,
            Op::Or => (left != 0 || right != 0) as u16,
        }
    }

    /// The value of an expression, the left side first.
    fn value(&mut self, expr: &Expr) -> u16 {
        match expr {
            Expr::Literal(n) => *n,
            Expr::Variable(v) => self.get(*v),
            Expr::Not(x) => (self.value(x) == 0) as u16,
            Expr::Binary(op, x, y) => {
                let left = self.value(x);
                let right = self.value(y);
                self.operate(*op, left, right)
            }
        }
    }

    /// A delay counts while its condition is true; the output is set last.
    fn delay(&mut self, delay: &Delay, elapsed: u16) {
        let on = self.value(&delay.condition) != 0;
        let count = if on {
            self.get(delay.counter)
                .saturating_add(elapsed)
                .min(delay.length)
        } else {
            0
        };
        self.set(delay.counter, count);
        self.set(delay.output, (on && count == delay.length) as u16);
    }

    /// One run of a statement, so long after the last one.
    pub(crate) fn run(&mut self, stmt: &Stmt, elapsed: u16) {
        match stmt {
            Stmt::Skip => {}
            Stmt::Seq(first, second) => {
                self.run(first, elapsed);
                self.run(second, elapsed);
            }
            Stmt::Assign(v, expr) => {
                let value = self.value(expr);
                self.set(*v, value);
            }
            Stmt::Branch(condition, first, second) => {
                if self.value(condition) != 0 {
                    self.run(first, elapsed);
                } else {
                    self.run(second, elapsed);
                }
            }
            Stmt::Repeat(rounds, body) => {
                for _ in 0..*rounds {
                    self.run(body, elapsed);
                }
            }
            Stmt::Delay(delay) => self.delay(delay, elapsed),
        }
    }
}
