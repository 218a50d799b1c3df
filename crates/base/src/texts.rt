//! How operators and refusals are written.
ghost use Rattle.std.specs.Prelude.{◌≡◌, Some};
ghost use Rattle.base.specs.Texts.{operator_text, refusal_text};

use super::{Op, Refusal};
use std::fmt;

impl Op {
    /// The sign or the word that it is in a program's text.
    pub fn text(self) -> &'static str
        ensures { result.now ≡ operator_text self }
    {
        match self {
            Op::Add => "+",
            Op::Sub => "-",
            Op::Mul => "*",
            Op::Div => "/",
            Op::Less => "<",
            Op::Equal => "=",
            Op::And => "and",
            Op::Or => "or",
        }
    }
}

impl fmt::Display for Op {
    ghost output = { λ op. Some (operator_text op) };

    fn fmt<W: fmt::Write>(&self, f: &mut fmt::Formatter<W>) -> fmt::Result {
        f.write_str(self.text())
    }
}

impl fmt::Display for Refusal {
    ghost output = { λ refusal. Some (refusal_text refusal) };

    fn fmt<W: fmt::Write>(&self, f: &mut fmt::Formatter<W>) -> fmt::Result {
        let number = self.number();
        let place = self.place();
        write!(f, "refused {number} at {place}")
    }
}
