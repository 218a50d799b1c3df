//! What a program needs, counted as docs/LANGUAGE.md says, and the first limit that it passes.
use crate::refusal::Limit;
use crate::tree::{Expr, Stmt};

/// The most instructions of a run, values at a time, and repetitions one in another.
#[derive(Clone, Copy, Default)]
pub struct Needs {
    pub cost: u64,
    pub height: u64,
    pub depth: u64,
}

impl Needs {
    /// What a number or a name needs.
    const VALUE: Needs = Needs {
        cost: 1,
        height: 1,
        depth: 0,
    };

    /// Which limit is passed, if any.
    pub(crate) fn limit(self) -> Option<Limit> {
        if self.cost > 20000 {
            Some(Limit::Cost)
        } else if self.height > 32 {
            Some(Limit::Height)
        } else if self.depth > 8 {
            Some(Limit::Depth)
        } else {
            None
        }
    }

    /// One instruction more.
    fn and_one(self) -> Needs {
        Needs {
            cost: self.cost.saturating_add(1),
            ..self
        }
    }

    /// As many of each as the one or the other needs.
    fn larger(self, other: Needs) -> Needs {
        Needs {
            cost: self.cost.max(other.cost),
            height: self.height.max(other.height),
            depth: self.depth.max(other.depth),
        }
    }

    /// One after the other.
    fn and(self, next: Needs) -> Needs {
        Needs {
            cost: self.cost.saturating_add(next.cost),
            ..self.larger(next)
        }
    }

    /// Where one of two is done, the first with a jump behind it.
    fn or(self, other: Needs) -> Needs {
        self.and_one().larger(other)
    }

    /// While one value more is held.
    fn over_one(self) -> Needs {
        Needs {
            height: self.height.saturating_add(1),
            ..self
        }
    }

    /// So many rounds.
    fn repeated(self, rounds: u16) -> Needs {
        let round = self.cost.saturating_add(1);
        Needs {
            cost: round.saturating_mul(rounds as u64).saturating_add(1),
            height: self.height,
            depth: self.depth.saturating_add(1),
        }
    }
}

impl Expr {
    /// What it needs to be worked out.
    fn needs(&self) -> Needs {
        match self {
            Expr::Literal(_) | Expr::Variable(_) => Needs::VALUE,
            Expr::Not(x) => x.needs().and_one(),
            Expr::Binary(_, x, y) => x.needs().and(y.needs().over_one()).and_one(),
        }
    }
}

impl Stmt {
    /// What it needs to be run.
    pub(crate) fn needs(&self) -> Needs {
        match self {
            Stmt::Skip => Needs::default(),
            Stmt::Seq(first, second) => first.needs().and(second.needs()),
            Stmt::Assign(_, expr) => expr.needs().and_one(),
            Stmt::Branch(condition, first, second) => {
                let either = first.needs().or(second.needs());
                condition.needs().and_one().and(either)
            }
            Stmt::Repeat(rounds, body) => body.needs().repeated(*rounds),
            Stmt::Delay(delay) => delay.condition.needs().and_one(),
        }
    }
}
