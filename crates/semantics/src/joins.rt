//! The needs of a whole, by those of its parts.
ghost use Rattle.std.specs.Prelude.{◌≡◌, ◌-◌, ◌^◌, ◌<◌, max};
ghost use Rattle.semantics.specs.Joins.{told, one_more, raised, followed_by, either, repeated, reaching};

use super::limits::{MOST_INSTRUCTIONS, Needs};

/// The least cost that is refused: a larger one counts as this.
const TOO_MANY: u32 = MOST_INSTRUCTIONS + 1;

impl Needs {
    /// What a number needs.
    pub(crate) const VALUE: Needs = Needs {
        cost: 1,
        height: 1,
        depth: 0,
        reach: 0,
    };

    /// With one instruction more.
    pub(crate) fn one_more(self) -> Needs
        ensures { result ≡ one_more self }
    {
        Needs {
            cost: self.cost.saturating_add(1).min(TOO_MANY),
            ..self
        }
    }

    /// Over one value more.
    pub(crate) fn raised(self) -> Needs
        ensures { self.height < 2 ^ 32 - 1 → result ≡ raised self }
    {
        Needs {
            height: self.height.saturating_add(1),
            ..self
        }
    }

    /// At this cost, what one of two needs at most.
    fn larger(self, other: Needs, cost: u32) -> Needs
        ensures { result ≡ told cost (max self.height other.height) (max self.depth other.depth) (max self.reach other.reach) }
    {
        Needs {
            cost,
            height: self.height.max(other.height),
            depth: self.depth.max(other.depth),
            reach: self.reach.max(other.reach),
        }
    }

    /// One after the other.
    pub(crate) fn followed_by(self, next: Needs) -> Needs
        ensures { result ≡ followed_by self next }
    {
        self.larger(next, self.cost.saturating_add(next.cost).min(TOO_MANY))
    }

    /// One or the other.
    pub(crate) fn either(self, other: Needs) -> Needs
        ensures { result ≡ either self other }
    {
        self.larger(other, self.cost.max(other.cost))
    }

    /// So many rounds, with an instruction before the first and one at the end of each.
    pub(crate) fn repeated(self, rounds: u16) -> Needs
        ensures { self.depth < 2 ^ 32 - 1 → result ≡ repeated rounds self }
    {
        let round = self.cost.saturating_add(1);
        let all = round.saturating_mul(rounds as u32).saturating_add(1);
        Needs {
            cost: all.min(TOO_MANY),
            depth: self.depth.saturating_add(1),
            ..self
        }
    }

    /// And this variable.
    pub(crate) fn reaching(self, variable: u16) -> Needs
        ensures { result ≡ reaching variable self }
    {
        Needs {
            reach: self.reach.max(variable as u32 + 1),
            ..self
        }
    }
}
