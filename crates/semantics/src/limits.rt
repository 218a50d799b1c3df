//! What a program needs in numbers, and how much of it is taken.
ghost use Rattle.std.specs.Prelude.{ℕ};
ghost use Rattle.base.specs.Refusals.{Checked};
ghost use Rattle.semantics.specs.Limits.{passes_limit};

use base::Refusal;

/// What a run of a program needs at most.
#[derive(Clone, Copy, Debug, Default, PartialEq, Eq)]
pub struct Needs {
    /// Instructions; more than are taken count as one too many.
    pub cost: u32,
    /// Values at a time.
    pub height: u32,
    /// Repetitions one in another.
    pub depth: u32,
    /// Variables, counted up to the last one that is named.
    pub reach: u32,
}

/// A program that costs more is refused.
pub const MOST_INSTRUCTIONS: u32 = 20000;
/// A program that is higher is refused.
pub const MOST_VALUES: u32 = 32;
/// A program that is deeper is refused.
pub const MOST_REPETITIONS: u32 = 8;

/// Refuses what needs more than there is, by the first limit that it passes. Three tests and no table: each says its place.
pub fn check_limits(needs: Needs) -> Result<(), Refusal>
    ensures { Checked result (passes_limit needs.cost needs.height needs.depth) }
{
    if needs.cost > MOST_INSTRUCTIONS {
        return Err(Refusal::Limit(0));
    }
    if needs.height > MOST_VALUES {
        return Err(Refusal::Limit(1));
    }
    if needs.depth > MOST_REPETITIONS {
        return Err(Refusal::Limit(2));
    }
    Ok(())
}
