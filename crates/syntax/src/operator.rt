//! How tightly operators bind.
ghost use Rattle.std.specs.Prelude.{◌≡◌, ◌≤◌};
ghost use Rattle.syntax.specs.Grammar.{strength};

use base::Op;

#[tactic(auto, unfolding(crate::specs::Grammar::strength))]
/// How tightly an operator binds: products most, then sums, comparisons, `and`, `or`.
pub fn strength_of(op: Op) -> u16
    ensures small { result ≤ 4 }
    ensures is { result ≡ strength op }
{
    match op {
        Op::Mul | Op::Div => 0,
        Op::Add | Op::Sub => 1,
        Op::Less | Op::Equal => 2,
        Op::And => 3,
        Op::Or => 4,
    }
}
