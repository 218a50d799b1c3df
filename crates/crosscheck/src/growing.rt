//! Random programs, as trees: plain ones, and some that come near a limit or pass it.
use crate::random::Random;
use crate::tree::{Delay, Expr, Stmt};
use base::Op;
use std::alloc::AllocError;

/// The operators, some of them more often than the others.
const OPERATORS: [Op; 11] = [
    Op::Add,
    Op::Sub,
    Op::Sub,
    Op::Sub,
    Op::Mul,
    Op::Div,
    Op::Div,
    Op::Less,
    Op::Equal,
    Op::And,
    Op::Or,
];

/// A number or a variable.
fn leaf(random: &mut Random) -> Expr {
    if random.chance(35) {
        Expr::Literal(random.word())
    } else {
        Expr::Variable(random.variable())
    }
}

/// An expression in which at most so many operations stand one in another.
fn expr(random: &mut Random, fuel: u8) -> Result<Expr, AllocError> {
    if fuel == 0 || random.chance(25) {
        return Ok(leaf(random));
    }
    let left = expr(random, fuel - 1)?;
    if random.chance(15) {
        return left.negated(random.heap);
    }
    let right = expr(random, fuel - 1)?;
    Expr::binary(random.heap, random.pick(&OPERATORS), left, right)
}

/// An assignment or a delay.
fn simple(random: &mut Random) -> Result<Stmt, AllocError> {
    if random.chance(80) {
        let variable = random.variable();
        return Ok(Stmt::Assign(variable, expr(random, 4)?));
    }
    Ok(Stmt::Delay(Delay {
        output: random.variable(),
        counter: random.variable(),
        condition: expr(random, 2)?,
        length: random.word(),
    }))
}

/// How many rounds: mostly few, seldom any word.
fn rounds(random: &mut Random) -> u16 {
    if random.chance(4) {
        random.word()
    } else {
        random.below(4) as u16
    }
}

/// A choice between statements, or a repetition of the first ones.
fn compound(random: &mut Random, first: Stmt, second: Stmt) -> Result<Stmt, AllocError> {
    if random.chance(60) {
        let condition = expr(random, 2)?;
        Stmt::branch(random.heap, condition, first, second)
    } else {
        first.repeated(random.heap, rounds(random))
    }
}

/// Up to five statements, with others inside them.
fn statements(random: &mut Random, fuel: u8) -> Result<Stmt, AllocError> {
    let mut all = Stmt::Skip;
    for _ in 0..random.below(6) {
        let mut next = simple(random)?;
        if fuel > 0 && random.chance(30) {
            let inner = statements(random, fuel - 1)?;
            next = compound(random, inner, next)?;
        }
        all = all.then(random.heap, next)?;
    }
    Ok(all)
}

/// About as many values at a time as there may be.
fn tall(random: &mut Random) -> Result<Stmt, AllocError> {
    let mut all = leaf(random);
    for _ in 0..28 + random.below(6) {
        let first = leaf(random);
        all = Expr::binary(random.heap, random.pick(&OPERATORS), first, all)?;
    }
    Ok(Stmt::Assign(random.variable(), all))
}

/// About as many repetitions one in another as there may be.
fn deep(random: &mut Random) -> Result<Stmt, AllocError> {
    let mut all = simple(random)?;
    for _ in 0..7 + random.below(3) {
        all = all.repeated(random.heap, rounds(random))?;
    }
    Ok(all)
}

/// About as many instructions as there may be: as many rounds as fit, one more or one fewer, and a few statements.
fn dear(random: &mut Random) -> Result<Stmt, AllocError> {
    let body = statements(random, 1)?;
    let round = body.needs().cost.saturating_add(1);
    let rounds = (20000 / round.max(1))
        .saturating_add(random.below(3))
        .saturating_sub(1);
    let mut all = body.repeated(random.heap, rounds.min(65535) as u16)?;
    for _ in 0..random.below(6) {
        let next = simple(random)?;
        all = all.then(random.heap, next)?;
    }
    Ok(all)
}

/// About as many tokens as there may be, at four to an assignment.
fn long(random: &mut Random) -> Result<Stmt, AllocError> {
    let mut all = simple(random)?;
    for _ in 0..1017 + random.below(7) {
        let next = Stmt::Assign(random.variable(), leaf(random));
        all = all.then(random.heap, next)?;
    }
    Ok(all)
}

/// A program.
pub(crate) fn grow(random: &mut Random) -> Result<Stmt, AllocError> {
    match random.below(200) {
        0..=3 => tall(random),
        4..=7 => deep(random),
        8..=10 => dear(random),
        11 => long(random),
        _ => statements(random, 3),
    }
}
