//! The machine's instructions, their four numbers in code, and how they are written for people.
ghost use Rattle.std.specs.Prelude.{◌≡◌, Some};
ghost use Rattle.compiler.specs.Code.{word, instr_at};
ghost use Rattle.compiler.specs.Listed.{listed};
ghost use Rattle.compiler.specs.Texts.{op_text, instr_text};

use base::Op;
use std::fmt;

/// An instruction of the machine. Jumps are by so many instructions from the next one.
#[derive(Clone, Copy, Debug, PartialEq, Eq)]
pub enum Instruction {
    Push(u16),
    Load(u16),
    Store(u16),
    Not,
    Binary(Op),
    Jump(u16),
    JumpIfZero(u16),
    /// Rounds, and how far to skip where there are none.
    Enter(u16, u16),
    Back(u16),
    /// An output, a counter and a length.
    Delay(u16, u16, u16),
    Stop,
}

impl Instruction {
    /// Its four numbers in code.
    #[tactic(auto, unfolding(crate::specs::Code::word))]
    pub fn numbers(self) -> [u16; 4]
        ensures { result ≡ word (listed self) }
    {
        match self {
            Instruction::Push(n) => [0, n, 0, 0],
            Instruction::Load(i) => [1, i, 0, 0],
            Instruction::Store(i) => [2, i, 0, 0],
            Instruction::Not => [3, 0, 0, 0],
            Instruction::Binary(op) => [4, op.number(), 0, 0],
            Instruction::Jump(n) => [5, n, 0, 0],
            Instruction::JumpIfZero(n) => [6, n, 0, 0],
            Instruction::Enter(rounds, past) => [7, rounds, past, 0],
            Instruction::Back(n) => [8, n, 0, 0],
            Instruction::Delay(out, counter, length) => [9, out, counter, length],
            Instruction::Stop => [10, 0, 0, 0],
        }
    }
}

/// The instruction of four numbers; from kind 10 on a stop. The way back has a name, `numbers`, which says what the four are.
impl From<[u16; 4]> for Instruction {
    ghost from_gives = { λ numbers i. listed i ≡ instr_at numbers };

    fn from(numbers: [u16; 4]) -> Self {
        let [kind, a, b, c] = numbers;
        match kind {
            0 => Instruction::Push(a),
            1 => Instruction::Load(a),
            2 => Instruction::Store(a),
            3 => Instruction::Not,
            4 => Instruction::Binary(Op::from_number(a)),
            5 => Instruction::Jump(a),
            6 => Instruction::JumpIfZero(a),
            7 => Instruction::Enter(a, b),
            8 => Instruction::Back(a),
            9 => Instruction::Delay(a, b, c),
            _ => Instruction::Stop,
        }
    }
}

/// The word for an operation, other than the sign that its `Display` writes.
fn op_word(op: Op) -> &'static str
    ensures { result.now ≡ op_text op }
{
    match op {
        Op::Add => "add",
        Op::Sub => "sub",
        Op::Mul => "mul",
        Op::Div => "div",
        Op::Less => "less",
        Op::Equal => "equal",
        Op::And => "and",
        Op::Or => "or",
    }
}

impl fmt::Display for Instruction {
    ghost output = { λ i. Some (instr_text (listed i)) };

    fn fmt<W: fmt::Write>(&self, f: &mut fmt::Formatter<W>) -> fmt::Result {
        match *self {
            Instruction::Push(n) => write!(f, "push {n}"),
            Instruction::Load(i) => write!(f, "load v{i}"),
            Instruction::Store(i) => write!(f, "store v{i}"),
            Instruction::Not => f.write_str("not"),
            Instruction::Binary(op) => f.write_str(op_word(op)),
            Instruction::Jump(n) => write!(f, "jump {n}"),
            Instruction::JumpIfZero(n) => write!(f, "jump-if-zero {n}"),
            Instruction::Enter(rounds, past) => write!(f, "enter {rounds} {past}"),
            Instruction::Back(n) => write!(f, "back {n}"),
            Instruction::Delay(out, counter, length) => write!(
                f,
                "delay v{out} v{counter} {length}"
            ),
            Instruction::Stop => f.write_str("stop"),
        }
    }
}
