//! The machine that runs compiled code.
#![tactic(auto)]

ghost use Rattle.std.specs.Prelude.{◌≡◌, length};
ghost use Rattle.base.specs.Stores.{cells};
ghost use Rattle.vm.specs.Outcomes.{values_of, program_of, outcome_of, ended, RunsRight, CodeMeans, NeverTrapped};

use machine::{Items, Vm};

mod machine;
pub mod stack;

/// How many instructions a run may take.
const BUDGET: u32 = 20000;

/// How a run came to stop. No `Result`: the values that a trapped run leaves count as any others.
#[derive(Clone, Copy, Debug, PartialEq, Eq)]
pub enum Outcome {
    /// The code's end was reached.
    Finished,
    /// An instruction was not allowed, since it would leave the stacks or the variables or is a
    /// stop; or a jump went past the code's end; or the budget was used up. The variables and the
    /// fault are as the instructions before it left them, and nothing else was touched.
    Trapped,
}

impl From<Outcome> for u8 {
    ghost from_gives = { λ outcome n. n ≡ ended outcome };

    /// 1 where the code's end was reached, and 0 where the run was trapped.
    fn from(outcome: Outcome) -> u8 {
        match outcome {
            Outcome::Finished => 1,
            Outcome::Trapped => 0,
        }
    }
}

/// Runs `code`, four numbers to an instruction, on the variables, so long after the last run.
pub fn run(code: &[u16], elapsed: u64, vars: &mut [u64], fault: &mut u64) -> Outcome
    ensures vars { cells vars.new ≡ (program_of (length vars.old) code.now elapsed (values_of vars.old fault.old)).store }
    ensures len { length vars.new ≡ length vars.old }
    ensures fault { fault.new ≡ (program_of (length vars.old) code.now elapsed (values_of vars.old fault.old)).fault }
    ensures outcome { result ≡ outcome_of (length vars.old) code.now elapsed (values_of vars.old fault.old) }
    ensures right { RunsRight elapsed code.now vars.old fault.old result vars.new fault.new }
{
    let mut vm = Vm::new(*fault);
    let mut items = Items {
        values: [0; 32],
        control: [0; 8],
    };
    let (code, _) = code.as_chunks();
    vm.execute(&mut items, BUDGET, code, elapsed, vars);
    *fault = vm.fault;
    if vm.pc == code.len() {
        Outcome::Finished
    } else {
        Outcome::Trapped
    }
}

/// Code that is right for a program is that program, from whatever values and however long after the last run.
pub fn code_means()
    ensures { CodeMeans }
{}

/// Code that is right for a program comes to its end: no run of it is trapped or uses its budget up.
pub fn never_trapped()
    ensures { NeverTrapped }
{}
