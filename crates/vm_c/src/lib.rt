//! The machine as a static library, for programs in C.
#![tactic(auto)]

ghost use Rattle.std.specs.Prelude.{◌≡◌, length};
ghost use Rattle.base.specs.Stores.{cells};
ghost use Rattle.vm.specs.Outcomes.{values_of, program_of, outcome_of, ended};

/// Runs code as the machine does, and answers 1 where the code's end was reached and 0 where the run was trapped.
#[unsafe(no_mangle)]
pub extern "C" fn vm_run(code: &[u16], elapsed: u64, vars: &mut [u64], fault: &mut u64) -> u8
    ensures vars { cells vars.new ≡ (program_of (length vars.old) code.now elapsed (values_of vars.old fault.old)).store }
    ensures fault { fault.new ≡ (program_of (length vars.old) code.now elapsed (values_of vars.old fault.old)).fault }
    ensures outcome { result ≡ ended (outcome_of (length vars.old) code.now elapsed (values_of vars.old fault.old)) }
{
    u8::from(vm::run(code, elapsed, vars, fault))
}
