//! What a scan does, costs and needs, and the limits of what is taken.
#![tactic(auto)]

ghost use Rattle.std.specs.Prelude.{◌≡◌, min};
ghost use Rattle.syntax.specs.Ast.{Stmt};
ghost use Rattle.syntax.specs.Tree.{HoldsStmt};
ghost use Rattle.semantics.specs.Evaluated.{Evaluates};
ghost use Rattle.semantics.specs.Laws.{FirstStays, GoesOn};
ghost use Rattle.semantics.specs.Measured.{Measured};
ghost use Rattle.semantics.specs.Needs.{stmt_need};

use base::Refusal;
pub use base::words;
use interpreter::Scan;
pub use limits::{Needs, check_limits};
use syntax::Tree;

mod interpreter;
mod joins;
pub mod limits;
mod measure;

/// What a run of a program needs.
pub fn needs(tree: &Tree) -> Needs
    ensures { Measured tree.now.nodes tree.now.root result }
{
    measure::stmt_needs(tree.nodes(), tree.root())
}

/// How many instructions a run of a program takes at most; more than 20,000 count as 20,001.
pub fn cost(tree: &Tree) -> u32
    ensures { (s : Stmt) → HoldsStmt tree.now.nodes tree.now.root s → result ≡ min (stmt_need s).cost 20001 }
{
    needs(tree).cost
}

/// One run of a program, so long after the last one. Refused where a variable is missing.
pub fn evaluate(tree: &Tree, elapsed: u64, vars: &mut [u64], fault: &mut u64) -> Result<(), Refusal>
    ensures { Evaluates tree.now.nodes tree.now.root elapsed vars.old fault.old result vars.new fault.new }
{
    if vars.len() < needs(tree).reach as usize {
        return Err(Refusal::Length(2));
    }
    let mut scan = Scan {
        nodes: tree.nodes(),
        elapsed,
        vars,
        fault: *fault,
    };
    scan.run(tree.root());
    *fault = scan.fault;
    Ok(())
}

/// The first fault stays, and stops nothing.
pub fn faults_are_noted()
    ensures stays { FirstStays }
    ensures onward { GoesOn }
{}
