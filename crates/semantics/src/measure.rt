//! What a tree needs, found out by going over it once: three functions over nodes and a place in them, as a tree laid out in numbers has it.
ghost use Rattle.semantics.specs.Measured.{MeasuredExpr, MeasuredSetting, Measured};

use super::limits::Needs;
use syntax::node::{Node, node_at};

/// What the expression that a node holds needs.
fn expr_needs(nodes: &[u16], i: u16) -> Needs
    ensures { MeasuredExpr nodes.now i result }
{
    match node_at(nodes, i) {
        Node::Literal(_) => Needs::VALUE,
        Node::Variable(variable) => Needs::VALUE.reaching(variable),
        Node::Not(operand) => expr_needs(nodes, operand).one_more(),
        Node::Binary(_, left, right) => {
            let left = expr_needs(nodes, left);
            let right = expr_needs(nodes, right);
            left.followed_by(right.raised()).one_more()
        }
        // No expression.
        _ => Needs::default(),
    }
}

/// What the condition of a delay needs.
fn setting_needs(nodes: &[u16], i: u16) -> Needs
    ensures { MeasuredSetting nodes.now i result }
{
    match node_at(nodes, i) {
        Node::Setting(condition, _) => expr_needs(nodes, condition),
        // No condition of a delay.
        _ => Needs::default(),
    }
}

/// What the statement that a node holds needs.
pub(crate) fn stmt_needs(nodes: &[u16], i: u16) -> Needs
    ensures { Measured nodes.now i result }
{
    match node_at(nodes, i) {
        Node::Assign(variable, value) => expr_needs(nodes, value).one_more().reaching(variable),
        Node::Seq(first, second) => {
            let first = stmt_needs(nodes, first);
            let second = stmt_needs(nodes, second);
            first.followed_by(second)
        }
        Node::Branch(condition, yes, no) => {
            let test = expr_needs(nodes, condition).one_more();
            let yes = stmt_needs(nodes, yes).one_more();
            let no = stmt_needs(nodes, no);
            test.followed_by(yes.either(no))
        }
        Node::Repeat(rounds, body) => stmt_needs(nodes, body).repeated(rounds),
        Node::Delay(out, counter, setting) => {
            let test = setting_needs(nodes, setting).one_more();
            test.reaching(out).reaching(counter)
        }
        // A skip, or no statement.
        _ => Needs::default(),
    }
}
