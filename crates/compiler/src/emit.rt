//! The code of a tree that is laid out in numbers.
ghost use Rattle.compiler.specs.Emitted.{EmitsExpr, EmitsDelay, Emits};

use super::draft::Draft;
use super::instruction::Instruction;
use syntax::node::{Node, node_at};

// The nodes are lent to each call: as a field of the draft each method would have to promise that they stay.
impl Draft {
    /// Adds the code of the expression that a node holds.
    fn put_expr(&mut self, nodes: &[u16], i: u16)
        ensures { EmitsExpr nodes.now i self.old self.new }
    {
        match node_at(nodes, i) {
            Node::Literal(number) => self.put(Instruction::Push(number)),
            Node::Variable(variable) => self.put(Instruction::Load(variable)),
            Node::Not(operand) => {
                self.put_expr(nodes, operand);
                self.put(Instruction::Not);
            }
            Node::Binary(op, left, right) => {
                self.put_expr(nodes, left);
                self.put_expr(nodes, right);
                self.put(Instruction::Binary(op));
            }
            // No expression.
            _ => {}
        }
    }

    /// Adds the code of a delay, whose condition and length a node of their own holds.
    fn put_delay(&mut self, nodes: &[u16], i: u16, out: u16, counter: u16)
        ensures { EmitsDelay nodes.now i out counter self.old self.new }
    {
        if let Node::Setting(condition, length) = node_at(nodes, i) {
            self.put_expr(nodes, condition);
            self.put(Instruction::Delay(out, counter, length));
        }
    }

    /// Adds the code of the statement that a node holds. A jump is written once it is known how far it goes.
    pub(crate) fn put_stmt(&mut self, nodes: &[u16], i: u16)
        ensures { Emits nodes.now i self.old self.new }
    {
        match node_at(nodes, i) {
            Node::Assign(variable, value) => {
                self.put_expr(nodes, value);
                self.put(Instruction::Store(variable));
            }
            Node::Seq(first, second) => {
                self.put_stmt(nodes, first);
                self.put_stmt(nodes, second);
            }
            Node::Branch(condition, yes, no) => {
                self.put_expr(nodes, condition);
                let test = self.reserve();
                self.put_stmt(nodes, yes);
                let join = self.reserve();
                let past = self.since(test);
                self.patch(test, Instruction::JumpIfZero(past));
                self.put_stmt(nodes, no);
                let over = self.since(join);
                self.patch(join, Instruction::Jump(over));
            }
            Node::Repeat(rounds, body) => {
                let head = self.reserve();
                self.put_stmt(nodes, body);
                let size = self.since(head) + 1;
                self.patch(head, Instruction::Enter(rounds, size));
                self.put(Instruction::Back(size));
            }
            Node::Delay(out, counter, setting) => self.put_delay(nodes, setting, out, counter),
            // A skip, or no statement.
            _ => {}
        }
    }
}
