//! Nodes that are made when an operand, a bracket or a block ends.
ghost use Rattle.std.specs.Prelude.{◌≡◌, ◌+◌, ◌≤◌};
ghost use Rattle.syntax.specs.Frames.{Climbs, Inverts, Closes, Joined, JoinsOperator, JoinsNot, JoinsStatement};
ghost use Rattle.syntax.specs.Reading.{HasRoom};

use super::frame::Frame;
use super::node::Node;
use super::operator::strength_of;
use super::state::Parser;

impl Parser {
    /// Makes a node of the frame on top and the node that was read last, as long as the two join.
    fn join<F: Fn(Frame, u16) -> Option<Node>>(&mut self, joins: F)
        requires callable { F.IsAlwaysCallable joins }
        requires room { self.old.used + self.old.depth ≤ 4097 }
        ensures size { self.new.used + self.new.depth ≡ self.old.used + self.old.depth }
        ensures joined { Joined (F.post joins) self.old self.new }
    {
        while self.depth > 0 {
            let below = self.depth - 1;
            let Some(node) = joins(self.frames[below], self.last) else {
                return;
            };
            self.depth = below;
            self.add(node);
        }
    }

    /// Joins the operands that wait for operators which bind at least as tightly as one of the strength.
    pub(crate) fn climb(&mut self, strength: u16)
        requires { self.old.used + self.old.depth ≤ 4097 }
        ensures size { self.new.used + self.new.depth ≡ self.old.used + self.old.depth }
        ensures climbs { Climbs strength self.old self.new }
    {
        self.join(
            |frame: Frame, last: u16| -> Option<Node>
                ensures { JoinsOperator strength frame last result }
            {
                match frame {
                    Frame::RightOf(op, left) if strength_of(op) <= strength => {
                        Some(Node::Binary(op, left, last))
                    }
                    _ => None,
                }
            },
        );
    }

    /// Applies the nots that stand before the operand that was read last.
    pub(crate) fn invert(&mut self)
        requires { self.old.used + self.old.depth ≤ 4097 }
        ensures size { self.new.used + self.new.depth ≡ self.old.used + self.old.depth }
        ensures inverts { Inverts self.old self.new }
    {
        self.join(
            |frame: Frame, last: u16| -> Option<Node>
                ensures { JoinsNot frame last result }
            {
                match frame {
                    Frame::Not => Some(Node::Not(last)),
                    _ => None,
                }
            },
        );
    }

    /// Closes the innermost block: its statements, one after the other, with a skip at the end.
    pub(crate) fn close(&mut self)
        requires { HasRoom self.old }
        ensures size { self.new.used + self.new.depth ≡ self.old.used + self.old.depth + 1 }
        ensures closes { Closes self.old self.new }
    {
        self.add(Node::Skip);
        self.join(
            |frame: Frame, last: u16| -> Option<Node>
                ensures { JoinsStatement frame last result }
            {
                match frame {
                    Frame::Done(statement) => Some(Node::Seq(statement, last)),
                    _ => None,
                }
            },
        );
    }
}
