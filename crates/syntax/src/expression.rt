//! One token of an expression.
ghost use Rattle.syntax.specs.Reading.{HasRoom, TakesOne, Read, Prefixes, Finishes};

use super::frame::Frame;
use super::node::Node;
use super::operator::strength_of;
use super::state::{Parser, State};
use base::Op;
use lexer::{Mark, Token};

impl Parser {
    /// A mark before an operand.
    fn prefix(&mut self, mark: Mark) -> Option<State>
        requires { HasRoom self.old }
        ensures within { TakesOne self.old self.new result }
        ensures reads { Prefixes mark self.old self.new result }
    {
        match mark {
            Mark::Not => {
                self.push(Frame::Not);
                Some(State::Operand)
            }
            Mark::Open => {
                self.push(Frame::Bracket);
                Some(State::Operand)
            }
            _ => None,
        }
    }

    /// The token where an operand is expected.
    pub(crate) fn read_operand(&mut self, token: Token) -> Option<State>
        requires { HasRoom self.old }
        ensures within { TakesOne self.old self.new result }
        ensures reads { Read token self.old State.Operand self.new result }
    {
        match token {
            Token::Number(n) => {
                self.add(Node::Literal(n));
                self.invert();
                Some(State::Operated)
            }
            Token::Name(i) => {
                self.add(Node::Variable(i));
                self.invert();
                Some(State::Operated)
            }
            Token::Operator(_) => None,
            Token::Mark(mark) => self.prefix(mark),
        }
    }

    /// A mark after an operand before which all is joined up to a bracket or the whole expression.
    fn finish(&mut self, mark: Mark) -> Option<State>
        requires { HasRoom self.old }
        ensures within { TakesOne self.old self.new result }
        ensures finishes { Finishes mark self.old self.new result }
    {
        let below = self.depth.checked_sub(1)?;
        match (self.frames[below], mark) {
            (Frame::Bracket, Mark::Close) => {
                self.depth = below;
                self.invert();
                Some(State::Operated)
            }
            (Frame::AssignTo(name), Mark::Semicolon) => {
                self.add(Node::Assign(name, self.last));
                self.frames[below] = Frame::Done(self.last);
                Some(State::Statement)
            }
            (Frame::ConditionIn, Mark::Then) => {
                self.frames[below] = Frame::ThenIn(self.last);
                Some(State::Statement)
            }
            (Frame::DelayIn(out, counter), Mark::Comma) => {
                self.depth = below;
                Some(State::LengthNext(out, counter))
            }
            _ => None,
        }
    }

    /// The token after an operand.
    pub(crate) fn read_operator(&mut self, token: Token) -> Option<State>
        requires { HasRoom self.old }
        ensures within { TakesOne self.old self.new result }
        ensures reads { Read token self.old State.Operated self.new result }
    {
        match token {
            Token::Operator(op) => {
                self.climb(strength_of(op));
                self.push(Frame::RightOf(op, self.last));
                Some(State::Operand)
            }
            Token::Mark(mark) => {
                self.climb(strength_of(Op::Or));
                self.finish(mark)
            }
            _ => None,
        }
    }
}
