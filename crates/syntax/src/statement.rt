//! One token of a statement, outside of expressions.
ghost use Rattle.std.specs.Prelude.{◌+◌, ◌≤◌, IfSome};
ghost use Rattle.syntax.specs.Reading.{total, HasRoom, TakesOne, Read, Begins, ReadsElse, ReadsEnd};

use super::frame::Frame;
use super::node::Node;
use super::state::{Parser, State};
use lexer::{Mark, Token};

impl Parser {
    /// `else`, where a statement could begin.
    fn read_else(&mut self) -> Option<State>
        requires { HasRoom self.old }
        ensures within { TakesOne self.old self.new result }
        ensures reads { ReadsElse self.old self.new result }
    {
        self.close();
        let below = self.depth.checked_sub(1)?;
        let Frame::ThenIn(condition) = self.frames[below] else {
            return None;
        };
        self.frames[below] = Frame::ElseIn(condition, self.last);
        Some(State::Statement)
    }

    /// `end`, where a statement could begin.
    fn read_end(&mut self) -> Option<State>
        requires { HasRoom self.old }
        ensures within { TakesOne self.old self.new result }
        ensures reads { ReadsEnd self.old self.new result }
    {
        self.close();
        self.depth = self.depth.checked_sub(1)?;
        match self.frames[self.depth] {
            Frame::ElseIn(condition, first) => {
                self.add(Node::Branch(condition, first, self.last));
                Some(State::Ended)
            }
            Frame::RepeatIn(rounds) => {
                self.add(Node::Repeat(rounds, self.last));
                Some(State::Ended)
            }
            _ => None,
        }
    }

    /// A mark where a statement could begin.
    fn begin(&mut self, mark: Mark) -> Option<State>
        requires { HasRoom self.old }
        ensures within { TakesOne self.old self.new result }
        ensures reads { Begins mark self.old self.new result }
    {
        match mark {
            Mark::If => {
                self.push(Frame::ConditionIn);
                Some(State::Operand)
            }
            Mark::Else => self.read_else(),
            Mark::Repeat => Some(State::RepeatRead),
            Mark::Delay => Some(State::DelayRead),
            Mark::End => self.read_end(),
            _ => None,
        }
    }

    /// The next token, in any state: the state after it, if a program can go on so.
    pub(crate) fn read(&mut self, state: State, token: Token) -> Option<State>
        requires { total self.old state ≤ 4096 }
        ensures within { IfSome result (λ s. total self.new s ≤ total self.old state + 1) }
        ensures reads { Read token self.old state self.new result }
    {
        match (state, token) {
            (State::Statement, Token::Name(name)) => Some(State::NameRead(name)),
            (State::Statement, Token::Mark(mark)) => self.begin(mark),
            (State::NameRead(name), Token::Mark(Mark::Assign)) => {
                self.push(Frame::AssignTo(name));
                Some(State::Operand)
            }
            (State::RepeatRead, Token::Number(rounds)) => Some(State::RoundsRead(rounds)),
            (State::RoundsRead(rounds), Token::Mark(Mark::Times)) => {
                self.push(Frame::RepeatIn(rounds));
                Some(State::Statement)
            }
            (State::DelayRead, Token::Name(out)) => Some(State::OutRead(out)),
            (State::OutRead(out), Token::Mark(Mark::Comma)) => Some(State::OutComma(out)),
            (State::OutComma(out), Token::Name(counter)) => Some(State::CounterRead(out, counter)),
            (State::CounterRead(out, counter), Token::Mark(Mark::Comma)) => {
                self.push(Frame::DelayIn(out, counter));
                Some(State::Operand)
            }
            (State::LengthNext(out, counter), Token::Number(length)) => {
                self.add(Node::Setting(self.last, length));
                self.add(Node::Delay(out, counter, self.last));
                Some(State::Ended)
            }
            (State::Ended, Token::Mark(Mark::Semicolon)) => {
                self.push(Frame::Done(self.last));
                Some(State::Statement)
            }
            (State::Operand, token) => self.read_operand(token),
            (State::Operated, token) => self.read_operator(token),
            _ => None,
        }
    }
}
