//! Tokens read as a program.
ghost use Rattle.std.specs.Prelude.{◌≡◌, ◌+◌, ◌/◌, ◌≤◌, length};
ghost use Rattle.syntax.specs.Reading.{total};
ghost use Rattle.syntax.specs.Whole.{Ends, ReadsAll, Halts};
ghost use Rattle.syntax.specs.Outcomes.{Parses};

use super::frame::{DEPTH, Frame};
use super::shape::misshapen;
use super::state::{Parser, State};
use super::tree::{ROOM, Tree};
use base::Refusal;
use lexer::Token;

impl Parser {
    /// Nothing is read yet.
    pub(crate) fn new() -> Parser
        ensures { result.used + result.depth ≡ 0 }
    {
        Parser {
            nodes: [0; ROOM],
            frames: [Frame::Bracket; DEPTH],
            used: 0,
            depth: 0,
            last: 0,
        }
    }

    /// Reads tokens as long as a program can go on so: the state then, and how many were read.
    pub(crate) fn read_all(&mut self, tokens: &[u16]) -> (State, usize)
        requires fresh { self.old.used + self.old.depth ≡ 0 }
        requires few { length tokens.now / 2 ≤ 4096 }
        ensures { Halts tokens.now self.new result.0 result.1 }
    {
        let mut state = State::Statement;
        for (at, pair) in tokens.chunks_exact(2).enumerate() {
            let Some(next) = self.read(state, Token::from_pair(pair[0], pair[1])) else {
                return (state, at);
            };
            state = next;
        }
        (state, tokens.len() / 2)
    }

    /// The node of the program that has been read, where it may end.
    fn end(&mut self, state: State) -> Option<u16>
        requires { total self.old state ≤ 4096 }
        ensures { Ends self.old state self.new result }
    {
        let State::Statement = state else {
            return None;
        };
        self.close();
        if self.depth == 0 {
            Some(self.last)
        } else {
            None
        }
    }

    /// Reads all tokens: the node of the program, or the place at which it can't go on.
    fn read_program(&mut self, tokens: &[u16]) -> Result<u16, Refusal>
        requires fresh { self.old.used + self.old.depth ≡ 0 }
        requires few { length tokens.now / 2 ≤ 4096 }
        ensures { ReadsAll tokens.now self.new.nodes result }
    {
        let (state, count) = self.read_all(tokens);
        let refusal = Refusal::Program(count as u64);
        if count < tokens.len() / 2 {
            return Err(refusal);
        }
        self.end(state).ok_or(refusal)
    }
}

/// Reads tokens, as pairs of numbers, as a program: its tree, or the first pair that is no token, or the first token at which no program goes on so.
pub fn parse(tokens: &[u16]) -> Result<Tree, Refusal>
    ensures { Parses tokens.now result }
{
    if let Some(at) = misshapen(tokens) {
        return Err(Refusal::Token(at));
    }
    let mut parser = Parser::new();
    let root = parser.read_program(tokens)?;
    Ok(Tree {
        nodes: parser.nodes,
        root,
    })
}
