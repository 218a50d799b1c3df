//! Where the reading of a program stands.
ghost use Rattle.std.specs.Prelude.{◌≡◌, ◌<◌, ◌≤◌, length};
ghost use Rattle.syntax.specs.Frames.{pushed, Adds};

use super::build::put_node;
use super::frame::{DEPTH, Frame};
use super::node::Node;
use super::tree::ROOM;

/// What has been read of the statement that is not whole yet, and so what may come next.
#[derive(Clone, Copy)]
pub(crate) enum State {
    /// A statement may begin, or a block end.
    Statement,
    /// The name that an assignment begins with.
    NameRead(u16),
    /// The word `repeat`.
    RepeatRead,
    /// `repeat` and the rounds.
    RoundsRead(u16),
    /// The word `delay`.
    DelayRead,
    /// `delay` and its output.
    OutRead(u16),
    /// `delay`, its output and a comma.
    OutComma(u16),
    /// `delay`, its output and its counter.
    CounterRead(u16, u16),
    /// A delay up to the comma after its condition, which is the last operand.
    LengthNext(u16, u16),
    /// A statement, whole but for its semicolon, which is the last one read.
    Ended,
    /// An operand comes next.
    Operand,
    /// An operand was read.
    Operated,
}

// How many nodes and frames are free goes down with each token, so no invariant says it: a step asks for room for one more.
/// The nodes that are made so far, and the stack of what is put aside: arrays with counts, since there is no heap in here.
#[derive(Drop)]
pub(crate) struct Parser {
    pub nodes: [u16; ROOM],
    pub frames: [Frame; DEPTH],
    /// How many nodes are in use.
    pub used: u16,
    /// How many frames are in use.
    pub depth: usize,
    /// The node of the operand or statement that was read last.
    pub last: u16,
}

impl Parser {
    /// Puts a frame on top.
    pub(crate) fn push(&mut self, frame: Frame)
        requires { self.old.depth ≤ 4096 }
        ensures is { self.new ≡ pushed frame self.old }
        ensures there { self.old.depth < length self.old.frames }
    {
        self.frames[self.depth] = frame;
        self.depth += 1;
    }

    /// Adds a node, which is the last one read then.
    pub(crate) fn add(&mut self, node: Node)
        requires { self.old.used ≤ 4096 }
        ensures { Adds node self.old self.new }
    {
        put_node(&mut self.nodes, self.used, node);
        self.last = self.used;
        self.used += 1;
    }
}
