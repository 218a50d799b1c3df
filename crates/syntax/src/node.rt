//! Nodes of a tree that is laid out in numbers, four to a node.
ghost use Rattle.std.specs.Prelude.{◌≡◌, ◌+◌, ◌*◌, slice_index};
ghost use Rattle.syntax.specs.Node.{node_of, Decoded};

use base::Op;

/// A node, with the indices of its children; `Broken` is what stands for no tree.
#[derive(Clone, Copy)]
pub enum Node {
    Literal(u16),
    Variable(u16),
    Not(u16),
    /// An operator and its two sides.
    Binary(Op, u16, u16),
    Skip,
    Assign(u16, u16),
    Seq(u16, u16),
    /// A condition, and what is done if it is true and if it is not.
    Branch(u16, u16, u16),
    Repeat(u16, u16),
    /// An output, a counter, and the node of the condition and the length.
    Delay(u16, u16, u16),
    /// A delay's condition and length.
    Setting(u16, u16),
    Broken,
}

/// The node of four numbers at an index: its children stand below it.
/// A tree laid out in numbers, without a heap, is a rule of the project.
#[inline(always)]
fn decode(i: u16, kind: u16, a: u16, b: u16, c: u16) -> Node
    ensures { result ≡ node_of i kind a b c }
{
    match kind {
        0 => Node::Literal(a),
        1 => Node::Variable(a),
        2 if a < i => Node::Not(a),
        3 if a < 8 && b < i && c < i => Node::Binary(Op::from_number(a), b, c),
        4 => Node::Skip,
        5 if b < i => Node::Assign(a, b),
        6 if a < i && b < i => Node::Seq(a, b),
        7 if a < i && b < i && c < i => Node::Branch(a, b, c),
        8 if b < i => Node::Repeat(a, b),
        9 if c < i => Node::Delay(a, b, c),
        10 if a < i => Node::Setting(a, b),
        _ => Node::Broken,
    }
}

/// The number at a place, 0 past the end.
#[inline(always)]
fn number_at(nodes: &[u16], at: usize) -> u16
    ensures { result ≡ slice_index nodes.now at }
{
    nodes.get(at).copied().unwrap_or(0)
}

/// The node at an index. Without the hint each reader of a tree calls it, and takes three quarters longer.
#[inline(always)]
pub fn node_at(nodes: &[u16], i: u16) -> Node
    ensures { Decoded nodes.now i result }
{
    let at = 4 * i as usize;
    decode(
        i,
        number_at(nodes, at),
        number_at(nodes, at + 1),
        number_at(nodes, at + 2),
        number_at(nodes, at + 3),
    )
}
