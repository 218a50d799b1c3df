//! Nodes that are written, as four numbers each: a tree laid out in numbers, without a heap, is a rule of the project.
ghost use Rattle.std.specs.Prelude.{◌≤◌};
ghost use Rattle.syntax.specs.Frames.{Written, Wrote};

use super::node::Node;
use super::tree::ROOM;

/// Writes the four numbers of a node.
fn write(nodes: &mut [u16; ROOM], i: u16, kind: u16, a: u16, b: u16, c: u16)
    requires { i ≤ 4096 }
    ensures { Written nodes.old nodes.new i kind a b c }
{
    let at = 4 * i as usize;
    nodes[at] = kind;
    nodes[at + 1] = a;
    nodes[at + 2] = b;
    nodes[at + 3] = c;
}

/// Writes a node.
pub(crate) fn put_node(nodes: &mut [u16; ROOM], i: u16, node: Node)
    requires { i ≤ 4096 }
    ensures { Wrote nodes.old nodes.new i node }
{
    match node {
        Node::Literal(n) => write(nodes, i, 0, n, 0, 0),
        Node::Variable(v) => write(nodes, i, 1, v, 0, 0),
        Node::Not(a) => write(nodes, i, 2, a, 0, 0),
        Node::Binary(op, a, b) => write(nodes, i, 3, op.number(), a, b),
        Node::Skip => write(nodes, i, 4, 0, 0, 0),
        Node::Assign(v, a) => write(nodes, i, 5, v, a, 0),
        Node::Seq(a, b) => write(nodes, i, 6, a, b, 0),
        Node::Branch(a, b, c) => write(nodes, i, 7, a, b, c),
        Node::Repeat(n, a) => write(nodes, i, 8, n, a, 0),
        Node::Delay(out, counter, a) => write(nodes, i, 9, out, counter, a),
        Node::Setting(a, length) => write(nodes, i, 10, a, length, 0),
        Node::Broken => write(nodes, i, 11, 0, 0, 0),
    }
}
