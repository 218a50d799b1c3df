//! A program as a tree that is laid out in numbers.
ghost use Rattle.std.specs.Prelude.{◌≡◌};
ghost use Rattle.syntax.specs.Program.{Held};

use super::shape::LIMIT;

/// Four numbers for each token, and for one node more.
pub const ROOM: usize = 4 * (LIMIT + 1);

/// A program, made of tokens by `parse` alone.
#[derive(Drop)]
pub struct Tree {
    pub(crate) nodes: [u16; ROOM],
    pub(crate) root: u16,
    ghost holds: { ∥ Held nodes root ∥₁ },
}

impl Tree {
    /// The nodes that it is laid out in.
    pub fn nodes(&self) -> &[u16]
        ensures { result.now ≡ self.now.nodes }
    {
        &self.nodes
    }

    /// The node at which it stands.
    pub fn root(&self) -> u16
        ensures { result ≡ self.now.root }
    {
        self.root
    }
}
