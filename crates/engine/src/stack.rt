// A stack of rule numbers in fixed memory.
ghost use Rattle.std.specs.Prelude.{◌≡◌, ℕ, ◌<◌, ◌≤◌, List, [], ◌∷◌, length, get_or, take, drop, reverse};

use std::marker::Model;

// At most N numbers, the newest last.
#[derive(Drop)]
pub(crate) struct Stack<const N: usize> {
    numbers: [usize; N],
    count: usize,
}

// Clauses see the numbers, the newest first.
impl<const N: usize> Model for Stack<N> {
    ghost Value = { List ℕ };

    ghost view = { λ t. reverse (take t.count t.numbers) };

    ghost invariant = { λ t. t.count ≤ N };
}

impl<const N: usize> Stack<N> {
    pub(crate) fn new() -> Self
        ensures { result ≡ [] }
    {
        Stack {
            numbers: [0; N],
            count: 0,
        }
    }

    pub(crate) fn push(&mut self, number: usize)
        requires { length self.old < N }
        ensures { self.new ≡ number ∷ self.old }
    {
        self.numbers[self.count] = number;
        self.count += 1;
    }

    // Takes the newest.
    pub(crate) fn pop(&mut self) -> usize
        requires { 0 < length self.old }
        ensures newest { result ≡ get_or self.old 0 0 }
        ensures rest { self.new ≡ drop 1 self.old }
    {
        self.count -= 1;
        self.numbers[self.count]
    }

    pub(crate) fn clear(&mut self)
        ensures { self.new ≡ [] }
    {
        self.count = 0;
    }

    pub(crate) fn oldest_first(&self) -> &[usize]
        ensures { reverse result.now ≡ self.now }
    {
        &self.numbers[..self.count]
    }
}
