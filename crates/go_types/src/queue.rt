//! A list that is taken from its front.
ghost use Rattle.std.specs.Prelude.{◌≡◌, [], ◌∷◌, length, reverse, MatchOption};

use std::marker::Model;

/// A list of elements, of which the first is taken.
#[derive(Debug, Drop)]
pub struct Queue<T> {
    /// The last element first.
    left: Vec<T>,
}

impl<T> Model for Queue<T> {
    ghost use Rattle.std.specs.Prelude.{List, reverse};
    ghost use Rattle.std.specs.Coded.{coded_list};

    ghost Value = { List T };

    ghost coded = { coded_list T.code };

    ghost view = { λ q. reverse q.left.items };
}

impl<T> Queue<T> {
    /// The elements in order.
    pub fn of(items: Vec<T>) -> Queue<T>
        ensures { result ≡ items.items }
    {
        let mut left = items;
        left.reverse();
        Queue { left }
    }

    pub fn len(&self) -> usize
        ensures { result ≡ length self.now }
    {
        self.left.len()
    }

    /// Takes the first element.
    pub fn take(&mut self) -> Option<T>
        ensures { MatchOption result ((self.old ≡ []) × (self.new ≡ [])) (λ first. self.old ≡ first ∷ self.new) }
    {
        self.left.pop()
    }
}
