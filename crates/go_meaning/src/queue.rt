//! A queue that contracts see as a list, the oldest element first.
ghost use Rattle.std.specs.Prelude.{◌≡◌, [], ◌∷◌, ◌++◌, length, MatchOption, OnOk, OnErr};
ghost use Rattle.std.specs.Result.{IfErr};

use std::alloc::Global;
use std::collections::VecDeque;
use std::marker::Model;

/// Elements in the order in which they came.
#[derive(Debug, Drop)]
pub struct Queue<T> {
    items: VecDeque<T>,
}

impl<T> Model for Queue<T> {
    ghost use Rattle.std.specs.Prelude.{List};
    ghost use Rattle.std.specs.Coded.{coded_list};

    ghost Value = { List T };

    ghost coded = { coded_list T.code };

    ghost view = { λ q. q.items.items };
}

impl<T> Queue<T> {
    pub fn new(alloc: Global) -> Queue<T>
        ensures { result ≡ [] }
    {
        Queue {
            items: VecDeque::new(alloc),
        }
    }

    pub fn len(&self) -> usize
        ensures { result ≡ length self.now }
    {
        self.items.len()
    }

    /// Takes the oldest element.
    pub fn pop(&mut self) -> Option<T>
        ensures { MatchOption result ((self.old ≡ []) × (self.new ≡ [])) (λ oldest. self.old ≡ oldest ∷ self.new) }
    {
        self.items.pop_front()
    }
}

impl<T: Drop> Queue<T> {
    /// Adds the newest element. An `Err` gives it back and changes nothing.
    pub fn push(&mut self, newest: T) -> Result<(), T>
        ensures ok { OnOk result (self.new ≡ self.old ++ newest ∷ []) }
        ensures err { OnErr result (self.new ≡ self.old) }
        ensures back { IfErr result (λ x. x ≡ newest) }
    {
        match self.items.push_back(newest) {
            Ok(()) => Ok(()),
            Err(failed) => Err(failed.value),
        }
    }
}
