//! Laws of commands.
ghost use Rattle.std.specs.Prelude.{◌≡◌, ℕ, List, Result};
ghost use Rattle.cov_outside.specs.Tree.{Tree};
ghost use Rattle.cov_outside.specs.declared.stamp.Stamp.{Stamp};
ghost use Rattle.gocov_tools.specs.Command.{Commands};
ghost use Rattle.gocov_tools.specs.declared.refusal.Refusal.{Refusal};
ghost use Rattle.gocov_tools.specs.declared.work.Work.{Work};

use cov_rewrite::laws::one_text_or_fault;

/// On a tree of files a list of words comes to one work or one refusal, never to two.
pub fn one_outcome()
    ensures { (stamp : Stamp) (words : List (List ℕ)) (t : Tree) (x y : Result Work Refusal) → Commands stamp words t x → Commands stamp words t y → x ≡ y }
{
    one_text_or_fault();
}
