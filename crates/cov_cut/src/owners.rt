//! The functions in whose bodies lists stand.
ghost use Rattle.std.specs.Prelude.{◌≡◌, ◌≤◌, ◌<◌, ℕ, length};
ghost use Rattle.cov_cut.specs.Owners as owners;

use go_meaning::Function;

/// How many functions begin up to a list, where so many do up to an earlier one.
pub(crate) fn begun(functions: &[Function], before: usize, list: u64) -> usize
    requires { owners.AllBegun functions.now before list }
    ensures { owners.HaveBegun functions.now result list }
{
    let mut begun = before;
    while begun < functions.len() && functions[begun].body <= list {
        begun += 1;
    }
    begun
}

/// Whether the last of so many functions is cut: one that is named `_` isn't.
pub(crate) fn is_cut(functions: &[Function], begun: usize) -> bool
    requires { begun ≤ length functions.now }
    ensures { (list : ℕ) → owners.HaveBegun functions.now begun list → result ≡ owners.is_cut functions.now list }
{
    if begun == 0 {
        return true;
    }
    functions[begun - 1].name.bytes() != b"_".as_slice()
}
