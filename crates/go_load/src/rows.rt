//! Which packages of a module import which.
ghost use Rattle.std.specs.Prelude.{◌≡◌, ◌++◌, [], ◌∷◌, List, ℕ, IfOk, filter, length, map, vec_len};
ghost use Rattle.go_load.specs.Loading as spec;
ghost use Rattle.go_load.specs.Loading.{DoPathsRise};
ghost use Rattle.go_load.specs.Paths as paths;

use crate::contents::{Found, Home};
use crate::graph::Graph;
use crate::paths::is_own;
use go_ast::{Import, NoMemory, Text};
use std::alloc::Global;

/// Marks the package with a path, if there is one.
fn mark_import(founds: &[Found], row: &mut Vec<bool>, path: &Text)
    requires { vec_len row.old ≡ length founds.now }
    ensures many { vec_len row.new ≡ length founds.now }
    ensures marked { DoPathsRise founds.now → (seen : List (List ℕ)) → row.old.items ≡ spec.marks_of founds.now seen
        → row.new.items ≡ spec.marks_of founds.now (seen ++ path.now ∷ []) }
{
    if let Ok(at) = founds.binary_search_by(|found: &Found| found.path.cmp(path)) {
        row[at] = true;
    }
}

/// Marks the packages of the module among imports.
fn mark_imports(home: &Home, founds: &[Found], row: &mut Vec<bool>, imports: &[Import])
    requires { vec_len row.old ≡ length founds.now }
    ensures many { vec_len row.new ≡ length founds.now }
    ensures marked { DoPathsRise founds.now → (seen : List (List ℕ)) → row.old.items ≡ spec.marks_of founds.now seen
        → row.new.items ≡ spec.marks_of founds.now (seen ++ filter (paths.is_own home.now.path) (map (λ i. i.path) imports.now)) }
{
    for import in imports {
        if is_own(home.path.bytes(), import.path.bytes()) {
            mark_import(founds, row, &import.path);
        }
    }
}

/// Which packages a package imports, by number.
fn row_of(
    alloc: Global,
    home: &Home,
    founds: &[Found],
    found: &Found,
) -> Result<Vec<bool>, NoMemory>
    ensures { IfOk result (λ row. DoPathsRise founds.now → row.items ≡ spec.row_of home.now founds.now found.now) }
{
    let mut row = vec![in alloc; false; founds.len()]?;
    for source in found.sources.as_slice() {
        mark_imports(home, founds, &mut row, source.tree.imports.as_slice());
    }
    Ok(row)
}

/// Which packages import which, by their places in the list.
pub(crate) fn graph_of(alloc: Global, home: &Home, founds: &[Found]) -> Result<Graph, NoMemory>
    ensures rows { IfOk result (λ graph. DoPathsRise founds.now → graph ≡ spec.rows_of home.now founds.now) }
    ensures many { IfOk result (λ graph. length graph ≡ length founds.now) }
{
    let mut rows = Vec::new(alloc);
    for found in founds {
        rows.push(row_of(alloc, home, founds, found)?)?;
    }
    Ok(Graph::from_rows(rows))
}
