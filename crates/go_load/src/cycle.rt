//! Packages that import each other in a circle.
ghost use Rattle.std.specs.Prelude.{◌≡◌, ◌≤◌, ◌<◌, ◌++◌, ◌∷◌, [], ℕ, List, Bool, length, IfOk, MatchOption, MatchBool};
ghost use Rattle.go_load.specs.Graph.{IsCycle, IsLeastCycle, IsUpTo, LeadsBack};
ghost use Rattle.go_load.specs.Marks.{count_unmarked, IsDead, IsSearched};
ghost use Rattle.go_load.specs.Searching.{Finds, IsFrom};

use crate::graph::Graph;
use go_ast::NoMemory;
use std::alloc::Global;

/// Goes on along imports from the last package of a path, back to the start, through packages that are greater than it and not
/// on the path. Where that can be done the path is the least list of those that do it; else it is as before.
fn lead_back(
    graph: &Graph,
    start: usize,
    last: usize,
    marks: &mut [bool],
    path: &mut Vec<usize>,
) -> Result<bool, NoMemory>
    requires start { start < length graph.now }
    requires last { last < length graph.now }
    requires marks { length marks.old ≡ length graph.now }
    requires searched { IsSearched graph.now start path.old.items marks.old }
    ensures marks { length marks.new ≡ length graph.now }
    ensures fewer { count_unmarked marks.new ≤ count_unmarked marks.old }
    ensures found { IfOk result (λ found. Finds graph.now start last path.old.items found path.new.items marks.new) }
{
    if graph.imports(last, start) {
        return Ok(true);
    }
    for v in start + 1..graph.len() {
        if graph.imports(last, v) && !marks[v] {
            marks[v] = true;
            path.push(v)?;
            if lead_back(graph, start, v, marks, path)? {
                return Ok(true);
            }
            path.pop();
        }
    }
    Ok(false)
}

/// The cycle that starts at a package as its least, the least list of those that do, if there is one.
fn cycle_from(alloc: Global, graph: &Graph, start: usize) -> Result<Option<Vec<usize>>, NoMemory>
    requires { start < length graph.now }
    ensures { IfOk result (λ found. MatchOption found (IsDead graph.now start (start ∷ []) start) (λ cycle. IsFrom graph.now start cycle.items)) }
{
    let mut marks = vec![in alloc; false; graph.len()]?;
    let mut path = vec![in alloc; start]?;
    if lead_back(graph, start, start, &mut marks, &mut path)? {
        Ok(Some(path))
    } else {
        Ok(None)
    }
}

/// Of the cycles, each starting at its least package, the least list.
pub fn least_cycle(alloc: Global, graph: &Graph) -> Result<Option<Vec<usize>>, NoMemory>
    ensures { IfOk result (λ found. MatchOption found ((cycle : List ℕ) → IsCycle graph.now cycle → ⊥) (λ cycle. IsLeastCycle graph.now cycle.items)) }
{
    for start in 0..graph.len() {
        if let Some(cycle) = cycle_from(alloc, graph, start)? {
            return Ok(Some(cycle));
        }
    }
    Ok(None)
}
