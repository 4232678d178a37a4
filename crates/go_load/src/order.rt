//! The load order.
ghost use Rattle.std.specs.Prelude.{◌≡◌, ◌≤◌, ◌<◌, ℕ, List, Bool, true, false, length, IfSome, IfNone, IfOk, MatchOption};
ghost use Rattle.std.specs.List.{list_all};
ghost use Rattle.go_load.specs.Graph.{imports, IsLoadOrder};
ghost use Rattle.go_load.specs.Marks.{is_marked, Await, IsFree, IsNotFree, IsBlocked};

use crate::graph::Graph;
use go_ast::NoMemory;
use std::alloc::Global;

/// The first package from a number on that a package imports and that isn't marked, or the number of packages.
fn awaited_from(graph: &Graph, marks: &[bool], importer: usize, from: usize) -> usize
    requires marks { length marks.now ≡ length graph.now }
    requires within { from ≤ length graph.now }
    ensures bound { result ≤ length graph.now }
    ensures came { (v : ℕ) → from ≤ v → v < result → imports graph.now importer v ≡ true → is_marked marks.now v ≡ true }
    ensures waits { result < length graph.now → (imports graph.now importer result ≡ true) × (is_marked marks.now result ≡ false) }
{
    for v in from..graph.len() {
        if graph.imports(importer, v) && !marks[v] {
            return v;
        }
    }
    graph.len()
}

/// The least package that isn't marked while all that it imports are.
fn next_free(graph: &Graph, marks: &[bool], awaited: &mut [usize]) -> Option<usize>
    requires marks { length marks.now ≡ length graph.now }
    requires awaits { Await graph.now marks.now awaited.old }
    ensures found { IfSome result (λ u. IsFree graph.now marks.now u) }
    ensures least { IfSome result (λ u. (v : ℕ) → v < u → IsNotFree graph.now marks.now v) }
    ensures none { IfNone result ((v : ℕ) → v < length graph.now → IsNotFree graph.now marks.now v) }
    ensures awaits { Await graph.now marks.now awaited.new }
{
    for u in 0..graph.len() {
        if !marks[u] {
            awaited[u] = awaited_from(graph, marks, u, awaited[u]);
            if awaited[u] == graph.len() {
                return Some(u);
            }
        }
    }
    None
}

fn are_all(marks: &[bool]) -> bool
    ensures { result ≡ list_all (λ mark. mark) marks.now }
{
    marks.iter().all(|mark| *mark)
}

/// All packages in load order, or `None` where packages are left that import each other in a circle.
pub fn load_order(alloc: Global, graph: &Graph) -> Result<Option<Vec<usize>>, NoMemory>
    ensures { IfOk result (λ found. MatchOption found ((marks : List Bool) × IsBlocked graph.now marks) (λ order. IsLoadOrder graph.now order.items)) }
{
    let mut marks = vec![in alloc; false; graph.len()]?;
    let mut awaited = vec![in alloc; 0usize; graph.len()]?;
    let mut order = Vec::new(alloc);
    while let Some(u) = next_free(graph, &marks, &mut awaited) {
        marks[u] = true;
        order.push(u)?;
    }
    if are_all(&marks) {
        Ok(Some(order))
    } else {
        Ok(None)
    }
}
