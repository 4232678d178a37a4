//! Packages in load order.
ghost use Rattle.std.specs.Prelude.{IfOk};
ghost use Rattle.go_load.specs.Arranging.{IsArranged};

use crate::cycle::least_cycle;
use crate::graph::Graph;
use crate::order::load_order;
use go_ast::NoMemory;
use std::alloc::Global;

/// How packages may be loaded.
#[derive(Debug, Drop)]
pub enum Arranged {
    /// All packages by number, those that are imported before those that import them, and the least of those that may come next.
    InOrder(Vec<usize>),
    /// The least cycle: each package is followed by one that it imports, the last by the first, which is the least of them.
    Cyclic(Vec<usize>),
}

/// The packages in load order, or the least cycle, where there is one.
pub fn arrange(alloc: Global, graph: &Graph) -> Result<Arranged, NoMemory>
    ensures { IfOk result (λ arranged. IsArranged graph.now arranged) }
{
    let order = load_order(alloc, graph)?;
    match order {
        Some(order) => Ok(Arranged::InOrder(order)),
        None => {
            let cycle = least_cycle(alloc, graph)?;
            match cycle {
                Some(cycle) => Ok(Arranged::Cyclic(cycle)),
                // Packages that wait for each other make a cycle.
                None => unreachable!(),
            }
        }
    }
}
