//! Packages that import each other, by number.
ghost use Rattle.std.specs.Prelude.{◌≡◌, length, map};
ghost use Rattle.go_load.specs.Graph as spec;

use std::marker::Model;

/// Which packages import which. A package is known by its number, its place in byte order of import path.
#[derive(Debug, Drop)]
pub struct Graph {
    rows: Vec<Vec<bool>>,
}

impl Model for Graph {
    ghost use Rattle.std.specs.Prelude.{map};
    ghost use Rattle.go_load.specs.Graph.{Rows};

    ghost Value = { Rows };

    ghost view = { λ g. map (λ row. row.items) g.rows.items };
}

impl Graph {
    /// The graph with a row for each package, which says of each package, by number, whether it is imported.
    pub fn from_rows(rows: Vec<Vec<bool>>) -> Graph
        ensures { result ≡ map (λ row. row.items) rows.items }
    {
        Graph { rows }
    }

    /// The number of packages.
    pub fn len(&self) -> usize
        ensures { result ≡ length self.now }
    {
        self.rows.len()
    }

    /// Whether a package imports another.
    pub fn imports(&self, from: usize, to: usize) -> bool
        ensures { result ≡ spec.imports self.now from to }
    {
        if to >= self.rows.len() {
            return false;
        }
        match self.rows.get(from) {
            None => false,
            Some(row) => match row.get(to) {
                None => false,
                Some(imported) => *imported,
            },
        }
    }
}
