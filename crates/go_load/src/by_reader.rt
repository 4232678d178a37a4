//! Loading a module.
ghost use Rattle.std.specs.Prelude.{◌≡◌, IfOk, IfSome, IsPermutation, map};
ghost use Rattle.go_load.specs.Loading as spec;
ghost use Rattle.go_load.specs.Loading.{ArePathsApart, AreRead, AreSorted, IsMadeOf, Loads};
ghost use Rattle.go_load.specs.Refusals.{Answers, CountsRead, IsNoRead};

use crate::contents::{Found, Home};
use crate::discovery::discover;
use crate::home::find_home;
use crate::loaded::{Loaded, in_order};
use crate::reader::ReadsSource;
use crate::refusal::{LoadKind, LoadRefusal};
use crate::rows::graph_of;
use crate::sorting::{Arranged, arrange};
use cov_outside::{Files, Sequence, Text as Path};
use go_ast::{NoMemory, Text};
use std::alloc::Global;

/// The packages in byte order of path.
fn in_path_order(founds: Vec<Found>) -> Result<Vec<Found>, NoMemory>
    ensures same { IfOk result (λ sorted. IsPermutation founds.items sorted.items) }
    ensures sorted { IfOk result (λ sorted. ArePathsApart founds.items → AreSorted founds.items sorted.items) }
{
    let mut sorted = founds;
    sorted.sort_by(|a: &Found, b: &Found| a.path.cmp(&b.path))?;
    Ok(sorted)
}

/// The paths of the packages with these numbers.
fn paths_of(alloc: Global, founds: &[Found], numbers: &[usize]) -> Result<Sequence<Text>, NoMemory>
    ensures { IfOk result (λ paths. paths ≡ map (λ f. f.path) (spec.with_numbers founds.now numbers.now)) }
{
    let mut paths = Sequence::new(alloc);
    for number in numbers {
        if let Some(found) = founds.get(*number) {
            paths.push(found.path.clone()?)?;
        }
    }
    Ok(paths)
}

/// The refusal of a cycle.
fn cycle_of(alloc: Global, founds: &[Found], cycle: &[usize]) -> Result<LoadRefusal, NoMemory>
    ensures { IfOk result (λ refusal. refusal ≡ spec.cyclic (map (λ f. f.path) (spec.with_numbers founds.now cycle.now))) }
{
    let paths = paths_of(alloc, founds, cycle)?;
    let path = match paths.as_slice() {
        [] => Text::of(alloc, b"")?,
        [first, ..] => first.clone()?,
    };
    Ok(LoadRefusal::Load {
        path,
        kind: LoadKind::Cycle(paths),
    })
}

/// The module of packages: in load order, or else the refusal of their least cycle.
fn from_packages(alloc: Global, home: Home, founds: Vec<Found>) -> Result<Loaded, LoadRefusal>
    ensures told { ArePathsApart founds.items → Answers (λ l. l) result (spec.FromPackages home founds.items) }
    ensures of { IfOk result (IsMadeOf founds.items home.path) }
    ensures no_read { IsNoRead result }
{
    let founds = in_path_order(founds)?;
    let graph = graph_of(alloc, &home, &founds)?;
    match arrange(alloc, &graph)? {
        Arranged::InOrder(order) => {
            let Home { dir: _, path } = home;
            Ok(in_order(alloc, path, founds, &order)?)
        }
        Arranged::Cyclic(cycle) => Err(cycle_of(alloc, &founds, &cycle)?),
    }
}

/// Loads the module in a directory, with the trees that a reader gives its sources.
pub fn load_by<F: Files, S: ReadsSource>(
    alloc: Global,
    files: &mut F,
    reader: &S,
    root: &str,
) -> Result<Loaded, LoadRefusal>
    ensures told { IfSome (F.tree files.old) (λ t. Answers (λ l. l) result (Loads (S.gives reader.now) t root.now)) }
    ensures read { IfOk result (AreRead (S.gives reader.now)) }
    ensures same { F.tree files.new ≡ F.tree files.old }
    ensures cause { CountsRead (F.read_faults files.old) (F.read_faults files.new) result }
    ensures puts { F.put_faults files.new ≡ F.put_faults files.old }
{
    let home = find_home(alloc, files, Path::of(alloc, root.as_bytes())?)?;
    let founds = discover(alloc, files, reader, &home)?;
    from_packages(alloc, home, founds)
}
