//! A program whose `main` has a counter alone.
ghost use Rattle.std.specs.Prelude.{◌≡◌, [], ◌∷◌, IfOk};
ghost use Rattle.cells_rows.specs.OneCounter.{package_of_one, main_function, counter, one_counter};

use go_ast::{NoMemory, Span, Text};
use go_meaning::{Function, Node, NodeForm, Program, ProgramPackage};
use sqlite_items::Items;
use std::alloc::Global;

fn package(alloc: Global) -> Result<ProgramPackage, NoMemory>
    ensures { IfOk result (λ p. p ≡ package_of_one) }
{
    Ok(ProgramPackage {
        path: Text::of(alloc, b"m")?,
        name: Text::of(alloc, b"main")?,
        functions: 1,
    })
}

fn packages(alloc: Global) -> Result<Items<ProgramPackage>, NoMemory>
    ensures { IfOk result (λ ps. ps ≡ package_of_one ∷ []) }
{
    let mut packages = Items::new(alloc);
    packages.push(package(alloc)?)?;
    Ok(packages)
}

fn functions(alloc: Global) -> Result<Items<Function>, NoMemory>
    ensures { IfOk result (λ fs. fs ≡ main_function ∷ []) }
{
    let mut functions = Items::new(alloc);
    functions.push(Function {
        name: Text::of(alloc, b"main")?,
        params: 0,
        results: 0,
        slots: 0,
        body: 0,
    })?;
    Ok(functions)
}

fn lists(alloc: Global) -> Result<Items<Items<Node>>, NoMemory>
    ensures { IfOk result (λ ls. ls ≡ (counter ∷ []) ∷ []) }
{
    let mut list = Items::new(alloc);
    list.push(Node {
        span: Span { start: 0, end: 0 },
        form: NodeForm::Count(0),
    })?;
    let mut lists = Items::new(alloc);
    lists.push(list)?;
    Ok(lists)
}

/// `main` with the counter of unit 0.
pub(crate) fn one_counter(alloc: Global) -> Result<Program, NoMemory>
    ensures { IfOk result (λ p. p ≡ one_counter) }
{
    let packages = packages(alloc)?;
    let functions = functions(alloc)?;
    let lists = lists(alloc)?;
    Ok(Program::new(packages, functions, lists, Items::new(alloc), 1, 0))
}
