//! Functions.
ghost use Rattle.std.specs.Prelude.{◌≡◌, IfOk, Ok, true};
ghost use Rattle.go_types.specs.Checking.{Gives};
ghost use Rattle.go_types.specs.Walking.{Walks};
ghost use Rattle.go_bodies.specs.Functions as spec;

use crate::stmt::check_function_body;
use go_ast::{Func, Name, NoMemory, Param};
use go_meaning::{Function, Variable};
use go_types::{Lifo, Meaning, Refusal, Signature, ValueType, Walk};
use sqlite_items::{Items, at as item};
use std::alloc::Global;

/// A variable in the next slot, which needs no reading.
fn param_slot(walk: &mut Walk, at: u32) -> Result<Variable, NoMemory>
    ensures { IfOk result (λ x. spec.param_slot at walk.old ≡ Ok (x, walk.new)) }
{
    let slot = walk.declared.len() as u64;
    walk.declared.push(at)?;
    walk.marks.read.push(true)?;
    Ok(Variable::Slot(slot))
}

/// A parameter. `_` has a slot too.
fn declare_param(walk: &mut Walk, name: &Name, of: ValueType) -> Result<(), Refusal>
    ensures { Walks (spec.declare_param name.now of walk.old) result walk.new }
{
    let variable = param_slot(walk, name.at)?;
    if name.text.bytes() == b"_".as_slice() {
        return Ok(());
    }
    walk.bind(name, Meaning::Variable(variable, of))
}

fn declare_params(walk: &mut Walk, params: &[Param], types: &[ValueType]) -> Result<(), Refusal>
    ensures { Walks (spec.declare_params params.now types.now walk.old) result walk.new }
{
    let mut left = types;
    for param in params {
        let [of, rest @ ..] = left else {
            return Ok(());
        };
        declare_param(walk, &param.name, *of)?;
        left = rest;
    }
    Ok(())
}

/// The types of a function's parameters.
fn params_of(walk: &Walk, number: u64) -> &[ValueType]
    ensures { result.now ≡ spec.params_of number walk.now }
{
    match item(walk.names.signatures.as_slice(), number as usize) {
        Some(signature) => signature.params.as_slice(),
        None => &[],
    }
}

/// The types of a function's results.
fn results_of(walk: &Walk, number: u64) -> &[ValueType]
    ensures { result.now ≡ spec.results_of number walk.now }
{
    match item(walk.names.signatures.as_slice(), number as usize) {
        Some(signature) => signature.results.as_slice(),
        None => &[],
    }
}

/// Forgets the variables and labels of a function. These are the types of the next one's results.
fn set_results(alloc: Global, walk: &mut Walk, results: Items<ValueType>)
    ensures { walk.new ≡ spec.with_results results walk.old }
{
    walk.marks.read = Items::new(alloc);
    walk.declared = Items::new(alloc);
    walk.labels = Items::new(alloc);
    walk.named = Items::new(alloc);
    walk.around = Lifo::new(alloc);
    walk.results = results;
}

#[tactic(auto, unfolding(crate::specs::Functions::function_parts))]
fn function_parts(
    alloc: Global,
    walk: &mut Walk,
    func: &Func,
    types: &[ValueType],
) -> Result<Function, Refusal>
    ensures { Walks (spec.function_parts func.now types.now walk.old) result walk.new }
{
    declare_params(walk, func.params.as_slice(), types)?;
    let body = check_function_body(alloc, walk, func.body.list.as_slice())?;
    walk.ended(func.body.right, body)?;
    Ok(Function {
        name: func.name.text.clone()?,
        params: func.params.len() as u64,
        results: walk.results.len() as u64,
        slots: walk.declared.len() as u64,
        body,
    })
}

/// The function with a number, whose signature is among the names.
///
/// The lists of its statements join those of the program. Of what the walk knows of a function nothing is left.
#[tactic(auto, unfolding(crate::specs::Functions::function))]
pub fn function(
    alloc: Global,
    walk: &mut Walk,
    func: &Func,
    number: u64,
) -> Result<Function, Refusal>
    ensures { Walks (spec.function func.now number walk.old) result walk.new }
{
    let params = Items::from_slice(alloc, params_of(walk, number))?;
    let results = Items::from_slice(alloc, results_of(walk, number))?;
    set_results(alloc, walk, results);
    let scope = walk.open();
    let made = function_parts(alloc, walk, func, params.as_slice())?;
    walk.close(scope);
    set_results(alloc, walk, Items::new(alloc));
    Ok(made)
}
