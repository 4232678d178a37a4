//! The configuration with which a run starts.
ghost use Rattle.std.specs.Prelude.{◌≡◌, [], ◌∷◌, ◌++◌, List, IfOk, Some, true};
ghost use Rattle.go_meaning.specs.Histories.{start_values, start_channels, start_mutexes, start_groups};
ghost use Rattle.go_meaning.specs.Histories as histories;
ghost use Rattle.go_meaning.specs.Moves.{started};
ghost use Rattle.go_meaning.specs.declared.program.Global.{Global as GlobalOf};

use crate::copies::copy_value;
use go_ast::{NoMemory, Text};
use go_meaning::{
    Call, Channel, Config, Global as PackageVariable, Goroutine, Program, Queue, Row, Stack, Value,
};
use sqlite_items::Items;
use std::alloc::{AllocError, Global};

// The first value of a package variable is added to those before it, where so many channels were made; it tells how many
// there are then.
fn push_value(
    all: &mut Items<Value>,
    variable: &PackageVariable,
    made: u32,
) -> Result<u32, NoMemory>
    ensures { IfOk result (λ n. (rest : List GlobalOf) → all.new ++ start_values n rest ≡ all.old ++ start_values made (variable.now ∷ rest)) }
{
    match variable {
        PackageVariable::Value(value) => {
            all.push(copy_value(value)?)?;
            Ok(made)
        }
        PackageVariable::Make { .. } => {
            let next = made.checked_add(1).ok_or(AllocError)?;
            all.push(Value::Channel(Some(made)))?;
            Ok(next)
        }
        PackageVariable::Mutex => Ok(made),
        PackageVariable::Group => Ok(made),
    }
}

fn values(alloc: Global, variables: &[PackageVariable]) -> Result<Items<Value>, NoMemory>
    ensures { IfOk result (λ all. all ≡ start_values 0 variables.now) }
{
    let mut all = Items::new(alloc);
    let mut made = 0;
    for variable in variables {
        made = push_value(&mut all, variable, made)?;
    }
    Ok(all)
}

fn push_channel(
    alloc: Global,
    all: &mut Row<Channel>,
    variable: &PackageVariable,
) -> Result<(), NoMemory>
    ensures { IfOk result (λ n. (rest : List GlobalOf) → all.new ++ start_channels rest ≡ all.old ++ start_channels (variable.now ∷ rest)) }
{
    match variable {
        PackageVariable::Make { zero, capacity } => {
            all.push(Channel {
                capacity: *capacity,
                zero: copy_value(zero)?,
                values: Queue::new(alloc),
                closed: false,
            })?;
            Ok(())
        }
        PackageVariable::Value(_) => Ok(()),
        PackageVariable::Mutex => Ok(()),
        PackageVariable::Group => Ok(()),
    }
}

fn channels(alloc: Global, variables: &[PackageVariable]) -> Result<Row<Channel>, NoMemory>
    ensures { IfOk result (λ all. all ≡ start_channels variables.now) }
{
    let mut all = Row::new(alloc);
    for variable in variables {
        push_channel(alloc, &mut all, variable)?;
    }
    Ok(all)
}

fn push_mutex(all: &mut Items<bool>, variable: &PackageVariable) -> Result<(), NoMemory>
    ensures { IfOk result (λ n. (rest : List GlobalOf) → all.new ++ start_mutexes rest ≡ all.old ++ start_mutexes (variable.now ∷ rest)) }
{
    match variable {
        PackageVariable::Mutex => {
            all.push(false)?;
            Ok(())
        }
        PackageVariable::Value(_) => Ok(()),
        PackageVariable::Make { .. } => Ok(()),
        PackageVariable::Group => Ok(()),
    }
}

fn mutexes(alloc: Global, variables: &[PackageVariable]) -> Result<Items<bool>, NoMemory>
    ensures { IfOk result (λ all. all ≡ start_mutexes variables.now) }
{
    let mut all = Items::new(alloc);
    for variable in variables {
        push_mutex(&mut all, variable)?;
    }
    Ok(all)
}

fn push_group(all: &mut Items<u32>, variable: &PackageVariable) -> Result<(), NoMemory>
    ensures { IfOk result (λ n. (rest : List GlobalOf) → all.new ++ start_groups rest ≡ all.old ++ start_groups (variable.now ∷ rest)) }
{
    match variable {
        PackageVariable::Group => {
            all.push(0)?;
            Ok(())
        }
        PackageVariable::Value(_) => Ok(()),
        PackageVariable::Make { .. } => Ok(()),
        PackageVariable::Mutex => Ok(()),
    }
}

fn groups(alloc: Global, variables: &[PackageVariable]) -> Result<Items<u32>, NoMemory>
    ensures { IfOk result (λ all. all ≡ start_groups variables.now) }
{
    let mut all = Items::new(alloc);
    for variable in variables {
        push_group(&mut all, variable)?;
    }
    Ok(all)
}

// Goroutine 1, about to begin `main`.
fn first_goroutine(alloc: Global, program: &Program) -> Result<Row<Goroutine>, NoMemory>
    ensures { IfOk result (λ all. all ≡ started program.now.main [] ∷ []) }
{
    let mut all = Row::new(alloc);
    all.push(Goroutine {
        begin: Some(Call {
            function: program.main(),
            args: Row::new(alloc),
        }),
        frames: Stack::new(alloc),
    })?;
    Ok(all)
}

/// The configuration with which a run starts: package variables have their first values, and goroutine 1 is about to begin
/// `main`.
pub fn start(alloc: Global, program: &Program) -> Result<Config, NoMemory>
    ensures { IfOk result (λ c. c ≡ histories.start program.now) }
{
    let variables = program.globals();
    Ok(Config {
        globals: values(alloc, variables)?,
        channels: channels(alloc, variables)?,
        mutexes: mutexes(alloc, variables)?,
        groups: groups(alloc, variables)?,
        output: Text::new(alloc),
        goroutines: first_goroutine(alloc, program)?,
        end: None,
    })
}
