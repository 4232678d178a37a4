//! The functions of a program by their numbers. One that isn't there has no parameters, no slots, and list 0 as its body.
ghost use Rattle.std.specs.Prelude.{◌≡◌};
ghost use Rattle.go_meaning.specs.Programs as programs;
ghost use Rattle.go_meaning.specs.Moves as moves;

use go_meaning::{Deferral, Program};

/// How many parameters it has.
pub fn params_of(program: &Program, function: u64) -> u64
    ensures { result ≡ (programs.function_at program.now function).params }
{
    let functions = program.functions();
    if function < functions.len() as u64 {
        functions[function as usize].params
    } else {
        0
    }
}

/// How many slots its frames have.
pub fn slots_of(program: &Program, function: u64) -> u64
    ensures { result ≡ (programs.function_at program.now function).slots }
{
    let functions = program.functions();
    if function < functions.len() as u64 {
        functions[function as usize].slots
    } else {
        0
    }
}

/// The list of its body.
pub fn body_of(program: &Program, function: u64) -> u64
    ensures { result ≡ (programs.function_at program.now function).body }
{
    let functions = program.functions();
    if function < functions.len() as u64 {
        functions[function as usize].body
    } else {
        0
    }
}

/// How many operands a deferred call keeps.
pub fn operands_of(program: &Program, deferral: Deferral) -> u64
    ensures { result ≡ moves.operands_of program.now deferral }
{
    match deferral {
        Deferral::Call(function) => params_of(program, function),
        Deferral::Done(_) | Deferral::Unlock(_) => 0,
        Deferral::Close => 1,
        Deferral::Println(count) => count,
    }
}
