//! Checking a module that was loaded.
ghost use Rattle.std.specs.Prelude.{◌≡◌, ◌≤◌, IfOk, length};
ghost use Rattle.go_load.specs.Loading.{AreRead};
ghost use Rattle.go_load.specs.Refusals.{Answers, Is, IsNoRead};
ghost use Rattle.go_load.specs.Sources.{ReadsSources};
ghost use Rattle.gocov_run.specs.Faults as spec;

use crate::files::{path_of, text_of};
use go_ast::{NoMemory, SourceKind, place_of};
use go_bounds::laws::sound_modules_are_sized;
use go_check::{CheckRefusal, check};
use go_load::{LoadRefusal, Loaded};
use go_meaning::Program;
use std::alloc::Global;

/// The refusal of a fault: the path of its file, and its place there.
#[tactic(auto, using(crate::proofs::Texts::short_text, crate::proofs::Texts::place_within))]
fn refusal_of(
    alloc: Global,
    loaded: &Loaded,
    package: u64,
    file: u64,
    offset: u32,
    kind: SourceKind,
) -> Result<LoadRefusal, NoMemory>
    requires { AreRead ReadsSources loaded.now }
    ensures { IfOk result (λ refusal. refusal ≡ spec.refusal_of loaded.now (record { number = «package»; file = file; offset = offset; kind = kind })) }
{
    let text = text_of(loaded, package as usize, file as usize);
    Ok(LoadRefusal::Source {
        path: path_of(alloc, &loaded.module, package as usize, file as usize)?,
        place: place_of(text, (offset as usize).min(text.len())),
        kind,
    })
}

/// The program of a module that was loaded, or its first fault.
#[tactic(auto, using(crate::proofs::Steps::checked_program, crate::proofs::Steps::checked_fault))]
pub(crate) fn check_loaded(alloc: Global, loaded: &Loaded) -> Result<Program, LoadRefusal>
    requires { AreRead ReadsSources loaded.now }
    ensures told { Answers (λ program. program) result (Is (spec.checked loaded.now)) }
    ensures no_read { IsNoRead result }
{
    sound_modules_are_sized();
    match check(alloc, &loaded.module) {
        Ok(program) => Ok(program),
        Err(
            CheckRefusal::At {
                package,
                file,
                offset,
                kind,
            },
        ) => Err(refusal_of(alloc, loaded, package, file, offset, kind)?),
        Err(CheckRefusal::NoMemory) => Err(LoadRefusal::NoMemory),
    }
}
