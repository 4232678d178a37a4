//! The module in a directory.
ghost use Rattle.std.specs.Prelude.{◌≡◌, IfOk, IfSome};
ghost use Rattle.std.specs.Str.{IsUtf8};
ghost use Rattle.go_load.specs.GoMod as go_mod;
ghost use Rattle.go_load.specs.Homes.{HomeAt, go_mod_path, home_from};
ghost use Rattle.go_load.specs.Refusals.{Answers, CountsRead, Is, IsNoRead};

use crate::contents::Home;
use crate::go_mod::{ModuleFault, module_path};
use crate::refusal::{LoadKind, LoadRefusal};
use crate::source::{path_in, read_text};
use cov_outside::{Files, Text as Path};
use go_ast::Text;
use std::alloc::Global;

/// The module in a directory, by the text of its `go.mod`.
fn home_of(alloc: Global, dir: Path, path: &Path, text: &[u8]) -> Result<Home, LoadRefusal>
    requires { path.now ≡ go_mod_path dir }
    ensures told { Answers (λ home. home) result (Is (home_from dir (go_mod.path_in text.now))) }
    ensures dir { IfOk result (λ home. home.dir ≡ dir) }
    ensures no_read { IsNoRead result }
{
    match module_path(alloc, text) {
        Ok(path) => Ok(Home { dir, path }),
        Err(ModuleFault::BadModule) => Err(LoadRefusal::Load {
            path: Text::of(alloc, path.bytes())?,
            kind: LoadKind::BadModule,
        }),
        Err(ModuleFault::NoMemory) => Err(LoadRefusal::NoMemory),
    }
}

/// Reads the `go.mod` in a directory.
pub fn find_home<F: Files>(alloc: Global, files: &mut F, dir: Path) -> Result<Home, LoadRefusal>
    requires { IsUtf8 dir }
    ensures told { IfSome (F.tree files.old) (λ t. Answers (λ home. home) result (HomeAt t dir)) }
    ensures dir { IfOk result (λ home. home.dir ≡ dir) }
    ensures same { F.tree files.new ≡ F.tree files.old }
    ensures cause { CountsRead (F.read_faults files.old) (F.read_faults files.new) result }
    ensures puts { F.put_faults files.new ≡ F.put_faults files.old }
{
    let path = path_in(alloc, &dir, b"go.mod")?;
    let text = read_text(alloc, files, &path)?;
    home_of(alloc, dir, &path, &text)
}
