//! Modules of several files, and whether they are answered as their marks say.
use crate::checking::{Fault, fault_in, source_of};
use cov_outside::MemoryFiles;
use go_ast::{Module, SourceKind};
use go_load::{Loaded, load};
use std::alloc::Global;
use std::test::Fail;

/// The files of a module without their marks, and the path of the file and the offset that are marked.
#[derive(Drop)]
struct MarkedFiles<'a> {
    files: MemoryFiles,
    mark: Option<(&'a str, usize)>,
}

fn files_of<'a>(alloc: Global, paths: &[(&'a str, &'a str)]) -> Result<MarkedFiles<'a>, Fail> {
    let mut files = MemoryFiles::new(alloc, &[])?;
    files.add("m/go.mod", b"module e.org/m\n")?;
    let mut mark = None;
    for (path, text) in paths {
        let source = source_of(alloc, &[*text])?;
        files.add(path, &source.text)?;
        if let Some(offset) = source.mark {
            mark = Some((*path, offset));
        }
    }
    Ok(MarkedFiles { files, mark })
}

/// Whether a path is that of a fault's file.
fn is_in(alloc: Global, module: &Module, fault: Fault, path: &str) -> Result<bool, Fail> {
    let package = module.packages.as_slice().get(fault.package as usize);
    let Some(package) = package else {
        return Ok(false);
    };
    let Some(file) = package.files.as_slice().get(fault.file as usize) else {
        return Ok(false);
    };
    let mut text = Vec::new(alloc);
    text.extend_from_slice(package.dir.bytes())?;
    text.push(b'/')?;
    text.extend_from_slice(file.name.bytes())?;
    Ok(text.as_slice() == path.as_bytes())
}

/// Whether a module is answered by its mark and a kind.
fn is_answered(
    alloc: Global,
    loaded: &Loaded,
    mark: Option<(&str, usize)>,
    kind: Option<SourceKind>,
) -> Result<bool, Fail> {
    match (fault_in(alloc, &loaded.module)?, mark, kind) {
        (None, None, None) => Ok(true),
        (Some(fault), Some((path, offset)), Some(kind)) => {
            let placed = is_in(alloc, &loaded.module, fault, path)?;
            Ok(placed && fault.offset == offset && fault.kind == kind)
        }
        _ => Ok(false),
    }
}

/// Whether the files make a module that is answered by their mark and a kind.
pub(super) fn agrees(
    alloc: Global,
    paths: &[(&str, &str)],
    kind: Option<SourceKind>,
) -> Result<bool, Fail> {
    let MarkedFiles { mut files, mark } = files_of(alloc, paths)?;
    match load(alloc, &mut files, "m") {
        Ok(loaded) => is_answered(alloc, &loaded, mark, kind),
        Err(_) => Ok(false),
    }
}
