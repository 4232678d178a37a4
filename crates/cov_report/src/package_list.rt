//! The list of packages.
ghost use Rattle.std.specs.Prelude.{◌≡◌, ◌++◌, ◌∷◌, [], IfOk, OnOk};
ghost use Rattle.std.specs.List.{flat_map};
ghost use Rattle.cov_table.specs.Package.{named_package};
ghost use Rattle.cov_report.specs.Packages.{path_line, kept_packages, package_list_of};

use crate::filter::Filter;
use cov_outside::NoMemory;
use cov_table::{Package, Packages, Table};
use std::alloc::Global;

/// Appends the path of a package that is kept.
fn push_kept(text: &mut Vec<u8>, from: &Package<'_>, filter: &Filter) -> Result<(), NoMemory>
    ensures { OnOk result (text.new.items ≡ text.old.items ++ flat_map path_line (kept_packages filter.now.patterns (named_package from.now ∷ []))) }
{
    if filter.keeps(from.path) {
        text.extend_from_slice(from.path)?;
        text.push(b'\n')?;
    }
    Ok(())
}

fn push_packages(
    text: &mut Vec<u8>,
    packages: &Packages<'_>,
    filter: &Filter,
) -> Result<(), NoMemory>
    ensures { OnOk result (text.new.items ≡ text.old.items ++ flat_map path_line (kept_packages filter.now.patterns packages.now)) }
{
    for i in 0..packages.len() {
        if let Some(package) = packages.get(i) {
            push_kept(text, &package, filter)?;
        }
    }
    Ok(())
}

/// The paths of a table's packages in byte order, a line each.
pub fn pkglist(alloc: Global, table: &Table, filter: &Filter) -> Result<Vec<u8>, NoMemory>
    ensures { IfOk result (λ text. text.items ≡ package_list_of table.now filter.now.patterns) }
{
    let mut text = Vec::new(alloc);
    push_packages(&mut text, &table.packages(alloc)?, filter)?;
    Ok(text)
}
