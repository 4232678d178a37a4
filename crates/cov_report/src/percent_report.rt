//! The share of each package.
ghost use Rattle.std.specs.Prelude.{◌≡◌, ◌++◌, ◌∷◌, [], ℕ, List, ◌<◌, ◌^◌, IfOk, OnOk, T, drop};
ghost use Rattle.std.specs.FinMap as finmap;
ghost use Rattle.std.specs.List.{flat_map};
ghost use Rattle.std.specs.declared.cmp.Ordering.TheVariants.{Less};
ghost use Rattle.cov_table.specs.Key.{text_cmp, key_cmp};
ghost use Rattle.cov_table.specs.Package.{named_package};
ghost use Rattle.cov_report.specs.Packages.{kept_packages};
ghost use Rattle.cov_report.specs.Shares.{units_of, share_line, percent_line, percent_of};

use crate::filter::Filter;
use crate::share::{Share, push_share, share_of};
use cov_outside::NoMemory;
use cov_table::{Package, Packages, Table, Units};
use std::alloc::Global;

fn push_line(text: &mut Vec<u8>, path: &[u8], share: &Share) -> Result<(), NoMemory>
    requires { (share.now.statements < 2 ^ 100) × (share.now.covered < 2 ^ 100) }
    ensures { OnOk result (text.new.items ≡ text.old.items ++ share_line path.now share.now.covered share.now.statements) }
{
    text.push(b'\t')?;
    text.extend_from_slice(path)?;
    text.extend_from_slice(b"\t\tcoverage: ")?;
    push_share(text, share)?;
    text.push(b'\n')?;
    Ok(())
}

/// Appends the line of a package that is kept, whose units stand from a place on. The place moves behind them.
fn push_kept(
    text: &mut Vec<u8>,
    from: &Package<'_>,
    units: &Units<'_>,
    at: &mut usize,
    filter: &Filter,
) -> Result<(), NoMemory>
    requires sorted { T (finmap.is_sorted key_cmp units.now) }
    requires here { units_of from.now.path.now (drop at.old units.now) ≡ units_of from.now.path.now units.now }
    ensures line { OnOk result (text.new.items ≡ text.old.items ++ flat_map (percent_line units.now) (kept_packages filter.now.patterns (named_package from.now ∷ []))) }
    ensures later { (q : List ℕ) → text_cmp from.now.path.now q ≡ Less → units_of q (drop at.new units.now) ≡ units_of q (drop at.old units.now) }
{
    if filter.keeps(from.path) {
        let share = share_of(units, at, from.path);
        push_line(text, from.path, &share)?;
    }
    Ok(())
}

fn push_packages(
    text: &mut Vec<u8>,
    packages: &Packages<'_>,
    units: &Units<'_>,
    filter: &Filter,
) -> Result<(), NoMemory>
    requires packages_sorted { T (finmap.is_sorted text_cmp packages.now) }
    requires sorted { T (finmap.is_sorted key_cmp units.now) }
    ensures { OnOk result (text.new.items ≡ text.old.items ++ flat_map (percent_line units.now) (kept_packages filter.now.patterns packages.now)) }
{
    let mut at = 0;
    for i in 0..packages.len() {
        if let Some(package) = packages.get(i) {
            push_kept(text, &package, units, &mut at, filter)?;
        }
    }
    Ok(())
}

/// How much of each package's statements ran, in byte order of their paths, a line each.
pub fn percent(alloc: Global, table: &Table, filter: &Filter) -> Result<Vec<u8>, NoMemory>
    ensures { IfOk result (λ text. text.items ≡ percent_of table.now filter.now.patterns) }
{
    let mut text = Vec::new(alloc);
    let packages = table.packages(alloc)?;
    let units = table.units(alloc)?;
    push_packages(&mut text, &packages, &units, filter)?;
    Ok(text)
}
