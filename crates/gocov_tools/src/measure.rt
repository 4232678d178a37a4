//! The limits that the files of a pod have to keep before it is written.
ghost use Rattle.std.specs.Prelude.{◌≡◌, ◌&&◌, IfOk, OnOk, length};
ghost use Rattle.cov_meta.specs.Written.{KeepsLimits};
ghost use Rattle.gocov_tools.specs.Measure.{AddsPackage, AreTotals, judged, measured, names_within, saturated};
ghost use Rattle.gocov_tools.specs.Refusals.{Decides};
ghost use Rattle.gocov_tools.specs.Refusals as refusals;

use crate::package_texts::{both, texts_of};
use crate::reading::count_units;
use crate::refusal::Refusal;
use cov_meta::{Meta, MetaPackage};
use cov_outside::{NoMemory, Which};
use std::alloc::Global;

/// A quantity, which may not pass its limit.
pub fn within(which: Which, quantity: u64) -> Result<u64, Refusal>
    ensures { Decides (λ q. q) result (refusals.within which quantity) }
{
    if quantity > u64::from(which.number()) {
        return Err(Refusal::Limit(which));
    }
    Ok(quantity)
}

/// How many functions and texts packages have, the bytes of the texts, each up to the greatest number of 64 bits, and
/// whether no text has too many bytes.
#[derive(Clone, Copy, Debug, PartialEq, Eq)]
pub struct Totals {
    pub functions: u64,
    pub texts: u64,
    pub bytes: u64,
    pub short: bool,
}

/// The totals with those of one more package.
fn with_package(alloc: Global, totals: Totals, package: &MetaPackage) -> Result<Totals, NoMemory>
    ensures { IfOk result (λ new. AddsPackage totals «package».now new) }
{
    let texts = texts_of(alloc, package)?;
    Ok(Totals {
        functions: totals
            .functions
            .saturating_add(package.functions.len() as u64),
        texts: totals.texts.saturating_add(texts.table.len() as u64),
        bytes: totals.bytes.saturating_add(texts.bytes),
        short: both(totals.short, texts.short),
    })
}

/// The totals of packages.
#[tactic(auto, using(crate::proofs::Gathered::more_packages))]
fn totals_of(alloc: Global, packages: &[MetaPackage]) -> Result<Totals, NoMemory>
    ensures { IfOk result (AreTotals packages.now) }
{
    let mut totals = Totals {
        functions: 0,
        texts: 0,
        bytes: 0,
        short: true,
    };
    for package in packages {
        totals = with_package(alloc, totals, package)?;
    }
    Ok(totals)
}

fn count_packages(packages: &[MetaPackage]) -> u64
    ensures { result ≡ saturated (length packages.now) }
{
    packages.len() as u64
}

/// No text has too many bytes.
fn check_names(short: bool) -> Result<(), Refusal>
    ensures { Decides (λ _. tt) result (names_within short) }
{
    if short {
        Ok(())
    } else {
        Err(Refusal::Limit(Which::NameBytes))
    }
}

/// Compares with each limit in turn.
#[tactic(auto, unfolding(crate::specs::Measure::judged))]
fn judge(packages: u64, units: u64, totals: &Totals) -> Result<(), Refusal>
    ensures { Decides (λ _. tt) result (judged packages units totals.now) }
{
    within(Which::Packages, packages)?;
    within(Which::Functions, totals.functions)?;
    within(Which::Units, units)?;
    within(Which::Strings, totals.texts)?;
    check_names(totals.short)?;
    within(Which::StringBytes, totals.bytes)?;
    Ok(())
}

/// Measures a meta value.
pub fn measure(alloc: Global, meta: &Meta) -> Result<(), Refusal>
    ensures told { Decides (λ _. tt) result (measured meta.now) }
    ensures keeps { OnOk result (KeepsLimits meta.now) }
{
    let packages = meta.packages.as_slice();
    let totals = totals_of(alloc, packages)?;
    judge(count_packages(packages), count_units(meta), &totals)
}
