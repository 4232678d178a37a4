//! How often each unit of a meta value was counted.
ghost use Rattle.std.specs.Prelude.{◌≡◌, ℕ, ◌<◌, [], ◌∷◌, length, map, replicate, slice_index, IfOk};
ghost use Rattle.cov_outside.specs.Mode.{combined};
ghost use Rattle.cov_pods.specs.PodCounts.{pod_counts, IsCounted, Grows};
ghost use Rattle.cov_pods.specs.Fits.{fits};

use cov_counter::Entry;
use cov_meta::{Meta, MetaPackage};
use cov_outside::{Mode, NoMemory, Sequence};
use std::alloc::Global;

/// The count of each unit, by package and function.
pub type Counts = Sequence<Sequence<Sequence<u32>>>;

fn package_zeros(alloc: Global, package: &MetaPackage) -> Result<Sequence<Sequence<u32>>, NoMemory>
    ensures { IfOk result (λ counts. counts ≡ map (λ f. replicate (length f.units) 0) «package».now.functions) }
{
    let mut counts = Sequence::new(alloc);
    for function in package.functions.as_slice() {
        let units = function.units.len();
        let zeros = vec![in alloc; 0; units]?;
        counts.push(Sequence::from_vec(zeros))?;
    }
    Ok(counts)
}

/// The counts before any entry: 0 for each unit.
pub fn zeros(alloc: Global, meta: &Meta) -> Result<Counts, NoMemory>
    ensures { IfOk result (λ counts. counts ≡ pod_counts meta.now []) }
{
    let mut counts = Sequence::new(alloc);
    for package in meta.packages.as_slice() {
        counts.push(package_zeros(alloc, package)?)?;
    }
    Ok(counts)
}

/// The counts of a function and its counters together, by the rule of the mode.
fn combined_counts(mode: Mode, counts: Sequence<u32>, counters: &[u32]) -> Sequence<u32>
    requires { length counts ≡ length counters.now }
    ensures same { length result ≡ length counts }
    ensures each { (k : ℕ) → k < length counts → slice_index result k ≡ combined mode (slice_index counts k) (slice_index counters.now k) }
{
    let mut sums = counts.into_vec();
    for (i, count) in sums.iter_mut().enumerate() {
        *count = mode.combine(*count, counters[i]);
    }
    Sequence::from_vec(sums)
}

/// Adds an entry that fits to the counts of its function.
pub fn add_entry(alloc: Global, meta: &Meta, counts: &mut Counts, entry: &Entry)
    requires fitting { fits meta.now entry.now ≡ Ok tt }
    requires counted { IsCounted meta.now counts.old }
    ensures { Grows meta.now counts.old counts.new (entry.now ∷ []) }
{
    let package = entry.package as usize;
    let function = entry.function as usize;
    let mut functions = counts.replace(package, Sequence::new(alloc));
    let units = functions.replace(function, Sequence::new(alloc));
    let sums = combined_counts(meta.mode, units, entry.counts.as_slice());
    let _no_units = functions.replace(function, sums);
    let _no_functions = counts.replace(package, functions);
}
