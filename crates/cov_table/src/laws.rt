//! What tables hold, key by key.
ghost use Rattle.cov_table.specs.Laws.{CountsAreSums, PackagesAreFirsts, MergedWithItself, SubtractedByKey, IntersectedByKey};
ghost use Rattle.cov_table.specs.PodLaws.{PodIsTable};

/// The count of a key is the combination of all its counts, and the package of a path the first.
pub fn counts_and_packages_by_key()
    ensures counts { CountsAreSums }
    ensures packages { PackagesAreFirsts }
{}

/// What the operations on two tables leave of the first table's counts. A table merged with itself never wraps.
pub fn operations_by_key()
    ensures merged_with_itself { MergedWithItself }
    ensures subtracted { SubtractedByKey }
    ensures intersected { IntersectedByKey }
{}

/// The pod of a table decodes to the table.
pub fn pod_is_table()
    ensures { PodIsTable }
{}
