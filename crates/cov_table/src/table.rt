//! Tables.
ghost use Rattle.std.specs.Prelude.{◌≡◌, ◌++◌, Some, IfOk, IfSome, OnErr, OnOk};
ghost use Rattle.std.specs.FinMap as finmap;
ghost use Rattle.cov_table.specs.Coverage.{empty, with_pod, merged};
ghost use Rattle.cov_table.specs.Operations.{kept_where, subtracted, intersected};
ghost use Rattle.cov_table.specs.Keeping.{passes};
ghost use Rattle.cov_table.specs.PodOf.{pod_of};
ghost use Rattle.cov_table.specs.PodLaws.{decoded};
ghost use Rattle.cov_table.specs.Refusal.{ClashesExactly};

use crate::gather::{Gathered, gather_pod, mode_of};
use crate::keep::{Keeps, kept_rows};
use crate::package_order::{packages_in_order, settle_packages};
use crate::packages::Packages;
use crate::pod_out::{PodOut, pod_from};
use crate::refusal::{TableRefusal, agree};
use crate::renumber::gather_rows;
use crate::row::{PackageRow, Row};
use crate::settle::{rows_in_order, settle};
use crate::units::Units;
use cov_bytes::StringTable;
use cov_outside::{Mode, NoMemory};
use cov_pods::DecodedPod;
use std::alloc::Global;
use std::marker::Model;

/// A count for each unit, in the mode of the first pod, and the packages by their paths.
///
/// Rows are added without order. They are sorted and combined before they are read, and whenever those added since
/// outnumber the others, so that many pods with equal units take the memory of one.
#[derive(Debug, Drop)]
pub struct Table {
    alloc: Global,
    mode: Option<Mode>,
    texts: StringTable,
    rows: Vec<Row>,
    /// How many rows there were when they were combined last.
    settled: usize,
    packages: Vec<PackageRow>,
    settled_packages: usize,
}

impl Model for Table {
    ghost use Rattle.cov_table.specs.Coverage.{Coverage, coverage_code};

    ghost Value = { Coverage };

    ghost coded = { coverage_code };

    ghost use Rattle.cov_table.specs.Rows.{coverage_of, IsTable};

    ghost view = { λ t. coverage_of t.mode t.texts t.rows.items t.packages.items };

    ghost invariant = { λ t. IsTable t.mode t.texts t.rows.items t.packages.items };
}

/// Appends both kinds of rows, or none.
fn append(
    rows: &mut Vec<Row>,
    packages: &mut Vec<PackageRow>,
    mut more: Gathered,
) -> Result<(), NoMemory>
    ensures rows { OnOk result (rows.new.items ≡ rows.old.items ++ more.rows.items) }
    ensures packages { OnOk result (packages.new.items ≡ packages.old.items ++ more.packages.items) }
    ensures rows_kept { OnErr result (rows.new.items ≡ rows.old.items) }
    ensures packages_kept { OnErr result (packages.new.items ≡ packages.old.items) }
{
    let count = packages.len();
    packages.append(&mut more.packages)?;
    let appended = rows.append(&mut more.rows);
    if appended.is_err() {
        packages.truncate(count);
    }
    appended
}

impl Table {
    /// A table without a mode and without units.
    pub fn new(alloc: Global) -> Table
        ensures { result ≡ empty }
    {
        Table {
            alloc,
            mode: None,
            texts: StringTable::new(alloc),
            rows: Vec::new(alloc),
            settled: 0,
            packages: Vec::new(alloc),
            settled_packages: 0,
        }
    }

    /// The mode of the pods that were added.
    pub fn mode(&self) -> Option<Mode>
        ensures { result ≡ self.now.mode }
    {
        self.mode
    }

    /// Adds the counts of a pod. After a refusal the table is as before.
    pub fn add_pod(&mut self, pod: &DecodedPod) -> Result<(), TableRefusal>
        ensures ok { OnOk result (self.new ≡ with_pod self.old pod.now) }
        ensures clash { ClashesExactly result self.old.mode (Some pod.now.file.meta.mode) }
        ensures err { OnErr result (self.new ≡ self.old) }
    {
        let mode = mode_of(pod);
        agree(self.mode, Some(mode))?;
        self.settle()?;
        let more = gather_pod(self.alloc, &mut self.texts, pod)?;
        append(&mut self.rows, &mut self.packages, more)?;
        self.mode = Some(mode);
        Ok(())
    }

    /// Adds the counts and packages of another table. After a refusal the table is as before.
    pub fn merge(&mut self, other: &Table) -> Result<(), TableRefusal>
        ensures ok { OnOk result (self.new ≡ merged self.old other.now) }
        ensures clash { ClashesExactly result self.old.mode other.now.mode }
        ensures err { OnErr result (self.new ≡ self.old) }
    {
        agree(self.mode, other.mode)?;
        let Some(mode) = other.mode else {
            return Ok(());
        };
        self.settle()?;
        let more = gather_rows(
            self.alloc,
            &mut self.texts,
            &other.texts,
            &other.rows,
            &other.packages,
        )?;
        append(&mut self.rows, &mut self.packages, more)?;
        self.mode = Some(mode);
        Ok(())
    }

    /// Keeps each count where the other table's is 0 or has no such unit; the others become 0. The units and packages
    /// of this table stay. After a refusal the table is as before.
    pub fn subtract(&mut self, other: &Table) -> Result<(), TableRefusal>
        ensures ok { OnOk result (self.new ≡ subtracted self.old other.now) }
        ensures clash { ClashesExactly result self.old.mode other.now.mode }
        ensures err { OnErr result (self.new ≡ self.old) }
    {
        self.keep(other, Keeps::WhereZero)
    }

    /// Keeps each count where the other table's isn't 0; the others become 0. The units and packages of this table
    /// stay. After a refusal the table is as before.
    pub fn intersect(&mut self, other: &Table) -> Result<(), TableRefusal>
        ensures ok { OnOk result (self.new ≡ intersected self.old other.now) }
        ensures clash { ClashesExactly result self.old.mode other.now.mode }
        ensures err { OnErr result (self.new ≡ self.old) }
    {
        self.keep(other, Keeps::WhereCounted)
    }

    /// Keeps the counts where the other table's pass a test.
    fn keep(&mut self, other: &Table, keeps: Keeps) -> Result<(), TableRefusal>
        ensures ok { OnOk result (self.new ≡ kept_where (passes keeps) self.old other.now) }
        ensures clash { ClashesExactly result self.old.mode other.now.mode }
        ensures err { OnErr result (self.new ≡ self.old) }
    {
        agree(self.mode, other.mode)?;
        let others = rows_in_order(self.alloc, other.mode, &other.texts, &other.rows)?;
        let others = gather_rows(self.alloc, &mut self.texts, &other.texts, &others, &[])?;
        self.rows = kept_rows(self.alloc, &self.texts, &self.rows, &others.rows, keeps)?;
        Ok(())
    }

    /// Combines the rows where those added since the last time outnumber the others.
    fn settle(&mut self) -> Result<(), NoMemory>
        ensures { self.new ≡ self.old }
    {
        let Some(mode) = self.mode else {
            return Ok(());
        };
        settle(
            self.alloc,
            mode,
            &self.texts,
            &mut self.rows,
            &mut self.settled,
        )?;
        settle_packages(
            self.alloc,
            &self.texts,
            &mut self.packages,
            &mut self.settled_packages,
        )
    }

    /// The units in order with their counts.
    pub fn units(&self, alloc: Global) -> Result<Units<'_>, NoMemory>
        ensures { IfOk result (λ units. units ≡ finmap.entries self.now.counts) }
    {
        let rows = rows_in_order(alloc, self.mode, &self.texts, &self.rows)?;
        Ok(Units::new(&self.texts, rows))
    }

    /// The packages in the order of their paths.
    pub fn packages(&self, alloc: Global) -> Result<Packages<'_>, NoMemory>
        ensures { IfOk result (λ packages. packages ≡ finmap.entries self.now.packages) }
    {
        let packages = packages_in_order(alloc, &self.texts, &self.packages)?;
        Ok(Packages::new(&self.texts, packages))
    }

    /// The pod that the table makes: its packages by path, their functions in the order of their first units, the units
    /// of each in order, and an entry for each function with a count that isn't 0. None exactly for an empty table.
    /// The empty table with this pod is the table again.
    pub fn to_pod(&self, alloc: Global) -> Result<Option<PodOut>, NoMemory>
        ensures pod { IfOk result (λ pod. pod ≡ pod_of self.now) }
        ensures decodes { IfOk result (λ pod. IfSome pod (λ made. decoded made ≡ self.now)) }
    {
        let Some(mode) = self.mode else {
            return Ok(None);
        };
        let rows = rows_in_order(alloc, self.mode, &self.texts, &self.rows)?;
        let packages = packages_in_order(alloc, &self.texts, &self.packages)?;
        Ok(Some(pod_from(alloc, mode, &self.texts, &rows, &packages)?))
    }
}
