//! Reading pods one after the other.
ghost use Rattle.std.specs.Prelude.{◌≡◌, ◌+◌, ◌-◌, ◌^◌, ◌≤◌, IfOk, IfSome, OnOk, Some, min, sum_by, length};
ghost use Rattle.cov_pods.specs.Paths.{HasTextPaths};
ghost use Rattle.cov_pods.specs.Decoding.{decoded};
ghost use Rattle.gocov_tools.specs.Outside.{CountsRead};
ghost use Rattle.gocov_tools.specs.Reading as spec;
ghost use Rattle.gocov_tools.specs.Reading.{mode_of, clash_of, from_pod, package_units, units_of, HasFewUnits, pod_in, nothing_read};
ghost use Rattle.gocov_tools.specs.Refusals.{Gives, Decides, within};
ghost use Rattle.gocov_tools.specs.Modes.{IsInMode, KeepsMode, TellsMode};

use crate::refusal::Refusal;
use cov_meta::{Meta, MetaFunction};
use cov_outside::{Files, Mode, NoMemory, Text, Which};
use cov_pods::{DecodedPod, Pod, PodFault, decode_pod};
use std::alloc::Global;

/// The most units that the meta files of a command have together.
const MOST_UNITS: u64 = 1_048_576;

/// The meta file that was read first: its path and its mode, which all others have to have.
#[derive(Debug, Drop)]
pub struct FirstMeta {
    pub path: Text,
    pub mode: Mode,
}

/// What was read so far: the first meta file, and how many units there are in all.
#[derive(Debug, Drop)]
pub struct Reading {
    pub first: Option<FirstMeta>,
    pub units: u64,
}

impl Reading {
    pub fn new() -> Reading
        ensures { result ≡ nothing_read }
    {
        Reading {
            first: None,
            units: 0,
        }
    }

    /// The mode that a meta file has to have.
    fn mode(&self) -> Option<Mode>
        ensures { result ≡ mode_of self.now.first }
    {
        match &self.first {
            None => None,
            Some(first) => Some(first.mode),
        }
    }
}

/// The refusal of a meta file whose mode isn't that of the first.
fn clash(first: &Option<FirstMeta>, pod: &Pod, mode: Mode) -> Result<Refusal, NoMemory>
    ensures { IfOk result (λ refusal. refusal ≡ clash_of first.now pod.now mode) }
{
    let (path, first_mode) = match first {
        None => (&pod.meta, mode),
        Some(first) => (&first.path, first.mode),
    };
    Ok(Refusal::ModeClash {
        first: path.clone()?,
        first_mode,
        second: pod.meta.clone()?,
        second_mode: mode,
    })
}

/// Whether a mode is that of the first meta file, if there is one.
fn is_in_mode(first: &Option<FirstMeta>, mode: Mode) -> bool
    ensures { TellsMode result first.now mode }
{
    match first {
        None => true,
        Some(first) => first.mode == mode,
    }
}

/// The functions' units, up to the greatest number of 64 bits.
fn units_of_functions(functions: &[MetaFunction]) -> u64
    ensures { result ≡ min (sum_by (λ f. length f.units) functions.now) (2 ^ 64 - 1) }
{
    let mut units: u64 = 0;
    for function in functions {
        units = units.saturating_add(function.units.len() as u64);
    }
    units
}

/// The units of a meta file, up to the greatest number of 64 bits.
pub fn count_units(meta: &Meta) -> u64
    ensures { result ≡ min (units_of meta.now) (2 ^ 64 - 1) }
{
    let mut units: u64 = 0;
    for package in meta.packages.as_slice() {
        units = units.saturating_add(units_of_functions(package.functions.as_slice()));
    }
    units
}

/// How many units there are with those of a meta file.
fn with_units(units: u64, meta: &Meta) -> Result<u64, Refusal>
    ensures told { Decides (λ n. n) result (within Which.Units (units + units_of meta.now)) }
    ensures small { OnOk result (units_of meta.now ≤ 1048576) }
{
    let units = units.saturating_add(count_units(meta));
    if units > MOST_UNITS {
        return Err(Refusal::Limit(Which::Units));
    }
    Ok(units)
}

/// Notes a meta file as the first, where none was read before it.
fn note_first(first: &mut Option<FirstMeta>, pod: &Pod, mode: Mode) -> Result<(), NoMemory>
    ensures { OnOk result (first.new ≡ Some (spec.first_of first.old pod.now mode)) }
{
    if first.is_none() {
        *first = Some(FirstMeta {
            path: pod.meta.clone()?,
            mode,
        });
    }
    Ok(())
}

/// Reads a pod in the mode of the first.
fn decode<F: Files>(
    alloc: Global,
    files: &mut F,
    pod: &Pod,
    reading: &Reading,
) -> Result<DecodedPod, Refusal>
    requires { HasTextPaths pod.now }
    ensures told { IfSome (F.tree files.old) (λ t. Gives (λ read. read) result (from_pod reading.now.first pod.now (decoded t pod.now (mode_of reading.now.first)))) }
    ensures mode { IfOk result (λ read. IsInMode reading.now.first read.file.meta.mode) }
    ensures same { F.tree files.new ≡ F.tree files.old }
    ensures cause { CountsRead (F.read_faults files.old) (F.read_faults files.new) result }
    ensures puts { F.put_faults files.new ≡ F.put_faults files.old }
{
    match decode_pod(alloc, files, pod, reading.mode()) {
        Ok(read) => {
            // Only for files that tell their contents is it promised that the mode is the wanted one.
            let mode = read.file.meta.mode;
            if is_in_mode(&reading.first, mode) {
                Ok(read)
            } else {
                Err(clash(&reading.first, pod, mode)?)
            }
        }
        Err(PodFault::Mode(mode)) => Err(clash(&reading.first, pod, mode)?),
        Err(PodFault::Data { path, offset, kind }) => Err(Refusal::Data { path, offset, kind }),
        Err(PodFault::Limit(which)) => Err(Refusal::Limit(which)),
        Err(PodFault::Missing { path }) => Err(Refusal::Missing { path }),
        Err(PodFault::Read) => Err(Refusal::Read),
        Err(PodFault::NoMemory) => Err(Refusal::NoMemory),
    }
}

/// Reads the next pod, which has to have the mode of the first and not too many units.
#[tactic(auto, unfolding(crate::specs::Reading::pod_in))]
pub fn read_pod<F: Files>(
    alloc: Global,
    files: &mut F,
    pod: &Pod,
    reading: &mut Reading,
) -> Result<DecodedPod, Refusal>
    requires { HasTextPaths pod.now }
    ensures told { IfSome (F.tree files.old) (λ t. Gives (λ read. (read, reading.new)) result (pod_in t pod.now reading.old)) }
    ensures mode { IfOk result (λ read. mode_of reading.new.first ≡ Some read.file.meta.mode) }
    ensures first { OnOk result (KeepsMode reading.old.first reading.new.first) }
    ensures small { IfOk result (λ read. HasFewUnits read) }
    ensures same { F.tree files.new ≡ F.tree files.old }
    ensures cause { CountsRead (F.read_faults files.old) (F.read_faults files.new) result }
    ensures puts { F.put_faults files.new ≡ F.put_faults files.old }
{
    let read = decode(alloc, files, pod, reading)?;
    reading.units = with_units(reading.units, &read.file.meta)?;
    note_first(&mut reading.first, pod, read.file.meta.mode)?;
    Ok(read)
}
