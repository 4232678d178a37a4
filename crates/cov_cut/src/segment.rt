//! Cuts one list of statements.
ghost use Rattle.std.specs.Prelude.{◌≡◌, ◌++◌, ◌<◌, ◌≤◌, ◌^◌, length, OnOk, map};
ghost use Rattle.std.specs.List.{flat_map, list_any};
ghost use Rattle.cov_cut.specs.Layers.{mark, first_length};
ghost use Rattle.cov_cut.specs.Units as spec;

use crate::frame::Frame;
use crate::statement::{boundary, breaks};
use crate::unit::Unit;
use go_ast::{NoMemory, Stmt};
use sqlite_items::Items;

/// Appends the units of a list.
pub fn cut_list(units: &mut Items<Unit>, frame: Frame, list: &[Stmt]) -> Result<(), NoMemory>
    requires { length list.now < 2 ^ 32 }
    ensures { OnOk result (units.new ≡ units.old ++ spec.list_units frame (map mark list.now)) }
{
    if list.is_empty() {
        return units.push(Unit {
            start: frame.empty,
            end: frame.end,
            insert: frame.insert,
            statements: 0,
        });
    }
    let (first, later) = list.split_at(segment_len(list));
    push_segment(
        units,
        frame.start,
        first_end(frame, first),
        frame.insert,
        first,
    )?;
    cut_later(units, later)
}

/// Appends the units of the segments after the first.
fn cut_later(units: &mut Items<Unit>, list: &[Stmt]) -> Result<(), NoMemory>
    requires { length list.now < 2 ^ 32 }
    ensures { OnOk result (units.new ≡ units.old ++ flat_map spec.later_unit (spec.segments (map mark list.now))) }
{
    let mut rest = list;
    while let [first, ..] = rest {
        let start = first.span.start;
        let (segment, more) = rest.split_at(segment_len(rest));
        push_segment(units, start, last_boundary(segment), start, segment)?;
        rest = more;
    }
    Ok(())
}

/// Appends the unit of a segment, unless it ends where it starts.
fn push_segment(
    units: &mut Items<Unit>,
    start: u32,
    end: u32,
    insert: u32,
    segment: &[Stmt],
) -> Result<(), NoMemory>
    requires { length segment.now < 2 ^ 32 }
    ensures { OnOk result (units.new ≡ units.old ++ spec.unit start end insert (length segment.now)) }
{
    if start == end {
        return Ok(());
    }
    units.push(Unit {
        start,
        end,
        insert,
        statements: segment.len() as u32,
    })
}

/// The number of statements in the first segment.
fn segment_len(list: &[Stmt]) -> usize
    ensures len { result ≡ first_length (map mark list.now) }
    ensures within { result ≤ length list.now }
{
    let mut len = 0;
    for s in list {
        len += 1;
        if breaks(s) {
            return len;
        }
    }
    len
}

/// Where the first segment ends.
#[tactic(auto, using(crate::proofs::Segments::has_breaker_map))]
fn first_end(frame: Frame, segment: &[Stmt]) -> u32
    ensures { result ≡ spec.first_end frame (map mark segment.now) }
{
    if frame.extends && !has_breaker(segment) {
        frame.end
    } else {
        last_boundary(segment)
    }
}

fn has_breaker(segment: &[Stmt]) -> bool
    ensures { result ≡ list_any (λ s. (mark s).breaks) segment.now }
{
    segment.iter().any(|s| breaks(s))
}

/// Where the last statement has its boundary; 0 if there is none.
fn last_boundary(segment: &[Stmt]) -> u32
    ensures { result ≡ spec.boundary_of (map mark segment.now) }
{
    match segment {
        [.., last] => boundary(last),
        [] => 0,
    }
}
