//! Partners of goroutines, and which of a goroutine's clauses are ready.
ghost use Rattle.std.specs.Prelude.{◌≡◌, ◌<◌, ◌≤◌, length, IfSome};
ghost use Rattle.go_step.specs.Partners as spec;

use crate::heads::{acts, count_of_head, partner_way, way_of_head};
use crate::ways::{Way, goes_alone, meets};
use go_meaning::{Config, Program};

/// A goroutine's index, and the clause of its `select`, from 1, or 0.
#[derive(Clone, Copy, Debug, PartialEq, Eq)]
pub struct Partner {
    pub index: u16,
    pub case: u16,
}

#[tactic(auto, unfolding(crate::specs::Partners::joins))]
fn joins(config: &Config, program: &Program, index: usize, way: Way, other: u16, case: u16) -> bool
    ensures { result ≡ spec.joins program.now config.now index way other case }
{
    index != other as usize
        && meets(
            config,
            way,
            partner_way(config, program, other as usize, case),
        )
}

// The first clause in which another goroutine is a partner.
fn case_of(config: &Config, program: &Program, index: usize, way: Way, other: u16) -> Option<u16>
    ensures { spec.IsFirstCase program.now config.now index way other result }
{
    let count = count_of_head(config, program, other as usize);
    for case in 0..count {
        if joins(config, program, index, way, other, case) {
            return Some(case);
        }
    }
    None
}

/// The first partner of a goroutine that does this with a channel.
pub fn partner_of(config: &Config, program: &Program, index: usize, way: Way) -> Option<Partner>
    requires few { length config.now.goroutines ≤ 256 }
    ensures first { spec.IsFirstPartner program.now config.now index way result }
    ensures there { IfSome result (λ p. p.index < length config.now.goroutines) }
{
    let count = config.goroutines.len() as u16;
    for other in 0..count {
        if let Some(case) = case_of(config, program, index, way, other) {
            return Some(Partner { index: other, case });
        }
    }
    None
}

// Whether a clause that does this with a channel goes on. A default clause is not looked at.
#[tactic(auto, using(crate::proofs::Partnership::ready_alone, crate::proofs::Partnership::ready_joined, crate::proofs::Partnership::not_ready))]
fn is_ready(config: &Config, program: &Program, index: usize, way: Way) -> bool
    requires few { length config.now.goroutines ≤ 256 }
    ensures { spec.IsWayReady program.now config.now index way result }
{
    if goes_alone(config, way) {
        return true;
    }
    match partner_of(config, program, index, way) {
        Some(_) => true,
        None => false,
    }
}

/// Whether a clause goes on, so that a default clause does not.
pub fn any_ready(config: &Config, program: &Program, index: usize) -> bool
    requires few { length config.now.goroutines ≤ 256 }
    ensures { result ≡ spec.any_ready program.now config.now index }
{
    let count = count_of_head(config, program, index);
    for case in 0..count {
        if is_ready(
            config,
            program,
            index,
            way_of_head(config, program, index, case),
        ) {
            return true;
        }
    }
    false
}

/// Whether a clause, from 1, or a plain operation, 0, goes on without a partner.
fn lone_goes(config: &Config, program: &Program, index: usize, case: u16) -> bool
    requires few { length config.now.goroutines ≤ 256 }
    ensures { result ≡ spec.lone_goes program.now config.now index case }
{
    match way_of_head(config, program, index, case) {
        Way::Default => !any_ready(config, program, index),
        way => goes_alone(config, way),
    }
}

/// Whether the goroutine with an index has a step alone, in a clause of its `select`, from 1, or else with 0.
#[tactic(auto, using(crate::proofs::Partnership::goes_is))]
pub fn goes(config: &Config, program: &Program, index: usize, case: u16) -> bool
    requires few { length config.now.goroutines ≤ 256 }
    ensures { result ≡ spec.goes program.now config.now index case }
{
    if lone_goes(config, program, index, case) {
        return true;
    }
    if case == 0 {
        acts(config, program, index)
    } else {
        false
    }
}
