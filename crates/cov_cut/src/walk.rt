//! Cuts the lists inside statements.
ghost use Rattle.std.specs.Prelude.{◌≡◌, ◌++◌, All, OnOk, map};
ghost use Rattle.go_ast.specs.declared.block.StmtForm.{out-StmtForm};
ghost use Rattle.cov_cut.specs.Outline.{no_list, heads, lists_in, lists_among, lists_behind, lists_along};
ghost use Rattle.cov_cut.specs.Outlining.{outline, body, clause_lists};
ghost use Rattle.cov_cut.specs.Layers.{outlines, block_layer, case_layer, comm_layer, kind_after, other_layer, form_lists};
ghost use Rattle.cov_cut.specs.Units.{frame, units_in, FrameFits, Fits};

use crate::frame::Frame;
use crate::segment::cut_list;
use crate::unit::Unit;
use go_ast::{Block, CaseClause, CommClause, NoMemory, Other, Stmt, StmtForm};
use sqlite_items::Items;

/// Appends the units of a block and of the lists in its statements.
#[cycle(walk)]
pub fn cut_block(units: &mut Items<Unit>, block: &Block) -> Result<(), NoMemory>
    requires fits { All Fits (lists_along (body (block_layer block.now) no_list)) }
    ensures { OnOk result (units.new ≡ units.old ++ units_in (lists_along (body (block_layer block.now) no_list))) }
{
    let list = block.list.as_slice();
    cut_list(units, Frame::braces(block.left, block.right), list)?;
    walk_list(units, list)
}

/// Appends the units of what stands after `else`.
#[cycle(walk)]
fn cut_other(units: &mut Items<Unit>, other: &Other) -> Result<(), NoMemory>
    requires fits { All Fits (lists_along (other_layer other.now)) }
    ensures { OnOk result (units.new ≡ units.old ++ units_in (lists_along (other_layer other.now))) }
{
    let list = other.block.list.as_slice();
    cut_list(units, other_frame(other), list)?;
    walk_list(units, list)
}

fn other_frame(other: &Other) -> Frame
    requires { FrameFits (frame (kind_after other.now)) }
    ensures { result ≡ frame (kind_after other.now) }
{
    let block = &other.block;
    if block.hidden {
        Frame::else_if(other.after, block.right)
    } else {
        Frame::else_braces(other.after, block.left, block.right)
    }
}

/// Appends the units of the lists in statements, statement by statement.
#[cycle(walk)]
fn walk_list(units: &mut Items<Unit>, list: &[Stmt]) -> Result<(), NoMemory>
    requires fits { All Fits (lists_among (outlines list.now)) }
    ensures { OnOk result (units.new ≡ units.old ++ units_in (lists_among (outlines list.now))) }
{
    for s in list {
        walk(units, s)?;
    }
    Ok(())
}

/// Appends the units of the lists in a statement.
#[cycle(walk)]
fn walk(units: &mut Items<Unit>, s: &Stmt) -> Result<(), NoMemory>
    requires fits { All Fits (lists_in (outline s.now)) }
    ensures { OnOk result (units.new ≡ units.old ++ units_in (lists_in (outline s.now))) }
{
    walk_form(units, &s.form)
}

#[cycle(walk)]
fn walk_form(units: &mut Items<Unit>, form: &StmtForm) -> Result<(), NoMemory>
    requires fits { All Fits (form_lists (out-StmtForm form.now)) }
    ensures { OnOk result (units.new ≡ units.old ++ units_in (form_lists (out-StmtForm form.now))) }
{
    match form {
        StmtForm::Block(body) => cut_block(units, body),
        StmtForm::For { body, .. } => cut_block(units, body),
        StmtForm::Range { body, .. } => cut_block(units, body),
        StmtForm::If { then, other, .. } => {
            cut_block(units, then)?;
            match other {
                Some(other) => cut_other(units, other),
                None => Ok(()),
            }
        }
        StmtForm::Switch { clauses, .. } => {
            let list = clauses.as_slice();
            cut_cases(units, list)?;
            walk_cases(units, list)
        }
        StmtForm::Select { clauses, .. } => {
            let list = clauses.as_slice();
            cut_comms(units, list)?;
            walk_comms(units, list)
        }
        StmtForm::Label(_, inner) => walk(units, inner.get()),
        _ => Ok(()),
    }
}

/// Appends the units of the clauses' own lists.
fn cut_cases(units: &mut Items<Unit>, clauses: &[CaseClause]) -> Result<(), NoMemory>
    requires fits { All Fits (heads (clause_lists (map case_layer clauses.now))) }
    ensures { OnOk result (units.new ≡ units.old ++ units_in (heads (clause_lists (map case_layer clauses.now)))) }
{
    for clause in clauses {
        cut_list(units, Frame::clause(clause.colon), clause.list.as_slice())?;
    }
    Ok(())
}

/// Appends the units of the lists in the clauses' statements.
#[cycle(walk)]
fn walk_cases(units: &mut Items<Unit>, clauses: &[CaseClause]) -> Result<(), NoMemory>
    requires fits { All Fits (lists_behind (clause_lists (map case_layer clauses.now))) }
    ensures { OnOk result (units.new ≡ units.old ++ units_in (lists_behind (clause_lists (map case_layer clauses.now)))) }
{
    for clause in clauses {
        walk_list(units, clause.list.as_slice())?;
    }
    Ok(())
}

fn cut_comms(units: &mut Items<Unit>, clauses: &[CommClause]) -> Result<(), NoMemory>
    requires fits { All Fits (heads (clause_lists (map comm_layer clauses.now))) }
    ensures { OnOk result (units.new ≡ units.old ++ units_in (heads (clause_lists (map comm_layer clauses.now)))) }
{
    for clause in clauses {
        cut_list(units, Frame::clause(clause.colon), clause.list.as_slice())?;
    }
    Ok(())
}

#[cycle(walk)]
fn walk_comms(units: &mut Items<Unit>, clauses: &[CommClause]) -> Result<(), NoMemory>
    requires fits { All Fits (lists_behind (clause_lists (map comm_layer clauses.now))) }
    ensures { OnOk result (units.new ≡ units.old ++ units_in (lists_behind (clause_lists (map comm_layer clauses.now)))) }
{
    for clause in clauses {
        walk_list(units, clause.list.as_slice())?;
    }
    Ok(())
}
