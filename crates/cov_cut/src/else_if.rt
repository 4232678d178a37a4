//! Finds the `if`s that stand directly behind `else`.
ghost use Rattle.std.specs.Prelude.{◌≡◌, ◌++◌, IfOk, OnOk, map};
ghost use Rattle.std.specs.List.{flat_map};
ghost use Rattle.go_ast.specs.declared.block.StmtForm.{out-StmtForm};
ghost use Rattle.cov_cut.specs.Outline.{no_list, lists_in, lists_among, lists_behind, lists_along};
ghost use Rattle.cov_cut.specs.Outlining.{outline, body, clause_lists};
ghost use Rattle.cov_cut.specs.Layers.{outlines, block_layer, case_layer, comm_layer, other_layer, form_lists};
ghost use Rattle.cov_cut.specs.Units.{cut_in, func_lists};
ghost use Rattle.cov_cut.specs.Counted.{else_ifs_in, else_ifs_of};

use crate::file::is_cut;
use go_ast::{Block, CaseClause, CommClause, Decl, File, NoMemory, Other, Span, Stmt, StmtForm};
use std::alloc::Global;

/// The `if`s that stand directly behind `else` in the functions that are cut: each from the offset after that word up to
/// the end of the `if`.
pub fn else_ifs(alloc: Global, file: &File) -> Result<Vec<Span>, NoMemory>
    ensures { IfOk result (λ spans. spans.items ≡ else_ifs_of file.now) }
{
    let mut spans = Vec::new(alloc);
    for decl in file.decls.as_slice() {
        find_in_decl(&mut spans, decl)?;
    }
    Ok(spans)
}

fn find_in_decl(spans: &mut Vec<Span>, decl: &Decl) -> Result<(), NoMemory>
    ensures { OnOk result (spans.new.items ≡ spans.old.items ++ else_ifs_in (flat_map func_lists (cut_in decl.now))) }
{
    match decl {
        Decl::Func(f) if is_cut(f) => find_in_block(spans, &f.body),
        _ => Ok(()),
    }
}

#[cycle(branch)]
fn find_in_block(spans: &mut Vec<Span>, block: &Block) -> Result<(), NoMemory>
    ensures { OnOk result (spans.new.items ≡ spans.old.items ++ else_ifs_in (lists_along (body (block_layer block.now) no_list))) }
{
    find_in_list(spans, block.list.as_slice())
}

#[cycle(branch)]
fn find_in_other(spans: &mut Vec<Span>, other: &Other) -> Result<(), NoMemory>
    ensures { OnOk result (spans.new.items ≡ spans.old.items ++ else_ifs_in (lists_along (other_layer other.now))) }
{
    let block = &other.block;
    if block.hidden {
        spans.push(Span {
            start: other.after,
            end: block.right,
        })?;
    }
    find_in_list(spans, block.list.as_slice())
}

#[cycle(branch)]
fn find_in_list(spans: &mut Vec<Span>, list: &[Stmt]) -> Result<(), NoMemory>
    ensures { OnOk result (spans.new.items ≡ spans.old.items ++ else_ifs_in (lists_among (outlines list.now))) }
{
    for s in list {
        find(spans, s)?;
    }
    Ok(())
}

#[cycle(branch)]
fn find(spans: &mut Vec<Span>, s: &Stmt) -> Result<(), NoMemory>
    ensures { OnOk result (spans.new.items ≡ spans.old.items ++ else_ifs_in (lists_in (outline s.now))) }
{
    find_in_form(spans, &s.form)
}

#[cycle(branch)]
fn find_in_form(spans: &mut Vec<Span>, form: &StmtForm) -> Result<(), NoMemory>
    ensures { OnOk result (spans.new.items ≡ spans.old.items ++ else_ifs_in (form_lists (out-StmtForm form.now))) }
{
    match form {
        StmtForm::Block(body) => find_in_block(spans, body),
        StmtForm::For { body, .. } => find_in_block(spans, body),
        StmtForm::Range { body, .. } => find_in_block(spans, body),
        StmtForm::If { then, other, .. } => {
            find_in_block(spans, then)?;
            match other {
                Some(other) => find_in_other(spans, other),
                None => Ok(()),
            }
        }
        StmtForm::Switch { clauses, .. } => find_in_cases(spans, clauses.as_slice()),
        StmtForm::Select { clauses, .. } => find_in_comms(spans, clauses.as_slice()),
        StmtForm::Label(_, inner) => find(spans, inner.get()),
        _ => Ok(()),
    }
}

#[cycle(branch)]
fn find_in_cases(spans: &mut Vec<Span>, clauses: &[CaseClause]) -> Result<(), NoMemory>
    ensures { OnOk result (spans.new.items ≡ spans.old.items ++ else_ifs_in (lists_behind (clause_lists (map case_layer clauses.now)))) }
{
    for clause in clauses {
        find_in_list(spans, clause.list.as_slice())?;
    }
    Ok(())
}

#[cycle(branch)]
fn find_in_comms(spans: &mut Vec<Span>, clauses: &[CommClause]) -> Result<(), NoMemory>
    ensures { OnOk result (spans.new.items ≡ spans.old.items ++ else_ifs_in (lists_behind (clause_lists (map comm_layer clauses.now)))) }
{
    for clause in clauses {
        find_in_list(spans, clause.list.as_slice())?;
    }
    Ok(())
}
