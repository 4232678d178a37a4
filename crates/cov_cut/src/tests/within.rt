//! Whether a tree can be cut.
ghost use Rattle.std.specs.Prelude.{◌≡◌, ◌≤◌, ◌<◌, ◌^◌, ◌+◌, true, All, length, map};
ghost use Rattle.go_ast.specs.declared.block.StmtForm.{out-StmtForm};
ghost use Rattle.cov_cut.specs.Outline.{no_list, heads, lists_in, lists_among, lists_behind, lists_along};
ghost use Rattle.cov_cut.specs.Outlining.{outline, body, clause_lists};
ghost use Rattle.cov_cut.specs.Layers.{outlines, block_layer, case_layer, comm_layer, other_layer, other_option, form_lists};
ghost use Rattle.cov_cut.specs.Units.{Fits, IsWithin, func_lists, cut_in};

use go_ast::{Block, CaseClause, CommClause, Decl, File, Other, Stmt, StmtForm};

fn are_small(a: u32, b: u32, c: u32) -> bool
    ensures { result ≡ true → (a < 1_000_000) × (b < 1_000_000) × (c < 1_000_000) }
{
    a < 1_000_000 && b < 1_000_000 && c < 1_000_000
}

#[cycle(fits)]
pub fn block_fits(block: &Block) -> bool
    ensures { result ≡ true → All Fits (lists_along (body (block_layer block.now) no_list)) }
{
    are_small(0, block.left, block.right) && list_fits(block.list.as_slice())
}

#[cycle(fits)]
fn other_fits(other: &Other) -> bool
    ensures { result ≡ true → All Fits (lists_along (other_layer other.now)) }
{
    let block = &other.block;
    are_small(other.after, block.left, block.right) && list_fits(block.list.as_slice())
}

#[cycle(fits)]
fn list_fits(list: &[Stmt]) -> bool
    ensures fits { result ≡ true → All Fits (lists_among (outlines list.now)) }
    ensures small { result ≡ true → length list.now ≤ 1000 }
{
    for s in list {
        if !stmt_fits(s) {
            return false;
        }
    }
    list.len() <= 1000
}

#[cycle(fits)]
fn stmt_fits(s: &Stmt) -> bool
    ensures { result ≡ true → All Fits (lists_in (outline s.now)) }
{
    form_fits(&s.form)
}

#[cycle(fits)]
fn form_fits(form: &StmtForm) -> bool
    ensures { result ≡ true → All Fits (form_lists (out-StmtForm form.now)) }
{
    match form {
        StmtForm::Block(body) => block_fits(body),
        StmtForm::For { body, .. } => block_fits(body),
        StmtForm::Range { body, .. } => block_fits(body),
        StmtForm::If { then, other, .. } => block_fits(then) && option_fits(other),
        StmtForm::Switch { clauses, .. } => cases_fit(clauses.as_slice()),
        StmtForm::Select { clauses, .. } => comms_fit(clauses.as_slice()),
        StmtForm::Label(_, inner) => stmt_fits(inner.get()),
        _ => true,
    }
}

#[cycle(fits)]
fn option_fits(other: &Option<Other>) -> bool
    ensures { result ≡ true → All Fits (lists_along (other_option other.now)) }
{
    match other {
        Some(other) => other_fits(other),
        None => true,
    }
}

#[cycle(fits)]
fn clause_fits(colon: u32, list: &[Stmt]) -> bool
    ensures colon { result ≡ true → colon < 1_000_000 }
    ensures fits { result ≡ true → All Fits (lists_among (outlines list.now)) }
    ensures small { result ≡ true → length list.now ≤ 1000 }
{
    colon < 1_000_000 && list_fits(list)
}

#[cycle(fits)]
fn cases_fit(clauses: &[CaseClause]) -> bool
    ensures heads { result ≡ true → All Fits (heads (clause_lists (map case_layer clauses.now))) }
    ensures behind { result ≡ true → All Fits (lists_behind (clause_lists (map case_layer clauses.now))) }
{
    for clause in clauses {
        if !clause_fits(clause.colon, clause.list.as_slice()) {
            return false;
        }
    }
    true
}

#[cycle(fits)]
fn comms_fit(clauses: &[CommClause]) -> bool
    ensures heads { result ≡ true → All Fits (heads (clause_lists (map comm_layer clauses.now))) }
    ensures behind { result ≡ true → All Fits (lists_behind (clause_lists (map comm_layer clauses.now))) }
{
    for clause in clauses {
        if !clause_fits(clause.colon, clause.list.as_slice()) {
            return false;
        }
    }
    true
}

/// Whether a file can be cut: its offsets are small, and its lists short.
pub fn is_within(file: &File) -> bool
    ensures { result ≡ true → IsWithin file.now }
{
    for decl in file.decls.as_slice() {
        if !decl_fits(decl) {
            return false;
        }
    }
    true
}

fn decl_fits(decl: &Decl) -> bool
    ensures { result ≡ true → All (λ f. All Fits (func_lists f)) (cut_in decl.now) }
{
    match decl {
        Decl::Func(f) => block_fits(&f.body),
        _ => true,
    }
}
