//! Files.
ghost use Rattle.std.specs.Prelude.{◌≡◌, ◌≤◌, ◌<◌, ◌+◌, [], IfOk};
ghost use Rattle.go_reading.specs.Input.{Reads};
ghost use Rattle.go_reading.specs.Lists.{group_list};
ghost use Rattle.go_reading.specs.Files as spec;
ghost use Rattle.go_grammar.specs.Blocks.{source};

use crate::bounds::Bounds;
use crate::cursor::Tokens;
use crate::decl::declaration;
use crate::fault::{EXHAUSTED, STRANGE};
use crate::words::{IMPORT, LEFT_PARENTHESIS, PACKAGE, RIGHT_PARENTHESIS, SEMICOLON};
use go_ast::{Decl, File, Import, TokenKind};
use go_reading::ParseError;
use sqlite_items::Items;
use std::alloc::Global;

/// The paths of an import, from behind its `import` on.
#[tactic(auto, unfolding(go_reading::specs::Files::paths, go_reading::specs::Lists::group_of))]
fn paths(
    alloc: Global,
    tokens: &mut Tokens<'_>,
    turns: usize,
    depth: usize,
) -> Result<Items<Import>, ParseError>
    requires { 0 < depth }
    ensures { Reads (spec.paths turns depth tokens.old) result tokens.new }
{
    if tokens.sees(LEFT_PARENTHESIS) {
        tokens.take();
        let (found, _) = path_list(alloc, tokens, turns, depth)?;
        tokens.expect(RIGHT_PARENTHESIS)?;
        return Ok(found);
    }
    if !tokens.sees(TokenKind::Text) {
        return Err(STRANGE);
    }
    let path = tokens.expect_path(alloc)?;
    let mut found = Items::new(alloc);
    found.push(path)?;
    Ok(found)
}

/// The paths up to the `)`, with the height 0.
#[tactic(auto, unfolding(go_reading::specs::Lists::group_list, go_reading::specs::Lists::list_from))]
fn path_list(
    alloc: Global,
    tokens: &mut Tokens<'_>,
    turns: usize,
    depth: usize,
) -> Result<(Items<Import>, usize), ParseError>
    requires { 0 < depth }
    ensures { Reads (group_list TokenKind.Text depth spec.path turns tokens.old) result tokens.new }
{
    let mut found = Items::new(alloc);
    if tokens.sees(RIGHT_PARENTHESIS) {
        return Ok((found, 0));
    }
    if !tokens.sees(TokenKind::Text) {
        return Err(STRANGE);
    }
    for _turn in 0..turns {
        let next = tokens.expect_path(alloc)?;
        found.push(next)?;
        if !tokens.sees(SEMICOLON) {
            return Ok((found, 0));
        }
        tokens.take();
        if tokens.sees(RIGHT_PARENTHESIS) {
            return Ok((found, 0));
        }
    }
    Err(EXHAUSTED)
}

/// The imports of a file.
#[tactic(auto, unfolding(go_reading::specs::Files::imports_from))]
fn imports(
    alloc: Global,
    tokens: &mut Tokens<'_>,
    turns: usize,
    depth: usize,
) -> Result<Items<Import>, ParseError>
    requires { 0 < depth }
    ensures { Reads (spec.imports_from turns depth turns [] tokens.old) result tokens.new }
{
    let mut found = Items::new(alloc);
    for _turn in 0..turns {
        if !tokens.sees(IMPORT) {
            return Ok(found);
        }
        tokens.take();
        let more = paths(alloc, tokens, turns, depth)?;
        tokens.expect(SEMICOLON)?;
        found.append(more)?;
    }
    Err(EXHAUSTED)
}

/// The declarations of a file, to its end, and their height.
#[tactic(auto, unfolding(go_reading::specs::Files::decls_from))]
fn decls(
    alloc: Global,
    tokens: &mut Tokens<'_>,
    bounds: Bounds,
    depth: usize,
) -> Result<(Items<Decl>, usize), ParseError>
    requires { depth ≤ 1000 }
    ensures tall { IfOk result (λ x. x.1 ≤ depth) }
    ensures reads { Reads (spec.decls_from source bounds.turns bounds.most depth bounds.turns [] 0 tokens.old) result tokens.new }
{
    let mut found = Items::new(alloc);
    let mut height = 0;
    for _turn in 0..bounds.turns {
        if tokens.peek().is_none() {
            return Ok((found, height));
        }
        let (next, tall) = declaration(alloc, tokens, bounds, depth)?;
        tokens.expect(SEMICOLON)?;
        found.push(next)?;
        height = height.max(tall);
    }
    Err(EXHAUSTED)
}

/// A file, and its height.
#[tactic(auto, unfolding(go_reading::specs::Files::file))]
pub fn file(
    alloc: Global,
    tokens: &mut Tokens<'_>,
    bounds: Bounds,
    depth: usize,
) -> Result<(File, usize), ParseError>
    requires { (0 < depth) × (depth ≤ 1000) }
    ensures tall { IfOk result (λ x. x.1 ≤ depth) }
    ensures reads { Reads (spec.file source bounds.turns bounds.most depth tokens.old) result tokens.new }
{
    tokens.expect(PACKAGE)?;
    let (package, _) = tokens.expect_name(alloc)?;
    tokens.expect(SEMICOLON)?;
    let imports = imports(alloc, tokens, bounds.turns, depth)?;
    let (decls, height) = decls(alloc, tokens, bounds, depth)?;
    let found = File {
        package,
        imports,
        decls,
        counts: 0,
    };
    Ok((found, height))
}
