//! Laws of units.
ghost use Rattle.std.specs.Prelude.{◌≡◌, ◌≢◌, ◌+◌, ◌^◌, ◌<◌, ◌≤◌, ℕ, List, All, AllPairs, length, sum_by};
ghost use Rattle.std.specs.List.{flat_map};
ghost use Rattle.go_ast.specs.declared.file.File.{File};
ghost use Rattle.go_ast.specs.declared.token.Token.{Token};
ghost use Rattle.go_ast.specs.Tokens.{HasTokens};
ghost use Rattle.go_grammar.specs.Words.{words_of};
ghost use Rattle.go_grammar.specs.Blocks.{source};
ghost use Rattle.go_grammar.specs.Files.{SpellsWithin};
ghost use Rattle.cov_cut.specs.Counted.{all_units, else_ifs_of};
ghost use Rattle.cov_cut.specs.declared.frame.Frame.{Frame};
ghost use Rattle.go_ast.specs.declared.decl.Func.{Func};
ghost use Rattle.go_ast.specs.declared.block.Block.{Block};
ghost use Rattle.go_ast.specs.declared.block.Stmt.{Stmt};
ghost use Rattle.go_ast.specs.declared.block.StmtForm.{out-StmtForm};
ghost use Rattle.cov_cut.specs.Outline.{Mark, no_list, lists_along};
ghost use Rattle.cov_cut.specs.Outlining.{outline, block_outline, node_of, body};
ghost use Rattle.cov_cut.specs.Layers.{form_layer, block_layer};
ghost use Rattle.cov_cut.specs.Units.{frame, segments, list_units, func_lists, cut_in, units_of, IsWithin};
ghost use Rattle.cov_cut.specs.Placement.{IsPlaced};
ghost use Rattle.cov_cut.specs.Laws.{IsDivision, uncounted, statements_in, IsBare, lists_of, ends_in};

/// The segments of a list are its one division after breakers, so that each statement stands in one segment. The units
/// of a list count the statements of its segments, but of those that end where they start.
pub fn counting()
    ensures division { (ms : List Mark) → IsDivision ms (segments ms) }
    ensures one_division { (ms : List Mark) (segs : List (List Mark)) → IsDivision ms segs → segs ≡ segments ms }
    ensures counted { (f : Frame) (ms : List Mark) → statements_in (list_units f ms) + sum_by length (uncounted f (segments ms)) ≡ length ms }
{}

/// No unit of a parsed file ends before it starts. No two of its counters are put at one offset, so that in the order
/// of the text their offsets strictly ascend, and none where a `}` is put behind an `else if`. Of its statements only those that begin at their boundary, as a block
/// does, are in no unit, each as the one statement of its segment.
pub fn order()
    ensures forward { (file : File) → IsPlaced file → All (λ f. All (λ u. u.start ≤ u.end) f.units) (units_of file) }
    ensures apart { (file : File) → IsPlaced file → AllPairs (λ u v. u.insert ≢ v.insert) (flat_map (λ f. f.units) (units_of file)) }
    ensures ends { (file : File) → IsPlaced file → All (λ u. All (λ e. u.insert ≢ e) (ends_in (lists_of file))) (flat_map (λ f. f.units) (units_of file)) }
    ensures bare { (file : File) → IsPlaced file → All (λ l. All IsBare (uncounted (frame l.kind) (segments l.statements))) (lists_of file) }
{}

/// A parsed file whose functions end below 2 ^ 32 can be cut.
pub fn within()
    ensures { (file : File) → IsPlaced file → All (λ f. f.span.end < 2 ^ 32) (flat_map cut_in file.decls) → IsWithin file }
{}

/// A file that a source's tokens spell is placed. Its functions and its package's name end in the text.
pub fn parsed()
    ensures placed { (most depth : ℕ) (text : List ℕ) (tokens : List Token) (file : File) → HasTokens text tokens → SpellsWithin source most depth file (words_of text tokens) → IsPlaced file }
    ensures ends { (most depth : ℕ) (text : List ℕ) (tokens : List Token) (file : File) → HasTokens text tokens → SpellsWithin source most depth file (words_of text tokens) → All (λ f. f.span.end ≤ length text) (flat_map cut_in file.decls) }
    ensures name { (most depth : ℕ) (text : List ℕ) (tokens : List Token) (file : File) → HasTokens text tokens → SpellsWithin source most depth file (words_of text tokens) → file.«package».at + length file.«package».text ≤ length text }
{}

/// No offset of a placed file's units, nor of an `if` behind an `else`, is past the ends of its functions.
pub fn bounds()
    ensures units { (bound : ℕ) (file : File) → IsPlaced file → All (λ f. f.span.end ≤ bound) (flat_map cut_in file.decls) → All (λ u. (u.start ≤ bound) × (u.end ≤ bound) × (u.insert ≤ bound)) (all_units file) }
    ensures else_ifs { (bound : ℕ) (file : File) → IsPlaced file → All (λ f. f.span.end ≤ bound) (flat_map cut_in file.decls) → All (λ s. (s.start ≤ bound) × (s.end ≤ bound)) (else_ifs_of file) }
{}

/// The outlines of statements and blocks, by one layer of the tree.
pub fn layers()
    ensures statement { (s : Stmt) → outline s ≡ node_of s.span.start s.span.end (form_layer (out-StmtForm s.form)) }
    ensures block { (b : Block) → block_outline b ≡ block_layer b }
    ensures function { (f : Func) → func_lists f ≡ lists_along (body (block_layer f.body) no_list) }
{}
