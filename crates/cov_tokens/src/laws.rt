//! Laws of the tokens of covered texts. The calls do nothing.
ghost use Rattle.std.specs.Prelude.{◌≡◌, ◌≢◌, ◌<◌, ◌^◌, ℕ, List, [], ◌∷◌, ◌++◌, length};
ghost use Rattle.go_ast.specs.Characters.{AreCharacters};
ghost use Rattle.go_ast.specs.Pieces.{IsLongest, IsMeant};
ghost use Rattle.go_ast.specs.Tokens.{HasTokens};
ghost use Rattle.go_ast.specs.declared.token.PieceForm.{PieceForm};
ghost use Rattle.go_ast.specs.declared.token.Token.{Token};
ghost use Rattle.cov_outside.specs.declared.mode.Mode.{Mode};
ghost use Rattle.cov_rewrite.specs.declared.piece.Piece.{Piece};
ghost use Rattle.cov_rewrite.specs.Weaving.{woven};
ghost use Rattle.cov_rewrite.specs.Additions.{pieces};
ghost use Rattle.cov_rewrite.specs.Covered.{covered};
ghost use Rattle.cov_cut.specs.Counted.{all_units};
ghost use Rattle.go_ast.specs.declared.file.File.{File};
ghost use Rattle.go_grammar.specs.Words.{Word, words_of};
ghost use Rattle.go_grammar.specs.Patterns.{AllFit, any};
ghost use Rattle.go_grammar.specs.Terminals as t;
ghost use Rattle.go_grammar.specs.Covering as covering;
ghost use Rattle.cov_cut.specs.declared.unit.Unit.{Unit as CutUnit};
ghost use Rattle.cov_outside.specs.declared.mode.Mode.TheVariants as mode;
ghost use Rattle.cov_rewrite.specs.declared.piece.Addition.TheVariants as addition;
ghost use Rattle.cov_tokens.specs.Counters.{addition_spellings, atomic_import};
ghost use Rattle.cov_tokens.specs.Tables.{trailer_spellings};
ghost use Rattle.cov_tokens.specs.Grammar.{form_of, spellings_in};
ghost use Rattle.go_grammar.specs.Blocks.{source};
ghost use Rattle.go_grammar.specs.Files.{SpellsWithin};
ghost use Rattle.cov_tokens.specs.Spellings.{Spelling, HasSpellings, spellings_of};
ghost use Rattle.cov_tokens.specs.Joining.{spelled_from, spelled_upto, offset_behind};
ghost use Rattle.cov_tokens.specs.Covering.{woven_spellings, covered_spellings};
ghost use Rattle.cov_tokens.specs.Places.{AreInPlaces, AreSmall, IsIdentifier, IsOneLine};
ghost use Rattle.cov_tokens.specs.Local.{ArePointedAlike};

use cov_cut::laws;

/// A longest piece of a text stays the longest in front of the characters that follow it, whatever stands behind these.
pub fn locality()
    ensures { (form : PieceForm) (bytes next rest other : List ℕ) → AreCharacters bytes → IsMeant form bytes → AreCharacters next → next ≢ [] → ArePointedAlike rest other → IsLongest form bytes (next ++ rest) → IsLongest form bytes (next ++ other) }
{}

/// A source with pieces put in at their places has its tokens and those of the pieces, each piece's before the first token
/// that begins there or later.
pub fn tokens_with_pieces()
    ensures { (var text : List ℕ) (m : Mode) (pieces : List Piece) (tokens : List Token) → IsIdentifier var → HasTokens text tokens → AreInPlaces tokens pieces → AreSmall pieces → HasSpellings (woven var m pieces text) (woven_spellings var m pieces text tokens) }
{}

/// The covered text of a source with a tree whose pieces have their places has the source's tokens with those of the
/// pieces, and then the trailer's.
pub fn tokens_of_covered_text()
    ensures { (text name var : List ℕ) (m : Mode) (file : File) (tokens : List Token) → IsIdentifier var → IsOneLine name → length text < 2 ^ 63 → length (all_units file) < 2 ^ 64 → HasTokens text tokens → AreInPlaces tokens (pieces m file) → HasSpellings (covered text file name var m) (covered_spellings text tokens file var m) }
{}

/// The pieces of the tree that a source's tokens spell have their places among these tokens.
pub fn pieces_have_places()
    ensures { (most depth : ℕ) (text : List ℕ) (tokens : List Token) (m : Mode) (file : File) → HasTokens text tokens → SpellsWithin source most depth file (words_of text tokens) → AreInPlaces tokens (pieces m file) }
{}

/// So the covered text of a source with that tree has these tokens.
pub fn tokens_of_covered_source()
    ensures { (most depth : ℕ) (text name var : List ℕ) (m : Mode) (file : File) (tokens : List Token) → IsIdentifier var → IsOneLine name → length text < 2 ^ 63 → HasTokens text tokens → SpellsWithin source most depth file (words_of text tokens) → HasSpellings (covered text file name var m) (covered_spellings text tokens file var m) }
{
    laws::parsed();
    laws::bounds();
    laws::order();
}

/// What is put in is spelled as the grammar of covered texts has it: a counter with its semicolon, the import with the
/// semicolon behind the package's name, and the trailer.
pub fn additions_fit_the_grammar()
    ensures counter { (var : List ℕ) (m : Mode) (i : ℕ) (words : List Word) → spellings_in words ≡ addition_spellings var m (addition.Counter i) → AllFit (covering.counter var (form_of m) i ++ any t.semicolon ∷ []) words }
    ensures import_words { (end : Spelling) (words : List Word) → end.kind ≡ t.semicolon → spellings_in words ≡ atomic_import ++ end ∷ [] → AllFit (any t.semicolon ∷ covering.atomic_import (form_of mode.Atomic)) words }
    ensures trailer { (var text : List ℕ) (m : Mode) (units : List CutUnit) (words : List Word) → spellings_in words ≡ trailer_spellings text var m units → AllFit (covering.trailer var (form_of m) (length units)) words }
{}

/// Tokens with what is put in among them, by parts of the token list; and as the grammar's words.
pub fn spellings_by_parts()
    ensures parted { (text : List ℕ) (put : ℕ → List Spelling) (at : ℕ) (tokens more : List Token) → spelled_from text put at (tokens ++ more) ≡ spelled_upto text put at tokens ++ spelled_from text put (offset_behind at tokens) more }
    ensures words { (text : List ℕ) (tokens : List Token) → spellings_in (words_of text tokens) ≡ spellings_of text tokens }
{}
