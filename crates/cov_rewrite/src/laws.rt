//! Laws of covered texts.
ghost use Rattle.std.specs.Prelude.{◌≡◌, ◌≤◌, ◌^◌, List, ℕ, Result, length};
ghost use Rattle.go_ast.specs.Tokens.{HasTokens};
ghost use Rattle.go_ast.specs.declared.file.File.{File};
ghost use Rattle.go_ast.specs.declared.token.Token.{Token};
ghost use Rattle.go_grammar.specs.Blocks.{source};
ghost use Rattle.go_grammar.specs.Files.{SpellsWithin};
ghost use Rattle.go_grammar.specs.Words.{words_of};
ghost use Rattle.go_parse.specs.declared.fault.SourceFault.{SourceFault};
ghost use Rattle.cov_outside.specs.declared.mode.Mode.{Mode};
ghost use Rattle.cov_rewrite.specs.declared.covered.Rewritten.{Rewritten};
ghost use Rattle.cov_rewrite.specs.Coming.{ComesTo};
ghost use Rattle.cov_rewrite.specs.declared.piece.Piece.{Piece};
ghost use Rattle.cov_rewrite.specs.Covered.{StandsIn};
ghost use Rattle.cov_rewrite.specs.Shuffle.{IsShuffle, put_from};
ghost use Rattle.cov_rewrite.specs.Weaving.{text_at, woven};

use cov_cut::laws;
use go_lex::laws::tokens_or_fault;
use go_reading::laws as reading;

/// A text with pieces put in has the bytes of the text in their order, and the pieces' in the order of their offsets.
pub fn nothing_is_lost()
    ensures { (var : List ℕ) (m : Mode) (pieces : List Piece) (text : List ℕ) → IsShuffle text (put_from (text_at var m pieces) 0 text) (woven var m pieces text) }
{}

/// The tree that a source's tokens spell stands in the source.
pub fn a_tree_stands_in_its_text()
    ensures { (most depth : ℕ) (text : List ℕ) (tokens : List Token) (file : File) → length text ≤ 2 ^ 31 → HasTokens text tokens → SpellsWithin source most depth file (words_of text tokens) → StandsIn text file }
{
    laws::parsed();
    laws::bounds();
    laws::within();
}

/// A text comes to one covered text with the number of its units, or to one first fault, and never to both.
pub fn one_text_or_fault()
    ensures { (text name var : List ℕ) (m : Mode) (x y : Result Rewritten SourceFault) → ComesTo text name var m x → ComesTo text name var m y → x ≡ y }
{
    tokens_or_fault();
    reading::one_tree();
    reading::one_outcome();
}
