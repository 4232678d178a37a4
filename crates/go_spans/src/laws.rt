//! Laws of tokens and faults. The calls do nothing.
ghost use Rattle.std.specs.Prelude.{◌≤◌, ℕ, List, All, length};
ghost use Rattle.go_ast.specs.Faults.{HasFault};
ghost use Rattle.go_ast.specs.Tokens.{HasTokens};
ghost use Rattle.go_ast.specs.declared.kind.LexKind.{LexKind};
ghost use Rattle.go_ast.specs.declared.token.Token.{Token};
ghost use Rattle.go_spans.specs.Spans.{IsUpTo};

/// Each token of a text starts no later than it ends, and ends within the text.
pub fn tokens_stand_in_text()
    ensures { (text : List ℕ) (tokens : List Token) → HasTokens text tokens → All (IsUpTo (length text)) tokens }
{}

/// A fault of lexing stands within the text, or at its end.
pub fn faults_stand_in_text()
    ensures { (text : List ℕ) (at : ℕ) (kind : LexKind) → HasFault text at kind → at ≤ length text }
{}
