//! Laws of tokens and faults.
ghost use Rattle.std.specs.Prelude.{◌≡◌, ℕ, List};
ghost use Rattle.go_ast.specs.Tokens.{HasTokens};
ghost use Rattle.go_ast.specs.Faults.{HasFault, IsFault};
ghost use Rattle.go_ast.specs.declared.token.Token.{Token};
ghost use Rattle.go_ast.specs.declared.kind.LexKind.{LexKind};

/// A text has at most one token list, at most one fault, and not both.
pub fn tokens_or_fault()
    ensures one_list { (text : List ℕ) (tokens others : List Token) → HasTokens text tokens → HasTokens text others → tokens ≡ others }
    ensures one_fault { (text : List ℕ) (at other : ℕ) (kind other_kind : LexKind) → IsFault text at kind → IsFault text other other_kind → (at ≡ other) × (kind ≡ other_kind) }
    ensures not_both { (text : List ℕ) (tokens : List Token) (at : ℕ) (kind : LexKind) → HasTokens text tokens → HasFault text at kind → ⊥ }
{}
