//! A cursor over tokens.
ghost use Rattle.std.specs.Prelude.{◌≡◌, ◌≤◌, Ok, ◌∷◌, [], length, ◌<◌, ◌^◌, Some, IfOk};
ghost use Rattle.go_ast.specs.Tokens.{HasTokens};
ghost use Rattle.go_ast.specs.Literals.{IsRuneBody, inner};
ghost use Rattle.go_parse.specs.Placed.{IsTextLiteral};
ghost use Rattle.go_grammar.specs.Words.{words_of};
ghost use Rattle.go_grammar.specs.Trees as trees;
ghost use Rattle.go_reading.specs.Files.{import_of};
ghost use Rattle.go_reading.specs.Input as spec;
ghost use Rattle.go_reading.specs.Kinds as kinds;
ghost use Rattle.go_reading.specs.Input.{Reads};

use crate::fault::STRANGE;
use crate::kind::is;
use crate::literal::{rune_value, text_value};
use go_ast::{Expr, ExprForm, Import, Name, Span, Text, Token, TokenKind};
use go_reading::ParseError;
use std::alloc::{AllocError, Global};
use std::marker::Model;

/// The tokens that are left, and the text that they are of.
#[derive(Drop)]
pub struct Tokens<'a> {
    text: &'a [u8],
    rest: &'a [Token],
}

impl<'a> Model for Tokens<'a> {
    ghost use Rattle.std.specs.Prelude.{List, ◌≤◌, ◌^◌, length};
    ghost use Rattle.go_grammar.specs.Words.{Word, words_of};
    ghost use Rattle.go_parse.specs.Placed.{ArePlaced};

    ghost Value = { List Word };

    ghost view = { λ t. words_of t.text.now t.rest.now };

    ghost invariant = { λ t. (length t.text.now ≤ 2 ^ 31) × ArePlaced t.text.now t.rest.now };
}

impl<'a> Tokens<'a> {
    pub fn new(text: &'a [u8], rest: &'a [Token]) -> Tokens<'a>
        requires short { length text.now ≤ 2 ^ 31 }
        requires tokens { HasTokens text.now rest.now }
        ensures { result ≡ words_of text.now rest.now }
    {
        Tokens { text, rest }
    }

    /// How many tokens are left.
    pub fn left(&self) -> usize
        ensures { result ≡ length self.now }
    {
        self.rest.len()
    }

    /// The kind of the next token, or `None` at the end.
    pub fn peek(&self) -> Option<TokenKind>
        ensures { result ≡ spec.kind_of self.now }
    {
        match self.rest {
            [] => None,
            [token, ..] => Some(token.kind),
        }
    }

    /// Whether the next token has this kind.
    pub fn sees(&self, wanted: TokenKind) -> bool
        ensures { result ≡ kinds.is (spec.kind_of self.now) wanted }
    {
        is(self.peek(), wanted)
    }

    /// Where the next token stands.
    fn span(&self) -> Span
        ensures { result ≡ (spec.head self.now).span }
    {
        match self.rest {
            [] => Span { start: 0, end: 0 },
            [token, ..] => token.span,
        }
    }

    /// Its bytes.
    fn bytes(&self) -> &'a [u8]
        ensures bytes { result.now ≡ (spec.head self.now).bytes }
        ensures rune { spec.kind_of self.now ≡ Some TokenKind.Rune → IsRuneBody (inner result.now) }
        ensures text { spec.kind_of self.now ≡ Some TokenKind.Text → IsTextLiteral result.now }
    {
        match self.rest {
            [] => &[],
            [token, ..] => &self.text[token.span.start as usize..token.span.end as usize],
        }
    }

    /// Takes the token, and answers where it stands.
    #[tactic(auto, unfolding(go_reading::specs::Input::take_as))]
    pub fn take(&mut self) -> Span
        ensures { spec.take_span self.old ≡ (Ok result, self.new) }
    {
        let span = self.span();
        if let [_, rest @ ..] = self.rest {
            self.rest = rest;
        }
        span
    }

    /// Takes a name, and answers it and the offset of its end.
    #[tactic(auto, unfolding(go_reading::specs::Input::take_as))]
    pub fn take_name(&mut self, alloc: Global) -> Result<(Name, u32), ParseError>
        ensures { Reads (spec.take_name self.old) result self.new }
    {
        let text = Text::of(alloc, self.bytes())?;
        let span = self.take();
        Ok((
            Name {
                text,
                at: span.start,
            },
            span.end,
        ))
    }

    /// Takes an integer.
    #[tactic(auto, unfolding(go_reading::specs::Input::take_as, go_grammar::specs::Trees::expr_node))]
    pub fn take_int(&mut self, alloc: Global) -> Result<Expr, ParseError>
        ensures { Reads (spec.take_as trees.int_expr self.old) result self.new }
    {
        let form = ExprForm::Int(Text::of(alloc, self.bytes())?);
        let span = self.take();
        Ok(Expr { span, form })
    }

    /// Takes a rune.
    #[tactic(auto, unfolding(go_reading::specs::Input::take_as, go_grammar::specs::Trees::expr_node))]
    pub fn take_rune(&mut self) -> Expr
        requires { spec.kind_of self.old ≡ Some TokenKind.Rune }
        ensures { spec.take_as trees.rune_expr self.old ≡ (Ok result, self.new) }
    {
        let form = ExprForm::Rune(rune_value(self.bytes()));
        let span = self.take();
        Expr { span, form }
    }

    /// Takes a text.
    #[tactic(auto, unfolding(go_reading::specs::Input::take_as, go_grammar::specs::Trees::expr_node))]
    pub fn take_text(&mut self, alloc: Global) -> Result<Expr, ParseError>
        requires { spec.kind_of self.old ≡ Some TokenKind.Text }
        ensures { Reads (spec.take_as trees.text_expr self.old) result self.new }
    {
        let form = ExprForm::Text(text_value(alloc, self.bytes())?);
        let span = self.take();
        Ok(Expr { span, form })
    }

    #[tactic(auto, unfolding(go_reading::specs::Input::expect_as, go_reading::specs::Input::take_as))]
    pub fn expect(&mut self, wanted: TokenKind) -> Result<Span, ParseError>
        ensures { Reads (spec.expect wanted self.old) result self.new }
    {
        if !self.sees(wanted) {
            return Err(STRANGE);
        }
        Ok(self.take())
    }

    #[tactic(auto, unfolding(go_reading::specs::Input::expect_as, go_reading::specs::Input::take_as))]
    pub fn expect_name(&mut self, alloc: Global) -> Result<(Name, u32), ParseError>
        ensures { Reads (spec.expect_name self.old) result self.new }
    {
        if !self.sees(TokenKind::Name) {
            return Err(STRANGE);
        }
        self.take_name(alloc)
    }

    /// The path of an import.
    #[tactic(auto, unfolding(go_reading::specs::Input::expect_as, go_reading::specs::Input::take_as))]
    pub fn expect_path(&mut self, alloc: Global) -> Result<Import, ParseError>
        ensures { Reads (spec.expect_as import_of TokenKind.Text self.old) result self.new }
    {
        if !self.sees(TokenKind::Text) {
            return Err(STRANGE);
        }
        let path = text_value(alloc, self.bytes())?;
        let span = self.take();
        Ok(Import {
            path,
            at: span.start,
        })
    }
}
