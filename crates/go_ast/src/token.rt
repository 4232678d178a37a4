//! Tokens, and the pieces of a text that they come from.
use crate::span::Span;

/// A token and where it stands.
///
/// An inserted semicolon is the operator `;` with an empty span, directly after the token before it.
#[derive(Clone, Copy, Debug, PartialEq, Eq)]
pub struct Token {
    pub kind: TokenKind,
    pub span: Span,
}

/// What a token is.
///
/// The number of a keyword or an operator is its place, from 0, in these lists:
/// `break case chan const continue default defer else fallthrough for func go goto if import interface map package
/// range return select struct switch type var` and
/// `+ - * / % & | ^ << >> &^ += -= *= /= %= &= |= ^= <<= >>= &^= && || <- ++ -- == < > = ! ~ != <= >= := ... ( ) [ ] {
/// } , ; . :`.
#[derive(Clone, Copy, Debug, PartialEq, Eq)]
pub enum TokenKind {
    Name,
    Int,
    Rune,
    Text,
    Keyword(u8),
    Operator(u8),
}

/// What a piece of a text looks like. A text is cut into pieces before it is asked whether each of them is a good one.
#[derive(Clone, Copy, Debug, PartialEq, Eq)]
pub enum PieceForm {
    /// A space, or a comment without a newline.
    Blank,
    /// A newline, or a comment with one.
    Line,
    /// The two bytes that begin a comment.
    Opening,
    /// A name or a keyword.
    Word,
    /// Digits, and what may stand among them and after them in a number.
    Number,
    /// What stands in single quotes.
    Rune,
    /// What stands in double quotes.
    Quoted,
    /// What stands in backquotes.
    Raw,
    /// The operator at a place in the list of operators.
    Operator(u8),
}
