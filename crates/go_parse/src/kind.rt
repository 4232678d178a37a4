//! Kinds of tokens, compared and sorted.
ghost use Rattle.std.specs.Prelude.{◌≡◌, ◌≤◌};
ghost use Rattle.go_grammar.specs.Trees as trees;
ghost use Rattle.go_reading.specs.Kinds as spec;
ghost use Rattle.go_reading.specs.Simple.{goes_on as spec_goes_on};

use crate::words::{CASE, DEFAULT, LEFT_BRACKET, LEFT_PARENTHESIS, RIGHT_BRACE};
use go_ast::{BinaryOp, TokenKind, UnaryOp};
use go_reading::Sign;

/// Whether two kinds are one.
pub fn same(a: TokenKind, b: TokenKind) -> bool
    ensures { result ≡ spec.same a b }
{
    match (a, b) {
        (TokenKind::Keyword(x), TokenKind::Keyword(y)) => x == y,
        (TokenKind::Operator(x), TokenKind::Operator(y)) => x == y,
        (TokenKind::Name, TokenKind::Name)
        | (TokenKind::Int, TokenKind::Int)
        | (TokenKind::Rune, TokenKind::Rune)
        | (TokenKind::Text, TokenKind::Text) => true,
        _ => false,
    }
}

/// Whether the next token has this kind.
pub fn is(kind: Option<TokenKind>, wanted: TokenKind) -> bool
    ensures { result ≡ spec.is kind wanted }
{
    match kind {
        Some(kind) => same(kind, wanted),
        None => false,
    }
}

/// The operator between two operands.
#[tactic(auto, unfolding(go_reading::specs::Kinds::binary_op))]
pub fn binary_op(kind: Option<TokenKind>) -> Option<BinaryOp>
    ensures { result ≡ spec.binary_op kind }
{
    let Some(TokenKind::Operator(place)) = kind else {
        return None;
    };
    match place {
        0 => Some(BinaryOp::Add),
        1 => Some(BinaryOp::Sub),
        2 => Some(BinaryOp::Mul),
        3 => Some(BinaryOp::Div),
        4 => Some(BinaryOp::Rem),
        5 => Some(BinaryOp::And),
        6 => Some(BinaryOp::Or),
        7 => Some(BinaryOp::Xor),
        8 => Some(BinaryOp::Shl),
        9 => Some(BinaryOp::Shr),
        10 => Some(BinaryOp::AndNot),
        22 => Some(BinaryOp::BothOf),
        23 => Some(BinaryOp::EitherOf),
        27 => Some(BinaryOp::Equal),
        28 => Some(BinaryOp::Less),
        29 => Some(BinaryOp::Greater),
        33 => Some(BinaryOp::NotEqual),
        34 => Some(BinaryOp::LessEqual),
        35 => Some(BinaryOp::GreaterEqual),
        _ => None,
    }
}

/// How tightly an operator binds.
pub fn level(op: BinaryOp) -> u8
    ensures value { result ≡ trees.level op }
    ensures small { result ≤ 5 }
{
    match op {
        BinaryOp::Mul
        | BinaryOp::Div
        | BinaryOp::Rem
        | BinaryOp::Shl
        | BinaryOp::Shr
        | BinaryOp::And
        | BinaryOp::AndNot => 5,
        BinaryOp::Add | BinaryOp::Sub | BinaryOp::Or | BinaryOp::Xor => 4,
        BinaryOp::Equal
        | BinaryOp::NotEqual
        | BinaryOp::Less
        | BinaryOp::LessEqual
        | BinaryOp::Greater
        | BinaryOp::GreaterEqual => 3,
        BinaryOp::BothOf => 2,
        BinaryOp::EitherOf => 1,
    }
}

/// The operator before one operand.
#[tactic(auto, unfolding(go_reading::specs::Kinds::unary_op))]
pub fn unary_op(kind: Option<TokenKind>) -> Option<UnaryOp>
    ensures { result ≡ spec.unary_op kind }
{
    let Some(TokenKind::Operator(place)) = kind else {
        return None;
    };
    match place {
        0 => Some(UnaryOp::Plus),
        1 => Some(UnaryOp::Minus),
        7 => Some(UnaryOp::Flip),
        24 => Some(UnaryOp::Receive),
        31 => Some(UnaryOp::Not),
        _ => None,
    }
}

/// What the token makes of an expression at the front of a statement.
#[tactic(auto, unfolding(go_reading::specs::Kinds::sign_of))]
pub fn sign_of(kind: Option<TokenKind>) -> Sign
    ensures { result ≡ spec.sign_of kind }
{
    let Some(TokenKind::Operator(place)) = kind else {
        return Sign::Other;
    };
    match place {
        11 => Sign::Update(BinaryOp::Add),
        12 => Sign::Update(BinaryOp::Sub),
        13 => Sign::Update(BinaryOp::Mul),
        14 => Sign::Update(BinaryOp::Div),
        15 => Sign::Update(BinaryOp::Rem),
        16 => Sign::Update(BinaryOp::And),
        17 => Sign::Update(BinaryOp::Or),
        18 => Sign::Update(BinaryOp::Xor),
        19 => Sign::Update(BinaryOp::Shl),
        20 => Sign::Update(BinaryOp::Shr),
        21 => Sign::Update(BinaryOp::AndNot),
        24 => Sign::Arrow,
        25 => Sign::Up,
        26 => Sign::Down,
        30 => Sign::Assign,
        36 => Sign::Define,
        44 => Sign::Comma,
        _ => Sign::Other,
    }
}

/// Whether an expression may begin with the token.
#[tactic(auto, unfolding(go_reading::specs::Kinds::begins))]
pub fn begins(kind: Option<TokenKind>) -> bool
    ensures { result ≡ spec.begins kind }
{
    match kind {
        Some(TokenKind::Keyword(place)) => place == 2,
        Some(TokenKind::Operator(place)) => {
            place == 0 || place == 1 || place == 7 || place == 24 || place == 31 || place == 38
        }
        Some(_) => true,
        None => false,
    }
}

/// Whether a type may begin with it.
#[tactic(auto, unfolding(go_reading::specs::Kinds::begins_type))]
pub fn begins_type(kind: Option<TokenKind>) -> bool
    ensures { result ≡ spec.begins_type kind }
{
    match kind {
        Some(TokenKind::Name) => true,
        Some(TokenKind::Keyword(place)) => place == 2,
        _ => false,
    }
}

/// Whether it begins a statement that no expression stands at the front of.
fn starts(kind: Option<TokenKind>) -> bool
    ensures { result ≡ spec.is_one_of spec.starts kind }
{
    match kind {
        Some(TokenKind::Keyword(place)) => {
            matches!(place, 0 | 3 | 4 | 6 | 8 | 9 | 11 | 13 | 19 | 20 | 22 | 24)
        }
        Some(TokenKind::Operator(place)) => place == 42,
        _ => false,
    }
}

/// Whether a statement may begin with it.
#[tactic(auto, unfolding(go_reading::specs::Kinds::begins_stmt))]
pub fn begins_stmt(kind: Option<TokenKind>) -> bool
    ensures { result ≡ spec.begins_stmt kind }
{
    begins(kind) || starts(kind)
}

/// Whether a list of statements may end before it, in a clause or in a block.
#[tactic(auto, unfolding(go_reading::specs::Kinds::ends_list))]
pub fn ends_list(clause: bool, kind: Option<TokenKind>) -> bool
    ensures { result ≡ spec.ends_list clause kind }
{
    if is(kind, RIGHT_BRACE) {
        return true;
    }
    clause && (is(kind, CASE) || is(kind, DEFAULT))
}

/// Whether an expression goes on with it.
#[tactic(auto, unfolding(go_reading::specs::Simple::goes_on))]
pub fn goes_on(kind: Option<TokenKind>) -> bool
    ensures { result ≡ spec_goes_on kind }
{
    is(kind, LEFT_PARENTHESIS) || is(kind, LEFT_BRACKET) || binary_op(kind).is_some()
}
