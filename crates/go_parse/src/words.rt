//! The places of keywords and operators in their lists.
use go_ast::TokenKind;

pub const BREAK: TokenKind = TokenKind::Keyword(0);

pub const CASE: TokenKind = TokenKind::Keyword(1);

pub const CHAN: TokenKind = TokenKind::Keyword(2);

pub const CONST: TokenKind = TokenKind::Keyword(3);

pub const CONTINUE: TokenKind = TokenKind::Keyword(4);

pub const DEFAULT: TokenKind = TokenKind::Keyword(5);

pub const DEFER: TokenKind = TokenKind::Keyword(6);

pub const ELSE: TokenKind = TokenKind::Keyword(7);

pub const FALLTHROUGH: TokenKind = TokenKind::Keyword(8);

pub const FOR: TokenKind = TokenKind::Keyword(9);

pub const FUNC: TokenKind = TokenKind::Keyword(10);

pub const GO: TokenKind = TokenKind::Keyword(11);

pub const IF: TokenKind = TokenKind::Keyword(13);

pub const IMPORT: TokenKind = TokenKind::Keyword(14);

pub const PACKAGE: TokenKind = TokenKind::Keyword(17);

pub const RANGE: TokenKind = TokenKind::Keyword(18);

pub const RETURN: TokenKind = TokenKind::Keyword(19);

pub const SELECT: TokenKind = TokenKind::Keyword(20);

pub const SWITCH: TokenKind = TokenKind::Keyword(22);

pub const VAR: TokenKind = TokenKind::Keyword(24);

pub const ARROW: TokenKind = TokenKind::Operator(24);

pub const ASSIGN: TokenKind = TokenKind::Operator(30);

pub const DEFINE: TokenKind = TokenKind::Operator(36);

pub const LEFT_PARENTHESIS: TokenKind = TokenKind::Operator(38);

pub const RIGHT_PARENTHESIS: TokenKind = TokenKind::Operator(39);

pub const LEFT_BRACKET: TokenKind = TokenKind::Operator(40);

pub const RIGHT_BRACKET: TokenKind = TokenKind::Operator(41);

pub const LEFT_BRACE: TokenKind = TokenKind::Operator(42);

pub const RIGHT_BRACE: TokenKind = TokenKind::Operator(43);

pub const COMMA: TokenKind = TokenKind::Operator(44);

pub const SEMICOLON: TokenKind = TokenKind::Operator(45);

pub const POINT: TokenKind = TokenKind::Operator(46);

pub const COLON: TokenKind = TokenKind::Operator(47);
