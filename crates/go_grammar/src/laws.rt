//! Laws of the grammar's definitions.
ghost use Rattle.std.specs.Prelude.{codes};
ghost use Rattle.go_grammar.specs.Spellings.{IsKeyword, IsOperator};
ghost use Rattle.go_grammar.specs.Terminals as t;

/// The kinds of the grammar are the places of these spellings.
pub fn terminals()
    ensures is_break_word { IsKeyword (codes "break") t.break_word }
    ensures is_case_word { IsKeyword (codes "case") t.case_word }
    ensures is_chan_word { IsKeyword (codes "chan") t.chan_word }
    ensures is_const_word { IsKeyword (codes "const") t.const_word }
    ensures is_continue_word { IsKeyword (codes "continue") t.continue_word }
    ensures is_default_word { IsKeyword (codes "default") t.default_word }
    ensures is_defer_word { IsKeyword (codes "defer") t.defer_word }
    ensures is_else_word { IsKeyword (codes "else") t.else_word }
    ensures is_fallthrough_word { IsKeyword (codes "fallthrough") t.fallthrough_word }
    ensures is_for_word { IsKeyword (codes "for") t.for_word }
    ensures is_func_word { IsKeyword (codes "func") t.func_word }
    ensures is_go_word { IsKeyword (codes "go") t.go_word }
    ensures is_if_word { IsKeyword (codes "if") t.if_word }
    ensures is_import_word { IsKeyword (codes "import") t.import_word }
    ensures is_package_word { IsKeyword (codes "package") t.package_word }
    ensures is_range_word { IsKeyword (codes "range") t.range_word }
    ensures is_return_word { IsKeyword (codes "return") t.return_word }
    ensures is_select_word { IsKeyword (codes "select") t.select_word }
    ensures is_struct_word { IsKeyword (codes "struct") t.struct_word }
    ensures is_switch_word { IsKeyword (codes "switch") t.switch_word }
    ensures is_var_word { IsKeyword (codes "var") t.var_word }
    ensures is_plus { IsOperator (codes "+") t.plus }
    ensures is_minus { IsOperator (codes "-") t.minus }
    ensures is_star { IsOperator (codes "*") t.star }
    ensures is_slash { IsOperator (codes "/") t.slash }
    ensures is_percent { IsOperator (codes "%") t.percent }
    ensures is_ampersand { IsOperator (codes "&") t.ampersand }
    ensures is_bar { IsOperator (codes "|") t.bar }
    ensures is_caret { IsOperator (codes "^") t.caret }
    ensures is_shift_left { IsOperator (codes "<<") t.shift_left }
    ensures is_shift_right { IsOperator (codes ">>") t.shift_right }
    ensures is_and_not { IsOperator (codes "&^") t.and_not }
    ensures is_plus_assign { IsOperator (codes "+=") t.plus_assign }
    ensures is_minus_assign { IsOperator (codes "-=") t.minus_assign }
    ensures is_star_assign { IsOperator (codes "*=") t.star_assign }
    ensures is_slash_assign { IsOperator (codes "/=") t.slash_assign }
    ensures is_percent_assign { IsOperator (codes "%=") t.percent_assign }
    ensures is_ampersand_assign { IsOperator (codes "&=") t.ampersand_assign }
    ensures is_bar_assign { IsOperator (codes "|=") t.bar_assign }
    ensures is_caret_assign { IsOperator (codes "^=") t.caret_assign }
    ensures is_shift_left_assign { IsOperator (codes "<<=") t.shift_left_assign }
    ensures is_shift_right_assign { IsOperator (codes ">>=") t.shift_right_assign }
    ensures is_and_not_assign { IsOperator (codes "&^=") t.and_not_assign }
    ensures is_both { IsOperator (codes "&&") t.both }
    ensures is_either { IsOperator (codes "||") t.either }
    ensures is_arrow { IsOperator (codes "<-") t.arrow }
    ensures is_increment { IsOperator (codes "++") t.increment }
    ensures is_decrement { IsOperator (codes "--") t.decrement }
    ensures is_equal { IsOperator (codes "==") t.equal }
    ensures is_less { IsOperator (codes "<") t.less }
    ensures is_greater { IsOperator (codes ">") t.greater }
    ensures is_assign { IsOperator (codes "=") t.assign }
    ensures is_bang { IsOperator (codes "!") t.bang }
    ensures is_not_equal { IsOperator (codes "!=") t.not_equal }
    ensures is_less_equal { IsOperator (codes "<=") t.less_equal }
    ensures is_greater_equal { IsOperator (codes ">=") t.greater_equal }
    ensures is_define { IsOperator (codes ":=") t.define }
    ensures is_left_parenthesis { IsOperator (codes "(") t.left_parenthesis }
    ensures is_right_parenthesis { IsOperator (codes ")") t.right_parenthesis }
    ensures is_left_bracket { IsOperator (codes "[") t.left_bracket }
    ensures is_right_bracket { IsOperator (codes "]") t.right_bracket }
    ensures is_left_brace { IsOperator (codes "{") t.left_brace }
    ensures is_right_brace { IsOperator (codes "}") t.right_brace }
    ensures is_comma { IsOperator (codes ",") t.comma }
    ensures is_semicolon { IsOperator (codes ";") t.semicolon }
    ensures is_point { IsOperator (codes ".") t.point }
    ensures is_colon { IsOperator (codes ":") t.colon }
{}
