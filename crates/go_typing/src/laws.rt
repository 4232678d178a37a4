//! Laws of sorts and types. The calls do nothing.
ghost use Rattle.go_typing.specs.Laws.{AcceptedIsTyped, AcceptedIsType, FoundIsOfKind, DeclaredIsOfKind, OneSort, OneType};
ghost use Rattle.go_typing.specs.Declarations.{ConstIsTyped, VarIsTyped};
ghost use Rattle.go_typing.specs.Statements.{SimpleIsTyped, ReturnIsTyped, ConditionIsTyped};
ghost use Rattle.go_typing.specs.Rows.{SumWithRune, SumOfInt8, LessThanOne, ReceivedText, SumOfTwoTypes};

/// What is accepted is well typed, as it was found to be. A constant that is found or declared has a value of its kind.
pub fn accepted()
    ensures expressions { AcceptedIsTyped }
    ensures types { AcceptedIsType }
    ensures constants { FoundIsOfKind }
    ensures declared { DeclaredIsOfKind }
{}

/// An expression is of one sort, and a written type is one type.
pub fn one_sort()
    ensures expressions { OneSort }
    ensures types { OneType }
{}

/// Declarations of constants and variables that are accepted are well typed.
pub fn declarations()
    ensures constants { ConstIsTyped }
    ensures variables { VarIsTyped }
{}

/// Simple statements, results and conditions that are accepted are well typed.
pub fn statements()
    ensures simple { SimpleIsTyped }
    ensures results { ReturnIsTyped }
    ensures conditions { ConditionIsTyped }
{}

/// Some expressions and what they are: `1 + 'a'` is an untyped rune constant; with x of type int8, `x + 1` is an int8 and
/// `x < 1` a bool; `<-c` is a string for a channel c of strings; an int8 and an int16 have no sum.
pub fn rows()
    ensures sum_with_rune { SumWithRune }
    ensures sum_of_int8 { SumOfInt8 }
    ensures less_than_one { LessThanOne }
    ensures received_text { ReceivedText }
    ensures sum_of_two_types { SumOfTwoTypes }
{}

#[cfg(test)]
mod tests {
    use super::{accepted, declarations, one_sort, rows, statements};

    #[test]
    fn laws_do_nothing() {
        accepted();
        one_sort();
        rows();
        statements();
        declarations();
    }
}
