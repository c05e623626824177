// The operators (document 01, "Clauses", the last list). What an operand left on the tape is where the operator starts.
ghost use Rattle.std.specs.Prelude.{◌≡◌};
ghost use Rattle.literal.specs.Words.{literal_of};
ghost use Rattle.relational.specs.Trees as trees;
ghost use Rattle.relational.specs.declared.Symbol.TheVariants as symbol;
ghost use Rattle.relational.specs.declared.Binary.TheVariants.{Intersection as intersection};
ghost use Rattle.relational.specs.declared.Quantifier.TheVariants.{Some as for_some};
ghost use Rattle.relational.specs.Meaning.{Environment};
ghost use Rattle.sheet_rules.specs.Blocks.{sheet_of};
ghost use Rattle.clauses_rules.specs.Translation.{translate_binary, translate_unary, translate_comparison};
ghost use Rattle.clauses_rules.specs.Translation.{translate_test, translate_connective, translate_quantifier, range};
ghost use Rattle.clauses_emission.specs.Emission.{Inside, literals_of, Bounded, EmitsLiteral, EmitsTwo};
ghost use Rattle.clauses_matrix.specs.Matrices.{matrix_of, Operand, EmitsMatrix, EmitsBinary, EmitsUnary, EmitsTest};
ghost use Rattle.clauses_kinds.specs.Leaves.{Bodies};

use crate::leaves;
use cells::Sheet;
use clauses_emission::gates::pair;
use clauses_emission::{Pairing, Tape};
use clauses_matrix::Literals;
use clauses_matrix::operators::{closure, inverse, join, matched, product};
use clauses_matrix::truths::{all_matched, lone, none, some};
use nodes::forms::symbol_of;
use relational::{Binary, Comparison, Connective, Quantifier, Symbol, Test, Unary};

// Kinds 5 to 9: union, intersection, difference, join, product.
pub fn apply_binary(
    list: &mut [i32],
    tape: &mut Tape,
    operator: Binary,
    p: Literals,
    q: Literals,
) -> Literals
    requires bounded { Bounded tape.old }
    requires operand { Operand tape.old.next p }
    requires operand_2 { Operand tape.old.next q }
    ensures { EmitsBinary (translate_binary operator) p q
        list.old tape.old result list.new tape.new }
{
    match operator {
        Binary::Union => matched(list, tape, Pairing::Either, p, q),
        Binary::Intersection => matched(list, tape, Pairing::Both, p, q),
        Binary::Difference => matched(list, tape, Pairing::Without, p, q),
        Binary::Join => join(list, tape, p, q),
        Binary::Product => product(list, tape, p, q),
    }
}

// The same by the number of the kind, of which any is taken.
pub fn binary(list: &mut [i32], tape: &mut Tape, kind: usize, p: Literals, q: Literals) -> Literals
    requires bounded { Bounded tape.old }
    requires operand { Operand tape.old.next p }
    requires operand_2 { Operand tape.old.next q }
    ensures { (o : Binary) → trees.symbol_of kind ≡ symbol.Binary o → EmitsBinary (translate_binary o) p q
        list.old tape.old result list.new tape.new }
{
    match symbol_of(kind) {
        Symbol::Binary(operator) => apply_binary(list, tape, operator, p, q),
        _ => p,
    }
}

// Kinds 10 and 11: inverse, closure.
pub fn apply_unary(list: &mut [i32], tape: &mut Tape, operator: Unary, p: Literals) -> Literals
    requires bounded { Bounded tape.old }
    requires operand { Operand tape.old.next p }
    ensures { EmitsUnary (translate_unary operator) p list.old tape.old result list.new tape.new }
{
    match operator {
        Unary::Inverse => inverse(p),
        Unary::Closure => closure(list, tape, p),
    }
}

// The same by the number of the kind.
pub fn unary(list: &mut [i32], tape: &mut Tape, kind: usize, p: Literals) -> Literals
    requires bounded { Bounded tape.old }
    requires operand { Operand tape.old.next p }
    ensures { (o : Unary) → trees.symbol_of kind ≡ symbol.Unary o
        → EmitsUnary (translate_unary o) p list.old tape.old result list.new tape.new }
{
    match symbol_of(kind) {
        Symbol::Unary(operator) => apply_unary(list, tape, operator, p),
        _ => p,
    }
}

// Kinds 20 and 21: equal, within.
pub fn apply_comparison(
    list: &mut [i32],
    tape: &mut Tape,
    operator: Comparison,
    p: Literals,
    q: Literals,
) -> i32
    requires bounded { Bounded tape.old }
    requires operand { Operand tape.old.next p }
    requires operand_2 { Operand tape.old.next q }
    ensures { EmitsLiteral (translate_comparison operator (matrix_of p) (matrix_of q) tape.old.next)
        list.old tape.old result list.new tape.new }
{
    match operator {
        Comparison::Equal => all_matched(list, tape, Pairing::Same, p, q),
        Comparison::Within => all_matched(list, tape, Pairing::Implies, p, q),
    }
}

// The same by the number of the kind.
pub fn compare(list: &mut [i32], tape: &mut Tape, kind: usize, p: Literals, q: Literals) -> i32
    requires bounded { Bounded tape.old }
    requires operand { Operand tape.old.next p }
    requires operand_2 { Operand tape.old.next q }
    ensures { (o : Comparison) → trees.symbol_of kind ≡ symbol.Comparison o
        → EmitsLiteral (translate_comparison o (matrix_of p) (matrix_of q) tape.old.next)
        list.old tape.old result list.new tape.new }
{
    match symbol_of(kind) {
        Symbol::Comparison(operator) => apply_comparison(list, tape, operator, p, q),
        _ => -1,
    }
}

// Kinds 22 to 24: some, none, at most one.
pub fn apply_test(list: &mut [i32], tape: &mut Tape, operator: Test, p: Literals) -> i32
    requires bounded { Bounded tape.old }
    requires operand { Operand tape.old.next p }
    ensures { EmitsTest (translate_test operator) p list.old tape.old result list.new tape.new }
{
    match operator {
        Test::Some => some(list, tape, p),
        Test::None => none(list, tape, p),
        Test::Lone => lone(list, tape, p),
    }
}

// The same by the number of the kind.
pub fn test(list: &mut [i32], tape: &mut Tape, kind: usize, p: Literals) -> i32
    requires bounded { Bounded tape.old }
    requires operand { Operand tape.old.next p }
    ensures { (o : Test) → trees.symbol_of kind ≡ symbol.Test o
        → EmitsTest (translate_test o) p list.old tape.old result list.new tape.new }
{
    match symbol_of(kind) {
        Symbol::Test(operator) => apply_test(list, tape, operator, p),
        _ => -1,
    }
}

// Kinds 31 to 34: and, or, implies, iff.
pub fn apply_connective(
    list: &mut [i32],
    tape: &mut Tape,
    operator: Connective,
    p: i32,
    q: i32,
) -> i32
    requires bounded { Bounded tape.old }
    requires inside { Inside tape.old.next (literal_of p) }
    requires inside_2 { Inside tape.old.next (literal_of q) }
    ensures { EmitsTwo (translate_connective operator) p q
        list.old tape.old result list.new tape.new }
{
    match operator {
        Connective::Conjunction => pair(list, tape, Pairing::Both, p, q),
        Connective::Disjunction => pair(list, tape, Pairing::Either, p, q),
        Connective::Implication => pair(list, tape, Pairing::Implies, p, q),
        Connective::Equivalence => pair(list, tape, Pairing::Same, p, q),
    }
}

// The same by the number of the kind.
pub fn connect(list: &mut [i32], tape: &mut Tape, kind: usize, p: i32, q: i32) -> i32
    requires bounded { Bounded tape.old }
    requires inside { Inside tape.old.next (literal_of p) }
    requires inside_2 { Inside tape.old.next (literal_of q) }
    ensures { (o : Connective) → trees.symbol_of kind ≡ symbol.Connective o
        → EmitsTwo (translate_connective o) p q list.old tape.old result list.new tape.new }
{
    match symbol_of(kind) {
        Symbol::Connective(operator) => apply_connective(list, tape, operator, p, q),
        _ => -1,
    }
}

// Kinds 40 and 41, over the literals of the atoms and of the bodies: for all, for some.
fn quantify(
    list: &mut [i32],
    tape: &mut Tape,
    operator: Quantifier,
    atoms: Literals,
    p: Literals,
) -> i32
    requires bounded { Bounded tape.old }
    requires operand { Operand tape.old.next atoms }
    requires operand_2 { Operand tape.old.next p }
    ensures { EmitsLiteral (translate_quantifier operator (matrix_of atoms) (matrix_of p) tape.old.next)
        list.old tape.old result list.new tape.new }
{
    match operator {
        Quantifier::All => all_matched(list, tape, Pairing::Implies, atoms, p),
        Quantifier::Some => some_matched(list, tape, atoms, p),
    }
}

// OR of AND(p, q), cell by cell.
fn some_matched(list: &mut [i32], tape: &mut Tape, p: Literals, q: Literals) -> i32
    requires bounded { Bounded tape.old }
    requires operand { Operand tape.old.next p }
    requires operand_2 { Operand tape.old.next q }
    ensures { EmitsLiteral (translate_quantifier for_some (matrix_of p) (matrix_of q) tape.old.next)
        list.old tape.old result list.new tape.new }
{
    let met = matched(list, tape, Pairing::Both, p, q);
    some(list, tape, met)
}

// Kinds 40 and 41 of variable x, over the literals of the bodies.
pub fn apply_quantifier(
    list: &mut [i32],
    tape: &mut Tape,
    sheet: &Sheet,
    given: &[i32],
    operator: Quantifier,
    x: usize,
    p: Literals,
) -> i32
    requires { Bodies given.now p tape.old }
    ensures { (env : Environment) → EmitsLiteral (translate_quantifier operator
        (range (sheet_of sheet.now.bytes.now) (literals_of given.now) x env)
        (matrix_of p) tape.old.next)
        list.old tape.old result list.new tape.new }
{
    quantify(list, tape, operator, leaves::range(sheet, given, x), p)
}

// The same by the number of the kind.
pub fn quantify_over(
    list: &mut [i32],
    tape: &mut Tape,
    sheet: &Sheet,
    given: &[i32],
    kind: usize,
    x: usize,
    p: Literals,
) -> i32
    requires { Bodies given.now p tape.old }
    ensures { (env : Environment) (o : Quantifier) → trees.symbol_of kind ≡ symbol.Quantifier o
        → EmitsLiteral (translate_quantifier o
        (range (sheet_of sheet.now.bytes.now) (literals_of given.now) x env)
        (matrix_of p) tape.old.next)
        list.old tape.old result list.new tape.new }
{
    match symbol_of(kind) {
        Symbol::Quantifier(operator) => {
            apply_quantifier(list, tape, sheet, given, operator, x, p)
        }
        _ => -1,
    }
}

// Kind 12 of variable x, over the literals of the bodies: AND with the atoms.
pub fn comprehend(
    list: &mut [i32],
    tape: &mut Tape,
    sheet: &Sheet,
    given: &[i32],
    x: usize,
    p: Literals,
) -> Literals
    requires { Bodies given.now p tape.old }
    ensures { (env : Environment)
        → EmitsMatrix (translate_binary intersection
        (range (sheet_of sheet.now.bytes.now) (literals_of given.now) x env)
        (matrix_of p) tape.old.next)
        list.old tape.old result list.new tape.new }
{
    matched(list, tape, Pairing::Both, leaves::range(sheet, given, x), p)
}
