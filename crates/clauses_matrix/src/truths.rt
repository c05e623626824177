// Comparisons, and tests of an expression (document 01, "Clauses", the last list).
ghost use Rattle.relational.specs.declared.Test.TheVariants.{Some as some, None as none, Lone as lone};
ghost use Rattle.clauses_rules.specs.Translation.{translate_test};
ghost use Rattle.literal.specs.Words.{literal_of};
ghost use Rattle.clauses_rules.specs.Translation as two;
ghost use Rattle.clauses_emission.specs.Emission.{Inside, Bounded, EmitsLiteral, EmitsTwo};
ghost use Rattle.clauses_matrix.specs.Matrices.{matrix_of, Operand, EmitsTest, compared};

use super::Literals;
use super::operators::matched_cells;
use clauses_emission::gates::{and, both, or, told_both};
use clauses_emission::{Pairing, Tape};

// Equal (Same) and within (Implies): AND over the cells.
pub fn all_matched(
    list: &mut [i32],
    tape: &mut Tape,
    kind: Pairing,
    p: Literals,
    q: Literals,
) -> i32
    requires bounded { Bounded tape.old }
    requires operand { Operand tape.old.next p }
    requires operand_2 { Operand tape.old.next q }
    ensures { EmitsLiteral (compared kind (matrix_of p) (matrix_of q) tape.old.next)
        list.old tape.old result list.new tape.new }
{
    let mut cells = matched_cells(list, tape, kind, p, q);
    and(list, tape, &mut cells[..p.rows * p.columns])
}

pub fn some(list: &mut [i32], tape: &mut Tape, p: Literals) -> i32
    requires bounded { Bounded tape.old }
    requires operand { Operand tape.old.next p }
    ensures { EmitsTest (translate_test some) p list.old tape.old result list.new tape.new }
{
    let mut cells = p.cells;
    or(list, tape, &mut cells[..p.rows * p.columns])
}

pub fn none(list: &mut [i32], tape: &mut Tape, p: Literals) -> i32
    requires bounded { Bounded tape.old }
    requires operand { Operand tape.old.next p }
    ensures { EmitsTest (translate_test none) p list.old tape.old result list.new tape.new }
{
    literal::opposite(some(list, tape, p))
}

// AND(p, q): where it is told no gate is made, and list and tape stay.
fn meet(list: &mut [i32], tape: &mut Tape, p: i32, q: i32) -> i32
    requires bounded { Bounded tape.old }
    requires inside { Inside tape.old.next (literal_of p) }
    requires inside_2 { Inside tape.old.next (literal_of q) }
    ensures { EmitsTwo two.both p q list.old tape.old result list.new tape.new }
{
    match told_both(p, q) {
        Some(l) => l,
        None => both(list, tape, p, q),
    }
}

// At most one: AND over pairs, in order, of OR(-p, -q). It is made as the opposite of OR over pairs of AND(p, q): the
// same gates.
pub fn lone(list: &mut [i32], tape: &mut Tape, p: Literals) -> i32
    requires bounded { Bounded tape.old }
    requires operand { Operand tape.old.next p }
    ensures { EmitsTest (translate_test lone) p list.old tape.old result list.new tape.new }
{
    let n = p.rows * p.columns;
    let mut pairs = [-1; 2016];
    let mut t: usize = 0;
    for i in 0..n {
        for j in i + 1..n {
            pairs[t] = meet(list, tape, p.cells[i], p.cells[j]);
            t += 1;
        }
    }
    literal::opposite(or(list, tape, &mut pairs[..t]))
}
