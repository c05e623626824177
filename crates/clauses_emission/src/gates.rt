// OR, AND and IFF (document 01, "Clauses", second paragraph; document 02, Change 2). Past the limit of variables no gate
// is made.
ghost use Rattle.std.specs.Prelude.{◌≡◌, pos, IfSome};
ghost use Rattle.literal.specs.Literals.{opposite};
ghost use Rattle.literal.specs.Words.{literal_of};
ghost use Rattle.clauses_rules.specs.Gates as spec;
ghost use Rattle.clauses_rules.specs.Gates.{gate_of, input_clauses};
ghost use Rattle.clauses_rules.specs.Translation as two;
ghost use Rattle.clauses_emission.specs.Emission.{literals_of, Inside, Inputs, Appends, Bounded, Within};
ghost use Rattle.clauses_emission.specs.Emission.{EmitsList, EmitsTwo, pairing};
ghost use Rattle.clauses_emission.specs.Settling.{Told, Tells};

use super::inputs::{settle, turn};
use super::list::emit_clause;
use super::{LIMIT, Pairing, Tape};

// Writes (g, -l) for each input l of the gate of the next variable.
fn gate_inputs(list: &mut [i32], tape: &mut Tape, g: i32, inputs: &[i32])
    requires bounded { Bounded tape.old }
    requires within { Within tape.old.next }
    requires inputs { Inputs tape.old.next inputs.now }
    requires g_value { g ≡ pos tape.old.next }
    ensures { Appends (input_clauses tape.old.next (literals_of inputs.now))
        list.old tape.old list.new tape.new }
{
    for l in inputs {
        emit_clause(list, tape, g, &[literal::opposite(*l)]);
    }
}

// The gate of the next variable, and its clauses.
fn gate(list: &mut [i32], tape: &mut Tape, inputs: &[i32]) -> i32
    requires bounded { Bounded tape.old }
    requires inputs { Inputs tape.old.next inputs.now }
    ensures { EmitsList gate_of inputs.now list.old tape.old result list.new tape.new }
{
    if LIMIT < tape.next {
        return 1;
    }
    let g = literal::positive(tape.next as u32);
    gate_inputs(list, tape, g, inputs);
    emit_clause(list, tape, literal::opposite(g), inputs);
    tape.next += 1;
    g
}

// OR, over inputs that change places: what remains of them moves to the front.
pub fn or(list: &mut [i32], tape: &mut Tape, inputs: &mut [i32]) -> i32
    requires bounded { Bounded tape.old }
    requires inputs { Inputs tape.old.next inputs.old }
    ensures { EmitsList spec.or inputs.old list.old tape.old result list.new tape.new }
{
    match settle(inputs) {
        0 => -1,
        1 => inputs[0],
        n => gate(list, tape, &inputs[..n]),
    }
}

// AND: the opposite of OR of the opposites, in the place of the inputs.
pub fn and(list: &mut [i32], tape: &mut Tape, inputs: &mut [i32]) -> i32
    requires bounded { Bounded tape.old }
    requires inputs { Inputs tape.old.next inputs.old }
    ensures { EmitsList spec.and inputs.old list.old tape.old result list.new tape.new }
{
    turn(inputs);
    literal::opposite(or(list, tape, inputs))
}

// OR(p, q) where constants, a repeat or opposites tell it, and not where it is a gate.
fn told(p: i32, q: i32) -> Option<i32>
    requires inside { Inside 16002 (literal_of p) }
    requires inside_2 { Inside 16002 (literal_of q) }
    ensures { Tells p q result }
{
    if p == -1 {
        Some(q)
    } else if q == -1 || p == q {
        Some(p)
    } else {
        let other = literal::opposite(q);
        if p == 1 || q == 1 || p == other {
            Some(1)
        } else {
            None
        }
    }
}

// The same of AND(p, q).
pub fn told_both(p: i32, q: i32) -> Option<i32>
    requires inside { Inside 16002 (literal_of p) }
    requires inside_2 { Inside 16002 (literal_of q) }
    ensures { IfSome result (λ l. Told two.both p q l) }
{
    told(literal::opposite(p), literal::opposite(q)).map(literal::opposite)
}

// OR(p, q): a gate is made only where nothing tells it.
pub fn either(list: &mut [i32], tape: &mut Tape, p: i32, q: i32) -> i32
    requires bounded { Bounded tape.old }
    requires inside { Inside tape.old.next (literal_of p) }
    requires inside_2 { Inside tape.old.next (literal_of q) }
    ensures { EmitsTwo two.either p q list.old tape.old result list.new tape.new }
{
    match told(p, q) {
        Some(l) => l,
        None => gate(list, tape, &[p, q]),
    }
}

pub fn implies(list: &mut [i32], tape: &mut Tape, p: i32, q: i32) -> i32
    requires bounded { Bounded tape.old }
    requires inside { Inside tape.old.next (literal_of p) }
    requires inside_2 { Inside tape.old.next (literal_of q) }
    ensures { EmitsTwo two.implies p q list.old tape.old result list.new tape.new }
{
    either(list, tape, literal::opposite(p), q)
}

pub fn apart(list: &mut [i32], tape: &mut Tape, p: i32, q: i32) -> i32
    requires bounded { Bounded tape.old }
    requires inside { Inside tape.old.next (literal_of p) }
    requires inside_2 { Inside tape.old.next (literal_of q) }
    ensures { EmitsTwo two.apart p q list.old tape.old result list.new tape.new }
{
    either(list, tape, literal::opposite(p), literal::opposite(q))
}

pub fn both(list: &mut [i32], tape: &mut Tape, p: i32, q: i32) -> i32
    requires bounded { Bounded tape.old }
    requires inside { Inside tape.old.next (literal_of p) }
    requires inside_2 { Inside tape.old.next (literal_of q) }
    ensures { EmitsTwo two.both p q list.old tape.old result list.new tape.new }
{
    literal::opposite(apart(list, tape, p, q))
}

// AND(p, -q): the opposite of OR(-p, q).
pub fn without(list: &mut [i32], tape: &mut Tape, p: i32, q: i32) -> i32
    requires bounded { Bounded tape.old }
    requires inside { Inside tape.old.next (literal_of p) }
    requires inside_2 { Inside tape.old.next (literal_of q) }
    ensures { EmitsTwo two.without p q list.old tape.old result list.new tape.new }
{
    literal::opposite(implies(list, tape, p, q))
}

// IFF(p, q): AND(OR(-p, q), OR(-q, p)).
pub fn same(list: &mut [i32], tape: &mut Tape, p: i32, q: i32) -> i32
    requires bounded { Bounded tape.old }
    requires inside { Inside tape.old.next (literal_of p) }
    requires inside_2 { Inside tape.old.next (literal_of q) }
    ensures { EmitsTwo two.same p q list.old tape.old result list.new tape.new }
{
    let x = implies(list, tape, p, q);
    let y = implies(list, tape, q, p);
    both(list, tape, x, y)
}

// One of these.
// Kept: with a function in its place each contract over cells would have to ask for its law; `pairing` says it once.
pub fn pair(list: &mut [i32], tape: &mut Tape, kind: Pairing, p: i32, q: i32) -> i32
    requires bounded { Bounded tape.old }
    requires inside { Inside tape.old.next (literal_of p) }
    requires inside_2 { Inside tape.old.next (literal_of q) }
    ensures { EmitsTwo (pairing kind) p q list.old tape.old result list.new tape.new }
{
    match kind {
        Pairing::Either => either(list, tape, p, q),
        Pairing::Both => both(list, tape, p, q),
        Pairing::Without => without(list, tape, p, q),
        Pairing::Implies => implies(list, tape, p, q),
        Pairing::Same => same(list, tape, p, q),
        Pairing::Apart => apart(list, tape, p, q),
    }
}
