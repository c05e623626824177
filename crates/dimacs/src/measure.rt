// The length of a clause text, counted in one pass over the list. No text is made for it.
ghost use Rattle.std.specs.Prelude.{◌≡◌, true, ◌≤◌, ◌<◌, ◌^◌, nat_abs, length};
ghost use Rattle.clause_list.specs.ClauseList.{clauses_of, is_list};
ghost use Rattle.dimacs.specs.Text.{literal_text, clause_line, header, text_of};
ghost use Rattle.dimacs.specs.Private.{Proper};

use crate::walk::split_clause;
use text::decimal_length;

// The number of a list's clauses, and the bytes of its text.
#[derive(Clone, Copy)]
pub struct Measured {
    pub clauses: usize,
    pub bytes: usize,
}

// The bytes of a literal: a minus where it says that its variable is false, then the variable's digits.
fn literal_length(l: i32) -> usize
    requires { 1 ≤ nat_abs l }
    ensures { result ≡ length (literal_text l) }
{
    let digits = decimal_length(literal::variable(l) as usize);
    if literal::is_positive(l) {
        digits
    } else {
        digits + 1
    }
}

// The bytes of a clause's line: its literals, each with a space, then the closing 0 and the line feed.
fn line_length(clause: &[i32]) -> usize
    requires proper { Proper clause.now }
    requires clause_len_bound { length (clause_line clause.now) < 2 ^ 64 }
    ensures { result ≡ length (clause_line clause.now) }
{
    let mut bytes = 2;
    for l in clause {
        bytes += literal_length(*l) + 1;
    }
    bytes
}

// The bytes of the header: two numbers, and 8 around them.
fn header_length(v: usize, clauses: usize) -> usize
    ensures { result ≡ length (header v clauses) }
{
    decimal_length(v) + decimal_length(clauses) + 8
}

// Counts the clauses of a list, and the bytes of its text with v variables.
pub fn measure(list: &[i32], v: u32) -> Measured
    requires { is_list v list.now ≡ true }
    ensures clauses_value { result.clauses ≡ length (clauses_of list.now) }
    ensures bytes_value { result.bytes ≡ length (text_of v list.now) }
{
    let mut clauses = 0;
    let mut lines = 0;
    let mut left = list;
    while let Some((clause, rest)) = split_clause(left) {
        lines += line_length(clause);
        clauses += 1;
        left = rest;
    }
    let bytes = header_length(v as usize, clauses) + lines;
    Measured { clauses, bytes }
}
