// Clause text in the DIMACS CNF format (document 01): its length, and the text itself.
#![tactic(auto)]

ghost use Rattle.std.specs.Prelude.{◌≡◌, ◌≤◌, nat_abs};
ghost use Rattle.text.specs.Puts.{Room, Put};
ghost use Rattle.clause_list.specs.ClauseList.{clauses_of};
ghost use Rattle.dimacs.specs.Text.{literal_text, clause_line, clause_lines, header};
ghost use Rattle.dimacs.specs.Answers.{answer_of, size_answer, write_answer, text_after};
ghost use Rattle.dimacs.specs.Private.{Proper, Listed};

use measure::measure;
use refusal::Refusal;
use text::{put_bytes, put_decimal};
use walk::split_clause;

mod measure;
mod walk;

// Puts a literal: a minus where it says that its variable is false, then the variable.
fn put_literal(text: &mut [u8], at: usize, l: i32) -> usize
    requires bound { 1 ≤ nat_abs l }
    requires room { Room text.old at (literal_text l) }
    ensures { Put text.old at (literal_text l) text.new result }
{
    let n = literal::variable(l) as usize;
    if literal::is_positive(l) {
        put_decimal(text, at, n)
    } else {
        text[at] = b'-';
        put_decimal(text, at + 1, n)
    }
}

// Puts the line of a clause.
fn put_clause(text: &mut [u8], at: usize, clause: &[i32]) -> usize
    requires proper { Proper clause.now }
    requires room { Room text.old at (clause_line clause.now) }
    ensures { Put text.old at (clause_line clause.now) text.new result }
{
    let mut end = at;
    for l in clause {
        end = put_literal(text, end, *l);
        text[end] = b' ';
        end += 1;
    }
    put_bytes(text, end, b"0\n")
}

// Puts the line of every clause of a list.
fn put_clauses(text: &mut [u8], at: usize, list: &[i32]) -> usize
    requires listed { Listed list.now }
    requires room { Room text.old at (clause_lines (clauses_of list.now)) }
    ensures { Put text.old at (clause_lines (clauses_of list.now)) text.new result }
{
    let mut end = at;
    let mut left = list;
    while let Some((clause, rest)) = split_clause(left) {
        end = put_clause(text, end, clause);
        left = rest;
    }
    end
}

// Puts the header from the start of the text.
fn put_header(text: &mut [u8], v: usize, clauses: usize) -> usize
    requires { Room text.old 0 (header v clauses) }
    ensures { Put text.old 0 (header v clauses) text.new result }
{
    let number = put_bytes(text, 0, b"p cnf ");
    let space = put_decimal(text, number, v);
    text[space] = b' ';
    let feed = put_decimal(text, space + 1, clauses);
    text[feed] = b'\n';
    feed + 1
}

// The length of the text of a list with v variables.
pub fn size(list: &[i32], v: u32) -> Result<usize, Refusal>
    ensures { answer_of result ≡ size_answer v list.now }
{
    if !clause_list::is_list(list, v) {
        return Err(Refusal::List);
    }
    let measured = measure(list, v);
    Ok(measured.bytes)
}

// Writes the text of a list with v variables, and answers its bytes.
pub fn write(list: &[i32], v: u32, text: &mut [u8]) -> Result<usize, Refusal>
    ensures result_value { answer_of result ≡ write_answer v list.now text.old }
    ensures text_after { text.new ≡ text_after v list.now text.old }
{
    if !clause_list::is_list(list, v) {
        return Err(Refusal::List);
    }
    let measured = measure(list, v);
    if text.len() < measured.bytes {
        return Err(Refusal::Short);
    }
    let start = put_header(text, v as usize, measured.clauses);
    let end = put_clauses(text, start, list);
    Ok(end)
}
