// What `cnf` prints for an input.
#![tactic(auto)]

ghost use Rattle.std.specs.Prelude.{◌≡◌, true, ◌≤◌, length, take};
ghost use Rattle.text.specs.Texts.{Prints};
ghost use Rattle.clause_list.specs.ClauseList.{is_list};
ghost use Rattle.dimacs.specs.Text.{text_of};
ghost use Rattle.cnf_text.specs.Private.{PrintsText};
ghost use Rattle.cnf_text.specs.Printed.{clause_text, list_left};

use clauses::answer::Size;
use text::put_end;

// The text of a list's first words, which are a list of clauses. It is lent as many bytes as it has.
fn put_clauses(text: &mut [u8], list: &[i32], size: Size) -> usize
    requires words_in_bounds { size.words ≤ length list.now }
    requires list_value { is_list size.variables (take size.words list.now) ≡ true }
    requires list_in_bounds { length (text_of size.variables (take size.words list.now)) ≤ length text.old }
    ensures { PrintsText (text_of size.variables (take size.words list.now)) text.old text.new result }
{
    let w = size.words;
    let words = &list[..w];
    let v = size.variables as u32;
    let sized = dimacs::size(words, v);
    let Ok(n) = sized else {
        return 0;
    };
    // a slice of the text's length is filled, and the call answers n again
    let _ = dimacs::write(words, v, &mut text[..n]);
    n
}

// Reads the input as a sheet, and writes its clause text, or the number of a refusal, to the front of the text.
pub fn clause_text(input: &[u8], list: &mut [i32; 262144], text: &mut [u8; 1835022]) -> usize
    ensures upper_bound { (result ≤ length text.new) × (result ≡ length (take result text.new)) }
    ensures prints { Prints (clause_text input.now list.old) text.old text.new result }
    ensures list_after { list.new ≡ list_left input.now list.old }
{
    if input.len() > 4096 {
        return put_end(text, b"refused ", 2);
    }
    let written = clauses::write(input, list);
    match written {
        Err(r) => put_end(text, b"refused ", refusal::number(r) as u64),
        Ok(size) => put_clauses(text, list, size),
    }
}
