// Counting and writing the clauses of a sheet, and clause text.
ghost use Rattle.std.specs.Prelude.{◌≡◌};
ghost use Rattle.clauses.specs.Answers as counted;
ghost use Rattle.dimacs.specs.Answers as texts;
ghost use Rattle.boundary.specs.Numbers.{count_numbers, text_numbers};

use super::answer::{CountAnswer, TextAnswer};
use clauses::answer::Size;
use refusal::Refusal;

fn count_numbers(answer: Result<Size, Refusal>) -> CountAnswer
    ensures { result ≡ count_numbers (counted.answer_of answer) }
{
    match answer {
        Ok(size) => CountAnswer {
            refusal: 0,
            variables: size.variables,
            clauses: size.clauses,
            words: size.words,
        },
        Err(r) => CountAnswer {
            refusal: refusal::number(r),
            variables: 0,
            clauses: 0,
            words: 0,
        },
    }
}

pub fn fawnloom_count(sheet: &[u8]) -> CountAnswer
    ensures { result ≡ count_numbers (counted.count_answer sheet.now) }
{
    count_numbers(clauses::count(sheet))
}

pub fn fawnloom_write(sheet: &[u8], list: &mut [i32]) -> CountAnswer
    ensures value { result ≡ count_numbers (counted.write_answer sheet.now list.old) }
    ensures list_after { list.new ≡ counted.list_after sheet.now list.old }
{
    count_numbers(clauses::write(sheet, list))
}

fn text_numbers(answer: Result<usize, Refusal>) -> TextAnswer
    ensures { result ≡ text_numbers (texts.answer_of answer) }
{
    match answer {
        Ok(n) => TextAnswer {
            refusal: 0,
            bytes: n,
        },
        Err(r) => TextAnswer {
            refusal: refusal::number(r),
            bytes: 0,
        },
    }
}

pub fn fawnloom_text_size(list: &[i32], v: u32) -> TextAnswer
    ensures { result ≡ text_numbers (texts.size_answer v list.now) }
{
    text_numbers(dimacs::size(list, v))
}

pub fn fawnloom_text(list: &[i32], v: u32, text: &mut [u8]) -> TextAnswer
    ensures value { result ≡ text_numbers (texts.write_answer v list.now text.old) }
    ensures text_after { text.new ≡ texts.text_after v list.now text.old }
{
    text_numbers(dimacs::write(list, v, text))
}
