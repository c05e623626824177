// Counting and writing the clauses of a sheet, and clause text.
ghost use Rattle.std.specs.Prelude.{◌≡◌};
ghost use Rattle.clauses.specs.Answers as counted;
ghost use Rattle.dimacs.specs.Answers as texts;
ghost use Rattle.boundary.specs.Numbers.{count_numbers, text_numbers};

use boundary::answer::{CountAnswer, TextAnswer};

#[unsafe(no_mangle)]
pub extern "C" fn fawnloom_count(sheet: &[u8]) -> CountAnswer
    ensures { result ≡ count_numbers (counted.count_answer sheet.now) }
{
    boundary::lists::fawnloom_count(sheet)
}

#[unsafe(no_mangle)]
pub extern "C" fn fawnloom_write(sheet: &[u8], list: &mut [i32]) -> CountAnswer
    ensures value { result ≡ count_numbers (counted.write_answer sheet.now list.old) }
    ensures list_after { list.new ≡ counted.list_after sheet.now list.old }
{
    boundary::lists::fawnloom_write(sheet, list)
}

#[unsafe(no_mangle)]
pub extern "C" fn fawnloom_text_size(list: &[i32], v: u32) -> TextAnswer
    ensures { result ≡ text_numbers (texts.size_answer v list.now) }
{
    boundary::lists::fawnloom_text_size(list, v)
}

#[unsafe(no_mangle)]
pub extern "C" fn fawnloom_text(list: &[i32], v: u32, text: &mut [u8]) -> TextAnswer
    ensures value { result ≡ text_numbers (texts.write_answer v list.now text.old) }
    ensures text_after { text.new ≡ texts.text_after v list.now text.old }
{
    boundary::lists::fawnloom_text(list, v, text)
}
