// Text in a lent slice: pieces, numbers in decimal, lines. Each function that puts a piece does so where there is room,
// and answers where it ends.
#![tactic(auto)]

ghost use Rattle.std.specs.Prelude.{◌≡◌, ◌≤◌, length};
ghost use Rattle.text.specs.Texts.{decimal, end_line};
ghost use Rattle.text.specs.Puts.{Room, Put};

// Puts a piece of text.
pub fn put_bytes(text: &mut [u8], at: usize, piece: &[u8]) -> usize
    requires { Room text.old at piece.now }
    ensures { Put text.old at piece.now text.new result }
{
    let end = at + piece.len();
    text[at..end].copy_from_slice(piece);
    end
}

// Puts a number in decimal: the digits of its tenth first, then its last digit.
pub fn put_decimal(text: &mut [u8], at: usize, n: usize) -> usize
    requires { Room text.old at (decimal n) }
    ensures { Put text.old at (decimal n) text.new result }
{
    if n < 10 {
        text[at] = b'0' + n as u8;
        return at + 1;
    }
    let last = put_decimal(text, at, n / 10);
    text[last] = b'0' + (n % 10) as u8;
    last + 1
}

// The number of digits that a number has in decimal.
pub fn decimal_length(n: usize) -> usize
    ensures { result ≡ length (decimal n) }
{
    if n <= 9 {
        1
    } else {
        decimal_length(n / 10) + 1
    }
}

// Puts a word, a number and the end of the line at the start of the text.
pub fn put_end(text: &mut [u8], word: &[u8], n: u64) -> usize
    requires in_bounds { 37 ≤ length text.old }
    requires word_len_bound { length word.now ≤ 16 }
    ensures put { Put text.old 0 (end_line word.now n) text.new result }
    ensures upper_bound { result ≤ 37 }
{
    let at = put_bytes(text, 0, word);
    let feed = put_decimal(text, at, n as usize);
    text[feed] = b'\n';
    feed + 1
}
