// The lines of a derivation as text, each of four decimal numbers: read number by number.
#![tactic(auto)]

ghost use Rattle.std.specs.Prelude.{◌≡◌, false, ◌≤◌, ◌<◌, length};
ghost use Rattle.text.specs.Text.{ascii, is_digit};
ghost use Rattle.decimal_lines.specs.DecimalLines.{begins, ends_number, next_place, is_between, numbers_from, newline_in, newlines};
ghost use Rattle.decimal_lines.specs.Puts.{Puts};

// The bytes begin with this word.
pub fn begins(bytes: &[u8], word: &[u8]) -> bool
    ensures { result ≡ begins word.now bytes.now }
{
    bytes.starts_with(word)
}

// A text begins as a clash line does, with the number 9.
pub fn begins_clash(text: &[u8]) -> bool
    ensures { result ≡ begins (ascii "9 ") text.now }
{
    begins(text, b"9 ")
}

fn is_digit(c: usize) -> bool
    ensures { result ≡ is_digit c }
{
    48 <= c && c <= 57
}

// The character ends a number that has digits: a blank, or the newline of a line.
fn ends_number(place: usize, begun: bool, c: usize) -> bool
    ensures { result ≡ ends_number place begun c }
{
    if !begun {
        return false;
    }
    if place < 3 {
        return c == 32;
    }
    c == 10
}

// How many of a line's four numbers are read, with one more.
fn next_place(place: usize) -> usize
    ensures { (result ≡ next_place place) × (result ≤ 3) }
{
    if place < 3 {
        return place + 1;
    }
    0
}

// No line is begun.
fn is_between(place: usize, begun: bool) -> bool
    ensures { result ≡ is_between place begun }
{
    !begun && place == 0
}

// The numbers of the lines of a text, a byte each; 0 where it is no text of lines.
pub fn put_numbers(buffer: &mut [u8], at: usize, text: &[u8]) -> usize
    requires { (at ≤ 1000) × (length text.now ≤ 256000) }
    ensures { Puts buffer.old at (numbers_from 0 0 false text.now) buffer.new result }
{
    let mut to = at;
    let mut place: usize = 0;
    let mut value: usize = 0;
    let mut begun = false;
    for byte in text {
        let c = usize::from(*byte);
        if is_digit(c) {
            value = 10 * value + (c - 48);
            if 255 < value {
                return 0;
            }
            begun = true;
            continue;
        }
        if !ends_number(place, begun, c) {
            return 0;
        }
        to = text::put_byte(buffer, to, value as u8);
        place = next_place(place);
        value = 0;
        begun = false;
    }
    if !is_between(place, begun) {
        return 0;
    }
    to
}

// How many newlines a text has.
pub fn count_newlines(text: &[u8]) -> usize
    ensures { result ≡ newlines text.now }
{
    text.iter().filter(|c| **c == b'\n').count()
}
