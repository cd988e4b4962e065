// The words that programs print: a report's bytes, the lines of a derivation, refusals. Each is made in a lent buffer.
#![tactic(auto)]

ghost use Rattle.std.specs.Prelude.{◌≡◌, true, ◌+◌, ◌*◌, ◌≤◌, ◌<◌, ◌++◌, length};
ghost use Rattle.logic.specs.Facts.{line};
ghost use Rattle.logic.specs.Shown.{well_formed};
ghost use Rattle.text.specs.Text.{Writes, ascii, decimal};
ghost use Rattle.wording.specs.Words.{report_size, report_text, line_text, refused_text, refusal_text};

// A byte as a wider number.
pub fn wide(x: u8) -> usize
    ensures { (result ≡ x) × (result < 256) }
{
    x as usize
}

// "That is 2m+n+5 bytes; bytes past it are zero." With so many links there are as many successors of each node.
fn report_size(report: &[u8], links: usize) -> usize
    requires { (0 < links) × (links ≤ 3) × (well_formed links report.now ≡ true) }
    ensures { (result ≡ report_size report.now) × (result ≤ length report.now) × (5 ≤ result) × (result ≤ 16 * links + 37) }
{
    let p = wide(report[0]);
    let n = wide(report[p + 1]);
    p + n + p / links + 5
}

// "the heap report's bytes .. as two lower-case hex digits each, separated by blanks"
pub fn put_report(buffer: &mut [u8], at: usize, report: &[u8], links: usize) -> usize
    requires { (at ≤ 1000) × (0 < links) × (links ≤ 3) × (well_formed links report.now ≡ true) }
    ensures { Writes buffer.old at (report_text report.now) buffer.new result × (result ≤ at + 48 * links + 111) }
{
    let size = report_size(report, links);
    let mut to = text::put_hex_byte(buffer, at, report[0]);
    for i in 1..size {
        to = text::put_byte(buffer, to, b' ');
        to = text::put_hex_byte(buffer, to, report[i]);
    }
    text::put_byte(buffer, to, b'\n')
}

// A byte in decimal digits.
fn put_number(buffer: &mut [u8], at: usize, x: u8) -> usize
    requires { at ≤ 1000100 }
    ensures { Writes buffer.old at (decimal x) buffer.new result × (result ≤ at + 3) }
{
    text::put_decimal(buffer, at, wide(x))
}

// A blank, and a byte in decimal digits.
fn put_next(buffer: &mut [u8], at: usize, x: u8) -> usize
    requires { at ≤ 1000099 }
    ensures { Writes buffer.old at (ascii " " ++ decimal x) buffer.new result × (result ≤ at + 4) }
{
    let to = text::put_byte(buffer, at, b' ');
    put_number(buffer, to, x)
}

// "four decimal numbers separated by blanks"
pub fn put_line(buffer: &mut [u8], at: usize, a: u8, b: u8, c: u8, d: u8) -> usize
    requires { at ≤ 1000000 }
    ensures { Writes buffer.old at (line_text (line a b c d)) buffer.new result × (result ≤ at + 16) }
{
    let first = put_number(buffer, at, a);
    let second = put_next(buffer, first, b);
    let third = put_next(buffer, second, c);
    let fourth = put_next(buffer, third, d);
    text::put_byte(buffer, fourth, b'\n')
}

// "refused N at P"
pub fn put_refused(buffer: &mut [u8], at: usize, k: usize, place: usize) -> usize
    requires { at ≤ 1000 }
    ensures { Writes buffer.old at (refused_text k place) buffer.new result × (result ≤ at + 52) }
{
    let number = text::put_bytes(buffer, at, b"refused ");
    let behind = text::put_decimal(buffer, number, k);
    let where_from = text::put_bytes(buffer, behind, b" at ");
    text::put_decimal(buffer, where_from, place)
}

// A refusal on a line of its own.
pub fn put_refusal(buffer: &mut [u8], at: usize, k: usize, place: usize) -> usize
    requires { at ≤ 1000 }
    ensures { Writes buffer.old at (refusal_text k place) buffer.new result × (result ≤ at + 53) }
{
    let end = put_refused(buffer, at, k, place);
    text::put_byte(buffer, end, b'\n')
}
