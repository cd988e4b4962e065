// Bytes in hex digits: a query, and a literal with where it stands (02, R-12).
#![tactic(auto)]

ghost use Rattle.std.specs.Prelude.{◌++◌, map, ◌≤◌, length};
ghost use Rattle.text.specs.Text.{Writes, ascii, decimal, hex_byte};
ghost use Rattle.wording.specs.Words.{behind};
ghost use Rattle.hex_lines.specs.HexLines.{hex_line};

// Bytes in hex digits, a blank before each, and a newline.
fn put_behind(buffer: &mut [u8], at: usize, bytes: &[u8]) -> usize
    requires { (at ≤ 1000) × (length bytes.now ≤ 100000) }
    ensures { Writes buffer.old at (behind (map hex_byte bytes.now)) buffer.new result }
{
    let mut to = at;
    for byte in bytes {
        to = text::put_byte(buffer, to, b' ');
        to = text::put_hex_byte(buffer, to, *byte);
    }
    text::put_byte(buffer, to, b'\n')
}

// Bytes in hex digits with blanks between, and a newline.
pub fn put_hex_line(buffer: &mut [u8], at: usize, bytes: &[u8]) -> usize
    requires { (at ≤ 900) × (length bytes.now ≤ 100000) }
    ensures { Writes buffer.old at (hex_line bytes.now) buffer.new result }
{
    if bytes.is_empty() {
        return text::put_byte(buffer, at, b'\n');
    }
    let to = text::put_hex_byte(buffer, at, bytes[0]);
    put_behind(buffer, to, &bytes[1..])
}

// Where a literal stands, and its bytes.
fn put_part(buffer: &mut [u8], word: &[u8], at: usize, part: &[u8]) -> usize
    requires { (length word.now ≤ 100) × (length part.now ≤ 100000) }
    ensures { Writes buffer.old 0 (word.now ++ (decimal at ++ (ascii ": " ++ hex_line part.now))) buffer.new result }
{
    let number = text::put_bytes(buffer, 0, word);
    let colon = text::put_decimal(buffer, number, at);
    let bytes = text::put_bytes(buffer, colon, b": ");
    put_hex_line(buffer, bytes, part)
}

// A literal of the first query, and where it stands there.
pub fn put_in_first(buffer: &mut [u8], at: usize, part: &[u8]) -> usize
    requires { length part.now ≤ 100000 }
    ensures { Writes buffer.old 0 (ascii "first query at " ++ (decimal at ++ (ascii ": " ++ hex_line part.now))) buffer.new result }
{
    put_part(buffer, b"first query at ", at, part)
}

// A literal of the second query, and where it stands there.
pub fn put_in_second(buffer: &mut [u8], at: usize, part: &[u8]) -> usize
    requires { length part.now ≤ 100000 }
    ensures { Writes buffer.old 0 (ascii "second query at " ++ (decimal at ++ (ascii ": " ++ hex_line part.now))) buffer.new result }
{
    put_part(buffer, b"second query at ", at, part)
}
