// Text written into a lent buffer: a writer stores what has room, and answers the place behind what it wrote.
// Buffer and place stay two parameters: `Writes` in each clause has both apart, and the place runs on past the buffer's end.
#![tactic(auto)]

ghost use Rattle.std.specs.Prelude.{◌≡◌, [], ◌∷◌, ◌+◌, ◌≤◌, ◌<◌, length};
ghost use Rattle.text.specs.Text.{Writes, decimal, hex_digit, hex_byte};

// One byte.
pub fn put_byte(buffer: &mut [u8], at: usize, byte: u8) -> usize
    requires { at < 18446744073709551615 }
    ensures { Writes buffer.old at (byte ∷ []) buffer.new result }
{
    if at < buffer.len() {
        buffer[at] = byte;
    }
    at + 1
}

// The bytes of a word.
pub fn put_bytes(buffer: &mut [u8], at: usize, bytes: &[u8]) -> usize
    requires { at + length bytes.now ≤ 18446744073709551615 }
    ensures { Writes buffer.old at bytes.now buffer.new result }
{
    let mut to = at;
    for byte in bytes {
        to = put_byte(buffer, to, *byte);
    }
    to
}

// A decimal digit below ten.
fn digit(d: usize) -> u8
    requires { d < 10 }
    ensures { result ≡ 48 + d }
{
    48 + d as u8
}

// A number in decimal digits: those before the last, and the last.
pub fn put_decimal(buffer: &mut [u8], at: usize, k: usize) -> usize
    requires { at + 20 ≤ 18446744073709551615 }
    ensures { Writes buffer.old at (decimal k) buffer.new result }
{
    if k < 10 {
        return put_byte(buffer, at, digit(k));
    }
    let to = put_decimal(buffer, at, k / 10);
    put_byte(buffer, to, digit(k % 10))
}

// A hex digit below sixteen.
fn hex_digit(d: u8) -> u8
    requires { d < 16 }
    ensures { result ≡ hex_digit d }
{
    if d < 10 {
        return 48 + d;
    }
    87 + d
}

// A byte in two hex digits.
pub fn put_hex_byte(buffer: &mut [u8], at: usize, k: u8) -> usize
    requires { at + 2 ≤ 18446744073709551615 }
    ensures { Writes buffer.old at (hex_byte k) buffer.new result }
{
    let to = put_byte(buffer, at, hex_digit(k / 16));
    put_byte(buffer, to, hex_digit(k % 16))
}
