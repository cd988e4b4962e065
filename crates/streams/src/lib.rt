// The standard streams as the programs use them: a lent buffer is filled from standard input, bytes and numbers are written to standard
// output, and a line to standard error. A read that fails ends the input. A write that fails ends what is
// written by that call, and says so to nobody, since no contract can say what a stream took.
#![tactic(auto)]

ghost use Rattle.std.specs.Prelude.{◌≡◌, ◌≤◌, length, take};
ghost use Rattle.std.specs.Io.KnownBytes.{Consumes};

use std::io::Read;

// Reads until the buffer is full, the reader ends or a read fails: how many bytes now stand at the buffer's front. They are the next ones
// of the reader, and it has given no more.
pub fn fill<R: Read>(reader: &mut R, buffer: &mut [u8]) -> usize
    ensures within { result ≤ length buffer.new }
    ensures count { result ≡ length (take result buffer.new) }
    ensures front { Consumes (R.remaining reader.old) (R.remaining reader.new) (take result buffer.new) }
{
    let mut filled = 0;
    while filled < buffer.len() {
        let Ok(n) = reader.read(&mut buffer[filled..]) else {
            break;
        };
        if n == 0 {
            break;
        }
        filled += n;
    }
    filled
}

// The same of standard input.
pub fn read_full(rt: &impl Input, buffer: &mut [u8]) -> usize
    ensures within { result ≤ length buffer.new }
    ensures count { result ≡ length (take result buffer.new) }
{
    let mut reader = rt.reader();
    fill(&mut reader, buffer)
}

// Writes all bytes to standard output.
pub fn write_all(rt: &impl Print, bytes: &[u8]) {
    let _is_written = rt.write_all(bytes).is_ok();
}

// A number in decimal digits, on standard output.
pub fn print_decimal(rt: &impl Print, number: u64) {
    let _is_written = rt.print(number).is_ok();
}

// A byte in two hex digits, on standard output.
pub fn print_hex(rt: &impl Print, byte: u8) {
    let _is_written = print!(rt; "{byte:02x}").is_ok();
}

// A text, on standard error.
pub fn print_error(rt: &impl Eprint, text: &str) {
    let _is_written = rt.eprint(text).is_ok();
}

// A buffer shorter than what is read, and one that is longer than the rest.
#[test]
fn fills_as_far_as_it_can(rt: HostRuntime) {
    let mut reader: &[u8] = b"abcde";
    let mut buffer = [0u8; 3];
    assert!(rt; fill(&mut reader, &mut buffer) == 3, "three bytes fit");
    assert!(rt; buffer == [97, 98, 99], "they are the first");
    assert!(rt; fill(&mut reader, &mut buffer) == 2, "two are left");
    assert!(rt; buffer == [100, 101, 99], "they stand at the front");
    assert!(rt; fill(&mut reader, &mut buffer) == 0, "then none");
}
