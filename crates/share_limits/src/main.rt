// Values of FNV-1a's public test vectors, and a tally near its limit: refusal 28 leaves it as it was, and the next derivation is added. Then the
// streams of standard input (tests/share_vectors.py), each after its length in two bytes, high first: what ruleshares prints of each, by the same
// functions, and a line `--`.
#![tactic(auto)]

ghost use Rattle.std.specs.Prelude.{◌≤◌, length};

use tally::Tally;

// A number on a line.
fn print(rt: &impl Print, k: usize) {
    streams::print_decimal(rt, k as u64);
    streams::write_all(rt, b"\n");
}

fn wide(x: u32) -> usize {
    x as usize
}

// A derivation is added: the answer, 0 or the refusal's number, and the counts then.
fn print_step(rt: &impl Print, tally: &mut Tally, derivation: &[u8]) {
    let refused = match tally.add(derivation) {
        Ok(()) => 0,
        Err(refusal) => refusal.number(),
    };
    print(rt, refused);
    for count in &tally.counts {
        print(rt, wide(*count));
    }
}

fn print_limits(rt: &impl Print) {
    print(rt, wide(fnv::mark(b"")));
    print(rt, wide(fnv::mark(b"a")));
    print(rt, wide(fnv::mark(b"b")));
    print(rt, wide(fnv::mark(b"foobar")));
    // room for two more lines of rule 1, and none of rule 8
    let mut tally = Tally {
        counts: [4294967293, 0, 0, 0, 0, 0, 0, 4294967295],
    };
    // 10 1 2 0, 1 1 0 0, 1 2 0 0, 9 2 1 0: a join, two lines of rule 1, a clash
    print_step(
        rt,
        &mut tally,
        b"\0\x04\x0a\x01\x02\0\x01\x01\0\0\x01\x02\0\0\x09\x02\x01\0",
    );
    // 1 1 0 0: a count would pass
    print_step(rt, &mut tally, b"\0\x01\x01\x01\0\0");
    // 2 1 2 0 and 8 1 2 3: the second would pass, so neither is counted
    print_step(rt, &mut tally, b"\0\x02\x02\x01\x02\0\x08\x01\x02\x03");
    // 2 1 2 0 alone: the tally goes on
    print_step(rt, &mut tally, b"\0\x01\x02\x01\x02\0");
}

// "rule 1 first, one a line"
fn print_shares(rt: &impl Print, tally: &Tally) {
    let mut text = [0u8; 336];
    let made = fractions::put_shares(&mut text, tally.counts);
    streams::write_all(rt, &text[..made]);
}

// A stream that has come whole, and is short: the text has room for all its lines.
fn print_stream(rt: &impl Print, text: &mut [u8], held: &mut [u8])
    requires { 128 ≤ length text.old }
{
    let mut tally = Tally::new();
    let done = share_stream::process(text, held, true, &mut tally);
    let made = done.made;
    streams::write_all(rt, &text[..made]);
    print_shares(rt, &tally);
    streams::write_all(rt, b"--\n");
}

// Stream by stream.
fn print_streams(rt: &impl Print, text: &mut [u8], input: &mut [u8])
    requires { 128 ≤ length text.old }
{
    let end = input.len();
    let mut at: usize = 0;
    while at < end {
        let size = 256 * tally::byte_at(input, at) + tally::byte_at(input, at + 1);
        if end - at < 2 + size {
            return;
        }
        let from = at + 2;
        at = from + size;
        print_stream(rt, text, &mut input[from..at]);
    }
}

fn main(rt: HostRuntime) {
    print_limits(&rt);
    let mut input = [0u8; 65536];
    let mut text = [0u8; 65536];
    let read = streams::read_full(&rt, &mut input);
    print_streams(&rt, &mut text, &mut input[..read]);
}
