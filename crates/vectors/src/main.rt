// Runs three rows of inputs, each input after its length in two bytes, and prints what a program prints of each, with a line `--` after it:
// heapverdict; heapverdict, but of a refuted query the first line alone, for a workload whose derivations are not stored; linksverdict. A
// length of 65,535, which no input has, ends a row.
#![tactic(auto)]

ghost use Rattle.std.specs.Prelude.{◌≡◌, ◌≤◌, ◌<◌, length};

// What is printed of each input of a row.
#[derive(Clone, Copy)]
enum Row {
    Verdicts,
    FirstLines,
    LinkVerdicts,
}

// What is printed of an input of a row.
fn put_text(text: &mut [u8], row: Row, input: &[u8]) -> usize
    requires { length text.old ≡ 256006 }
    ensures { result ≤ 256006 }
{
    match row {
        Row::Verdicts => printing::put_text(text, input),
        Row::FirstLines => {
            let n = printing::put_text(text, input);
            if text[0] == b'u' { 6 } else { n }
        }
        Row::LinkVerdicts => printing::put_links_text(text, input),
    }
}

// An input of this length: whether it was there.
fn run_input(rt: &(impl Input + Print), room: &mut [u8], row: Row, length: usize) -> bool {
    if room.len() < length {
        return false;
    }
    let got = streams::read_full(rt, &mut room[..length]);
    if got < length {
        return false;
    }
    let mut text = [0u8; 256006];
    let n = put_text(&mut text, row, &room[..length]);
    streams::write_all(rt, &text[..n]);
    streams::write_all(rt, b"--\n");
    true
}

// One input of a row: whether there was one.
fn run_one(rt: &(impl Input + Print), row: Row) -> bool {
    let mut head = [0u8; 2];
    if streams::read_full(rt, &mut head) < 2 {
        return false;
    }
    let length = usize::from(u16::from_be_bytes(head));
    if length == 65535 {
        return false;
    }
    let mut room = [0u8; 65534];
    run_input(rt, &mut room, row, length)
}

// A proved loop has to end, so it takes as many turns at most as no run uses up.
fn run_row(rt: &(impl Input + Print), row: Row) {
    for _ in 0..1000000 {
        if !run_one(rt, row) {
            return;
        }
    }
}

fn main(rt: HostRuntime) {
    run_row(&rt, Row::Verdicts);
    run_row(&rt, Row::FirstLines);
    run_row(&rt, Row::LinkVerdicts);
}
