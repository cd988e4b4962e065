// Reads an order list and queries from standard input, and prints a line for each query and then each rule's share of the rule lines of their
// derivations. It reads and writes in pieces of 64 KiB; what is printed is `output` (crates/sharing/specs) of all that is read
// (Claims, there).
#![tactic(auto)]

ghost use Rattle.std.specs.Prelude.{◌≡◌, ◌<◌, ◌≤◌, length, take, is_some, IfSome};
ghost use Rattle.sharing.specs.Claims.{Reads, RoundOf, Ends};
ghost use Rattle.share_stream.specs.Turning.{kept_of};

use std::io::{IsTerminal, Stderr};
use tally::Tally;

// How much of the input is held, and whether it has ended.
#[derive(Clone, Copy)]
struct Held {
    filled: usize,
    ended: bool,
}

// What a round leaves: how many bytes are kept, if a query may follow, and whether the input has ended.
#[derive(Drop)]
struct Left {
    kept: Option<usize>,
    ended: bool,
}

// Reads a piece behind the bytes that are kept, which stay. The input has ended where it does not fill the space.
fn read_piece(rt: &impl Input, input: &mut [u8], was: Held) -> Held
    requires { was.filled < length input.old }
    ensures { Reads input.old was.filled was.ended input.new result.filled result.ended }
{
    if was.ended {
        return was;
    }
    let kept = was.filled;
    let space = input.len() - kept;
    let read = streams::read_full(rt, &mut input[kept..]);
    Held {
        filled: kept + read,
        ended: read < space,
    }
}

// "rule 1 first, one a line"
fn print_shares(rt: &impl Print, tally: &Tally) {
    let mut text = [0u8; 336];
    let made = fractions::put_shares(&mut text, tally.counts);
    streams::write_all(rt, &text[..made]);
}

// A line for whoever watches a long run: where standard error is a terminal, after each 32 pieces, first after 31.
fn show_progress(errors: &Stderr, before: u64) {
    if before % 32 == 30 && errors.is_terminal() {
        streams::print_error(errors, "32 more pieces\n");
    }
}

// A round: a piece is read behind the bytes that are kept, just these bytes are processed, and the text is written.
fn round(
    rt: &(impl Input + Print),
    input: &mut [u8],
    text: &mut [u8],
    tally: &mut Tally,
    was: Held,
) -> Left
    requires { (was.filled < length input.old) × (length input.old ≡ 65536) × (128 ≤ length text.old) }
    ensures round { RoundOf tally.old.counts (take was.filled input.old) was.ended tally.new.counts (kept_of input.new result.kept) result.ended (is_some result.kept) }
    ensures room { IfSome result.kept (λ kept. kept < 65536) }
{
    let held = read_piece(rt, input, was);
    let filled = held.filled;
    let done = share_stream::process(text, &mut input[..filled], held.ended, tally);
    let made = done.made;
    streams::write_all(rt, &text[..made]);
    Left {
        kept: done.kept,
        ended: held.ended,
    }
}

// Round by round, as long as a query may follow, to the tally whose shares are printed. A proved loop has to end, so it counts up to a number
// that no stream uses up.
fn run(rt: &(impl Input + Print), errors: &Stderr, input: &mut [u8], text: &mut [u8]) -> Tally
    requires { (length input.old ≡ 65536) × (length text.old ≡ 65536) }
    ensures { Ends result.counts }
{
    let mut tally = Tally::new();
    let mut held = Held {
        filled: 0,
        ended: false,
    };
    for before in 0..u64::MAX {
        let next = round(rt, input, text, &mut tally, held);
        let Some(kept) = next.kept else {
            return tally;
        };
        held = Held {
            filled: kept,
            ended: next.ended,
        };
        show_progress(errors, before);
    }
    tally
}

fn main(rt: HostRuntime) {
    let mut input = [0u8; 65536];
    let mut text = [0u8; 65536];
    let tally = run(&rt, &rt.stderr(), &mut input, &mut text);
    print_shares(&rt, &tally);
}
