// Small random queries under random orders, each decided by trying every small heap and compared with the prover's
// verdict. The heap of each satisfiable answer is checked literal by literal. Nothing here is shared with the prover.
// What must be printed comes from tests/enumerate.rs, which makes and decides the same queries.
#![tactic(auto)]

mod heaps;
mod literals;
mod queries;
mod room;

ghost use Rattle.std.specs.Prelude.{◌+◌, ◌≤◌, ◌<◌};

use crate::room::{Room, prefix};
use prover::Answer;

const QUERIES: u64 = 6000;

// What came of one query: what the enumeration says, whether the prover says the same, and whether its report is right.
#[derive(Drop)]
struct Outcome {
    satisfiable: bool,
    agrees: bool,
    reported: bool,
}

// The query is asked and decided. The report is right for a satisfiable answer if it shows a heap, and for any other if it is zero; it
// begins with no zero in it.
fn judge(order: &[u8; 8], query: &Room, length: usize) -> Outcome {
    let mut report: Room = [255; 64];
    let answer = prover::verdict(order, prefix(query, length), &mut report);
    let satisfiable = heaps::is_satisfiable(query);
    let zero = report == [0; 64];
    match answer {
        Answer::Satisfiable => Outcome {
            satisfiable,
            agrees: satisfiable,
            reported: heaps::is_shown(query, &report),
        },
        Answer::Refuted => Outcome {
            satisfiable,
            agrees: !satisfiable,
            reported: zero,
        },
        Answer::Refused(_, _) => Outcome {
            satisfiable,
            agrees: false,
            reported: zero,
        },
    }
}

fn print_bytes(rt: &impl Print, bytes: &[u8]) {
    for byte in bytes {
        streams::write_all(rt, b" ");
        streams::print_hex(rt, *byte);
    }
}

// The order and the query on which the prover fails.
fn print_failure(rt: &impl Print, order: &[u8; 8], query: &Room, length: usize) {
    streams::write_all(rt, b"fails:");
    print_bytes(rt, order);
    print_bytes(rt, prefix(query, length));
    streams::write_all(rt, b"\n");
}

// The next random query is made and judged.
fn ask(rt: &impl Print, seed: &mut u64) -> Outcome {
    let order = queries::random_order(seed);
    let query = queries::next_query(seed);
    let bytes = query.bytes;
    let length = query.length;
    let outcome = judge(&order, &bytes, length);
    if !(outcome.agrees & outcome.reported) {
        print_failure(rt, &order, &bytes, length);
    }
    outcome
}

fn print_total(rt: &impl Print, name: &[u8], total: u64) {
    streams::write_all(rt, name);
    streams::print_decimal(rt, total);
    streams::write_all(rt, b"\n");
}

// All queries are asked, and what came of them is counted.
fn main(rt: HostRuntime) {
    let mut seed: u64 = 1;
    let mut satisfiable: u64 = 0;
    let mut disagreements: u64 = 0;
    let mut failing: u64 = 0;
    for _ in 0..QUERIES {
        let outcome = ask(&rt, &mut seed);
        satisfiable += u64::from(outcome.satisfiable);
        disagreements += u64::from(!outcome.agrees);
        failing += u64::from(!outcome.reported);
    }
    print_total(&rt, b"queries ", QUERIES);
    print_total(&rt, b"satisfiable ", satisfiable);
    print_total(&rt, b"refuted ", QUERIES - satisfiable);
    print_total(&rt, b"disagreements ", disagreements);
    print_total(&rt, b"reports that fail ", failing);
}
