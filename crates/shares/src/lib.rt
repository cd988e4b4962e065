// What ruleshares prints, turn by turn (02, R-14). A turn is the bytes read for a length and those read behind it: the line of a query, and the
// tally after it. The program reads, takes turns and writes.
#![tactic(auto)]

ghost use Rattle.std.specs.Prelude.{◌≡◌, true, ◌+◌, ◌/◌, ◌%◌, ◌≤◌, length};
ghost use Rattle.logic.specs.Derivation.{lines_in};
ghost use Rattle.prover.specs.Promise.{meaning};
ghost use Rattle.text.specs.Text.{Writes};
ghost use Rattle.sharing.specs.Output.{hex_word, answer_of, written_lines, turn_of};
ghost use Rattle.shares.specs.Taking.{Finishes, Prints, Takes, length_of, may_follow};

use prover::Answer;
use std::ops::ControlFlow;
use tally::Tally;

// The lowest byte of a word.
fn low_byte(k: u32) -> u8
    ensures { result ≡ k % 256 }
{
    (k % 256) as u8
}

// "eight lower-case hex digits"
fn put_hex_word(buffer: &mut [u8], at: usize, k: u32) -> usize
    requires { at ≤ 1000 }
    ensures { Writes buffer.old at (hex_word k) buffer.new result × (result ≤ at + 8) }
{
    let first = text::put_hex_byte(buffer, at, low_byte(k / 16777216));
    let second = text::put_hex_byte(buffer, first, low_byte(k / 65536));
    let third = text::put_hex_byte(buffer, second, low_byte(k / 256));
    text::put_hex_byte(buffer, third, low_byte(k))
}

// The line count and the newline of a line; the tally gains these lines. One that is refused stays as it was.
fn finish(buffer: &mut [u8], at: usize, derivation: &[u8], tally: &mut Tally) -> usize
    requires { at ≤ 1000 }
    ensures { Finishes buffer.old at (lines_in derivation.now) tally.old.counts buffer.new result tally.new.counts }
{
    let count = 256 * tally::byte_at(derivation, 0) + tally::byte_at(derivation, 1);
    let to = text::put_decimal(buffer, at, count);
    let _ = tally.add(derivation);
    text::put_byte(buffer, to, b'\n')
}

// What stands behind the answer. A satisfiable query has no derivation, and none is asked for.
fn count_lines(
    buffer: &mut [u8],
    at: usize,
    order: &[u8],
    query: &[u8],
    answer: Answer,
    tally: &mut Tally,
) -> usize
    requires { (at ≤ 1000) × (meaning answer ≡ answer_of order.now query.now) }
    ensures { Finishes buffer.old at (written_lines order.now query.now) tally.old.counts buffer.new result tally.new.counts }
{
    if let Answer::Satisfiable = answer {
        return finish(buffer, at, b"\0\0", tally);
    }
    let mut lines = [0u8; 64002];
    prover::derivation(order, query, &mut lines);
    finish(buffer, at, &lines, tally)
}

// The line of a query; the tally gains the lines of its derivation.
fn put_query(buffer: &mut [u8], order: &[u8], query: &[u8], tally: &mut Tally) -> usize
    ensures { Prints buffer.old order.now query.now tally.old.counts buffer.new result tally.new.counts }
{
    let mut report = [0u8; 53];
    let answer = prover::verdict(order, query, &mut report);
    let marked = put_hex_word(buffer, 0, fnv::mark(query));
    let answered = text::put_byte(buffer, marked, b' ');
    let worded = printing::put_answer(buffer, answered, answer);
    let counted = text::put_byte(buffer, worded, b' ');
    count_lines(buffer, counted, order, query, answer, tally)
}

// A turn, which answers the length of what it prints, and goes on where a query may follow. The text is stored as far as there is room; 128
// bytes are always enough.
pub fn take_turn(
    buffer: &mut [u8],
    order: &[u8],
    head: &[u8],
    query: &[u8],
    tally: &mut Tally,
) -> ControlFlow<usize, usize>
    ensures { Takes (turn_of order.now tally.old.counts head.now query.now) buffer.old buffer.new (length_of result) tally.new.counts (may_follow result) }
{
    if head.is_empty() {
        return ControlFlow::Break(0);
    }
    if share_lengths::bad_length(head) {
        return ControlFlow::Break(text::put_bytes(buffer, 0, b"bad length\n"));
    }
    ControlFlow::Continue(put_query(buffer, order, query, tally))
}
