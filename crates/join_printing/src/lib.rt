// What joinqueries prints, made in a lent buffer (02, R-12). The program reads, asks for the text and writes it.
#![tactic(auto)]

ghost use Rattle.std.specs.Prelude.{◌≡◌, ◌++◌, ◌≤◌, length, take};
ghost use Rattle.refusals.specs.Numbers.{number_of};
ghost use Rattle.text.specs.Text.{Writes};
ghost use Rattle.wording.specs.Words.{refused_text};
ghost use Rattle.join_printing.specs.Refused.{refusal_words};
ghost use Rattle.join_printing.specs.JoinText.{joined_text, handed_text, line_in, told_text, query_in, behind_query, joinqueries_text};

use joiner::{HandBack, JoinRefusal};
use refusals::Refusal;

// A refusal, and which query it is about.
fn put_about(buffer: &mut [u8], refusal: Refusal, about: &[u8]) -> usize
    requires { length about.now ≤ 100 }
    ensures { Writes buffer.old 0 (refused_text (number_of refusal.fault) refusal.place ++ about.now) buffer.new result }
{
    let end = wording::put_refused(buffer, 0, refusal.fault.number(), refusal.place);
    text::put_bytes(buffer, end, about)
}

// A refusal of two queries.
fn put_refusal(buffer: &mut [u8], refusal: JoinRefusal) -> usize
    ensures { Writes buffer.old 0 (refusal_words refusal) buffer.new result }
{
    match refusal {
        JoinRefusal::First(e) => put_about(buffer, e, b" of the first query\n"),
        JoinRefusal::Second(e) => put_about(buffer, e, b" of the second query\n"),
        JoinRefusal::Neither(e) => put_about(buffer, e, b"\n"),
    }
}

// The two queries as one.
fn put_joined(buffer: &mut [u8], first: &[u8], second: &[u8], pairs: &[u8]) -> usize
    ensures { Writes buffer.old 0 (joined_text first.now second.now pairs.now) buffer.new result }
{
    let mut out = [0u8; 561];
    match joiner::join(first, second, pairs, &mut out) {
        Ok(length) => hex_lines::put_hex_line(buffer, 0, &out[..length]),
        Err(refusal) => put_refusal(buffer, refusal),
    }
}

// The literal that a clash line names, from the query that it came from.
fn put_handed(buffer: &mut [u8], first: &[u8], second: &[u8], line: &[u8]) -> usize
    requires { (length first.now ≤ 65535) × (length second.now ≤ 65535) }
    ensures { Writes buffer.old 0 (handed_text first.now second.now line.now) buffer.new result }
{
    match joiner::find_named(first, second, line) {
        Ok(HandBack::InFirst(at, size)) => {
            let end = at + size;
            hex_lines::put_in_first(buffer, at, &first[at..end])
        }
        Ok(HandBack::InSecond(at, size)) => {
            let end = at + size;
            hex_lines::put_in_second(buffer, at, &second[at..end])
        }
        Err(refusal) => put_refusal(buffer, refusal),
    }
}

// The numbers of a line: how many; 0 where it is no line.
fn read_line(line: &mut [u8], text: &[u8]) -> usize
    requires { length line.old ≡ 256 }
    ensures { (result ≤ 256) × (take result line.new ≡ line_in text.now) }
{
    if 64 < text.len() {
        return 0;
    }
    decimal_lines::put_numbers(line, 0, text)
}

// What is told of two queries: the literal that a clash line names, or both as one.
fn put_told(buffer: &mut [u8], first: &[u8], second: &[u8], rest: &[u8]) -> usize
    requires { (length first.now ≤ 65535) × (length second.now ≤ 65535) }
    ensures { Writes buffer.old 0 (told_text first.now second.now rest.now) buffer.new result }
{
    if !decimal_lines::begins_clash(rest) {
        return put_joined(buffer, first, second, rest);
    }
    let mut line = [0u8; 256];
    let made = read_line(&mut line, rest);
    put_handed(buffer, first, second, &line[..made])
}

// The second query, and what stands behind it.
fn put_second(buffer: &mut [u8], first: &[u8], input: &[u8]) -> usize
    requires { length first.now ≤ 65535 }
    ensures { Writes buffer.old 0 (told_text first.now (query_in input.now) (behind_query input.now)) buffer.new result }
{
    let n = input.len();
    let size = 256 * tally::byte_at(input, 0) + tally::byte_at(input, 1);
    let from = n.min(2);
    let to = n.min(2 + size);
    put_told(buffer, first, &input[from..to], &input[to..])
}

// The text of these bytes: two queries, each behind its length in two bytes, and a pair list or a clash line. It answers the length of the
// text, which is stored as far as there is room.
pub fn put_text(buffer: &mut [u8], input: &[u8]) -> usize
    ensures { Writes buffer.old 0 (joinqueries_text input.now) buffer.new result }
{
    let n = input.len();
    let size = 256 * tally::byte_at(input, 0) + tally::byte_at(input, 1);
    let from = n.min(2);
    let to = n.min(2 + size);
    put_second(buffer, &input[from..to], &input[to..])
}
