// What heapverdict and linksverdict print, made in a lent buffer. The program reads, asks for the text and writes it.
#![tactic(auto)]

ghost use Rattle.std.specs.Prelude.{◌≡◌, ◌+◌, ◌≤◌, ◌<◌, length, replicate};
ghost use Rattle.logic.specs.Search.{flat_map};
ghost use Rattle.logic.specs.Derivation.{lines_in};
ghost use Rattle.logic.specs.Calls.{one_link_form, verdict_call_of};
ghost use Rattle.logic.specs.ThreeLinks.{three_link_form};
ghost use Rattle.logic.specs.Demands.{Fits};
ghost use Rattle.call_limits.specs.Forms.{form_of};
ghost use Rattle.prover.specs.Promise.{meaning, input_of, Does};
ghost use Rattle.text.specs.Text.{Writes};
ghost use Rattle.wording.specs.Words.{line_text};
ghost use Rattle.printing.specs.HeapverdictText.{answer_text, unsat_text, text_of, heapverdict_text, linksverdict_text};

use prover::Answer;

// The lines of a derivation.
fn put_lines(buffer: &mut [u8], at: usize, lines: &[u8]) -> usize
    requires { (at ≤ 1000) × Fits (length lines.now) (lines_in lines.now) }
    ensures { Writes buffer.old at (flat_map line_text (lines_in lines.now)) buffer.new result × (result ≤ at + 256000) }
{
    let count = 256 * wording::wide(lines[0]) + wording::wide(lines[1]);
    let mut to = at;
    for i in 0..count {
        let from = 2 + 4 * i;
        to = wording::put_line(
            buffer,
            to,
            lines[from],
            lines[from + 1],
            lines[from + 2],
            lines[from + 3],
        );
    }
    to
}

// The words of an answer: heapverdict's first line without its newline.
pub fn put_answer(buffer: &mut [u8], at: usize, answer: Answer) -> usize
    requires { at ≤ 1000 }
    ensures { Writes buffer.old at (answer_text (meaning answer)) buffer.new result × (result ≤ at + 52) }
{
    match answer {
        Answer::Satisfiable => text::put_bytes(buffer, at, b"sat"),
        Answer::Refuted => text::put_bytes(buffer, at, b"unsat"),
        Answer::Refused(k, place) => wording::put_refused(buffer, at, k, place),
    }
}

// What follows `unsat`: the derivation, "or `refused 12 at 0`".
fn put_derivation(buffer: &mut [u8], at: usize, three: bool, order: &[u8], query: &[u8]) -> usize
    requires { at ≤ 6 }
    ensures { Writes buffer.old at (unsat_text (form_of three) order.now query.now) buffer.new result × (result ≤ at + 256000) }
{
    let mut lines = [0u8; 64002];
    match prover::derivation_in(three, order, query, &mut lines) {
        Answer::Refuted => put_lines(buffer, at, &lines),
        Answer::Refused(k, place) => wording::put_refusal(buffer, at, k, place),
        Answer::Satisfiable => at,
    }
}

// The text of a verdict, with what the call left in the report of so many links.
fn put_verdict(
    buffer: &mut [u8],
    three: bool,
    order: &[u8],
    query: &[u8],
    answer: Answer,
    report: &[u8],
    links: usize,
) -> usize
    requires { (links ≡ (form_of three).links) × Does (verdict_call_of (form_of three) (input_of order.now query.now (replicate (form_of three).room 0))) answer report.now }
    ensures { Writes buffer.old 0 (text_of (form_of three) order.now query.now) buffer.new result × (result ≤ 256006) }
{
    match answer {
        Answer::Satisfiable => {
            let to = text::put_bytes(buffer, 0, b"sat\n");
            wording::put_report(buffer, to, report, links)
        }
        Answer::Refuted => {
            let to = text::put_bytes(buffer, 0, b"unsat\n");
            put_derivation(buffer, to, three, order, query)
        }
        Answer::Refused(k, place) => wording::put_refusal(buffer, 0, k, place),
    }
}

// The text of an order list and a query of one link, and of three: the report has the bytes that the call asks for.
fn put_one(buffer: &mut [u8], order: &[u8], query: &[u8]) -> usize
    ensures { Writes buffer.old 0 (text_of one_link_form order.now query.now) buffer.new result × (result ≤ 256006) }
{
    let mut report = [0u8; 53];
    let answer = prover::verdict(order, query, &mut report);
    put_verdict(buffer, false, order, query, answer, &report, 1)
}

fn put_three(buffer: &mut [u8], order: &[u8], query: &[u8]) -> usize
    ensures { Writes buffer.old 0 (text_of three_link_form order.now query.now) buffer.new result × (result ≤ 256006) }
{
    let mut report = [0u8; 85];
    let answer = prover::links_verdict(order, query, &mut report);
    put_verdict(buffer, true, order, query, answer, &report, 3)
}

// The text of these bytes: "at most the first 1,024 bytes .. the order list, then the query." It answers the length of the text, which
// is stored as far as there is room. 256,006 bytes are always enough: `unsat`, and 16,000 lines of at most 16 bytes.
pub fn put_text(buffer: &mut [u8], input: &[u8]) -> usize
    ensures { Writes buffer.old 0 (heapverdict_text input.now) buffer.new result × (result ≤ 256006) }
{
    let n = input.len();
    let cut = n.min(8);
    let end = n.min(1024);
    put_one(buffer, &input[..cut], &input[cut..end])
}

// The same of a query with three links.
pub fn put_links_text(buffer: &mut [u8], input: &[u8]) -> usize
    ensures { Writes buffer.old 0 (linksverdict_text input.now) buffer.new result × (result ≤ 256006) }
{
    let n = input.len();
    let cut = n.min(8);
    let end = n.min(1024);
    put_three(buffer, &input[..cut], &input[cut..end])
}
