// What formulaverdict prints, made in a lent buffer. The program reads, asks for the text and writes it.
#![tactic(auto)]

ghost use Rattle.std.specs.Prelude.{◌≡◌, ◌+◌, ◌*◌, ◌≤◌, ◌<◌, length, get_or, true};
ghost use Rattle.logic.specs.Shown.{well_formed};
ghost use Rattle.text.specs.Text.{Writes};
ghost use Rattle.formula_printing.specs.FormulaverdictText.{sat_text, text_of, parts_text, formulaverdict_text};

use formula_call::FormulaAnswer;

// `sat`, the conjunction's number, and the report on a line of its own.
fn put_sat(buffer: &mut [u8], n: usize, report: &[u8]) -> usize
    requires { well_formed 1 report.now ≡ true }
    ensures { Writes buffer.old 0 (sat_text n report.now) buffer.new result × (result ≤ 250) }
{
    let number = text::put_bytes(buffer, 0, b"sat ");
    let behind = text::put_decimal(buffer, number, n);
    let line = text::put_byte(buffer, behind, b'\n');
    wording::put_report(buffer, line, report, 1)
}

// The answer and, behind `sat`, its heap.
fn put_answer(buffer: &mut [u8], order: &[u8], query: &[u8], formula: &[u8]) -> usize
    ensures { Writes buffer.old 0 (text_of order.now query.now formula.now) buffer.new result × (result ≤ 250) }
{
    let mut report = [0u8; 53];
    match formula_call::formula(order, query, formula, &mut report) {
        FormulaAnswer::Conjunction(n) => put_sat(buffer, n, &report),
        FormulaAnswer::Refuted => text::put_bytes(buffer, 0, b"unsat\n"),
        FormulaAnswer::Refused(k, place) => wording::put_refusal(buffer, 0, k, place),
    }
}

// The byte at a place, or 0 where there is none.
fn byte_at(bytes: &[u8], at: usize) -> usize
    ensures { (result ≡ get_or bytes.now at 0) × (result < 256) }
{
    if bytes.len() <= at {
        return 0;
    }
    wording::wide(bytes[at])
}

// Cut into its parts: the order list, the query's length, the query, and the text.
fn put_parts(buffer: &mut [u8], read: &[u8]) -> usize
    requires { length read.now ≤ 2048 }
    ensures { Writes buffer.old 0 (parts_text read.now) buffer.new result × (result ≤ 250) }
{
    let n = read.len();
    let size = 256 * byte_at(read, 8) + byte_at(read, 9);
    let cut = n.min(8);
    let begin = n.min(10);
    let end = n.min(10 + size);
    put_answer(buffer, &read[..cut], &read[begin..end], &read[end..])
}

// The text of these bytes. It answers the length of the text, which is stored as far as there is room: 250 bytes are always enough.
pub fn put_text(buffer: &mut [u8], input: &[u8]) -> usize
    ensures { Writes buffer.old 0 (formulaverdict_text input.now) buffer.new result × (result ≤ 250) }
{
    let n = input.len();
    let end = n.min(2048);
    put_parts(buffer, &input[..end])
}
