// What betweenverdict prints, made in a lent buffer. The program reads, asks for the text and writes it.
#![tactic(auto)]

ghost use Rattle.std.specs.Prelude.{◌≤◌};
ghost use Rattle.text.specs.Text.{Writes};
ghost use Rattle.between_printing.specs.BetweenverdictText.{text_of, betweenverdict_text};

use between_call::BetweenAnswer;

// The answer and its heap.
fn put_answer(buffer: &mut [u8], query: &[u8]) -> usize
    ensures { Writes buffer.old 0 (text_of query.now) buffer.new result × (result ≤ 163) }
{
    let mut report = [0u8; 53];
    match between_call::between(query, &mut report) {
        Ok(BetweenAnswer::Heap) => {
            let to = text::put_bytes(buffer, 0, b"sat\n");
            wording::put_report(buffer, to, &report, 1)
        }
        Ok(BetweenAnswer::Nothing) => text::put_bytes(buffer, 0, b"unsat\n"),
        Err(e) => wording::put_refusal(buffer, 0, e.fault.number(), e.place),
    }
}

// The text of these bytes: at most the first 1,024 are read. It answers the length of the text, which is stored as far as there is room.
// 163 bytes are always enough: `sat`, and a report of 53 bytes.
pub fn put_text(buffer: &mut [u8], input: &[u8]) -> usize
    ensures { Writes buffer.old 0 (betweenverdict_text input.now) buffer.new result × (result ≤ 163) }
{
    if 1024 < input.len() {
        return put_answer(buffer, &input[..1024]);
    }
    put_answer(buffer, input)
}
