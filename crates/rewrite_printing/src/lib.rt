// What rewritequery prints, made in a lent buffer (02, R-13). The program reads, asks for the text and writes it.
#![tactic(auto)]

ghost use Rattle.std.specs.Prelude.{◌≤◌, length};
ghost use Rattle.text.specs.Text.{Writes};
ghost use Rattle.rewriter.specs.Promise.{meaning};
ghost use Rattle.rewrite_printing.specs.RewriteText.{answer_text, text_of, rewritequery_text};

use refusals::Refusal;

// What a call answers that writes a query: the query, which stands in `out`, or the refusal.
pub fn put_answer(buffer: &mut [u8], answer: Result<usize, Refusal>, out: &[u8]) -> usize
    requires { length out.now ≤ 1000 }
    ensures { Writes buffer.old 0 (answer_text (meaning answer) out.now) buffer.new result }
{
    match answer {
        Ok(length) => {
            let end = length.min(out.len());
            hex_lines::put_hex_line(buffer, 0, &out[..end])
        }
        Err(e) => wording::put_refusal(buffer, 0, e.fault.number(), e.place),
    }
}

// The rewritten query, or the refusal.
fn put_rewritten(buffer: &mut [u8], query: &[u8]) -> usize
    ensures { Writes buffer.old 0 (text_of query.now) buffer.new result }
{
    let mut out = [0u8; 561];
    let answer = rewriter::rewrite(query, &mut out);
    put_answer(buffer, answer, &out)
}

// The text of these bytes, of which at most the first 1,024 are read. It answers the length of the text, which is stored as far as there is
// room.
pub fn put_text(buffer: &mut [u8], input: &[u8]) -> usize
    ensures { Writes buffer.old 0 (rewritequery_text input.now) buffer.new result }
{
    if 1024 < input.len() {
        return put_rewritten(buffer, &input[..1024]);
    }
    put_rewritten(buffer, input)
}
