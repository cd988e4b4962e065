// What rewritelinks prints, made in a lent buffer (02, R-11). The program reads, asks for the text and writes it.
#![tactic(auto)]

ghost use Rattle.text.specs.Text.{Writes};
ghost use Rattle.link_printing.specs.LinkText.{text_of, rewritelinks_text};

// The query with three links, or the refusal.
fn put_linked(buffer: &mut [u8], query: &[u8]) -> usize
    ensures { Writes buffer.old 0 (text_of query.now) buffer.new result }
{
    let mut out = [0u8; 637];
    let answer = link_rewriter::rewrite(query, &mut out);
    rewrite_printing::put_answer(buffer, answer, &out)
}

// The text of these bytes, of which at most the first 1,024 are read. It answers the length of the text, which is stored as far as there is
// room.
pub fn put_text(buffer: &mut [u8], input: &[u8]) -> usize
    ensures { Writes buffer.old 0 (rewritelinks_text input.now) buffer.new result }
{
    if 1024 < input.len() {
        return put_linked(buffer, &input[..1024]);
    }
    put_linked(buffer, input)
}
