// What checkderivation prints (02, R-8), and checklinks of queries with three links (02, R-11), made in a lent buffer. The programs read, ask
// for the text and write it.
#![tactic(auto)]

ghost use Rattle.std.specs.Prelude.{◌≡◌, ◌≤◌, length, take};
ghost use Rattle.text.specs.Text.{Writes};
ghost use Rattle.checking.specs.CheckCall.{check_call_of};
ghost use Rattle.call_limits.specs.Forms.{form_of};
ghost use Rattle.checker.specs.Promise.{judged_as, meaning};
ghost use Rattle.check_printing.specs.CheckText.{text_bytes, derivation_in, checked_text, check_text_of, checkderivation_text, checklinks_text};

use refusals::Refusal;

// The bytes of the derivation whose lines a text shows: how many, 0 where it is no text of lines.
fn read_text(buffer: &mut [u8], text: &[u8]) -> usize
    requires { length buffer.old ≡ 64002 }
    ensures { (result ≤ 64002) × (take result buffer.new ≡ text_bytes text.now) }
{
    if 256000 < text.len() {
        return 0;
    }
    let count = decimal_lines::count_newlines(text);
    if 16000 < count {
        return 0;
    }
    let low = text::put_byte(buffer, 0, (count / 256) as u8);
    let first = text::put_byte(buffer, low, (count % 256) as u8);
    decimal_lines::put_numbers(buffer, first, text)
}

// What the call of either form answers of a query and of what stands behind it.
fn answer(three: bool, query: &[u8], rest: &[u8]) -> Result<Option<usize>, Refusal>
    ensures { meaning result ≡ check_call_of (form_of three) query.now (derivation_in rest.now) }
{
    if !decimal_lines::begins(rest, b"unsat\n") {
        return checker::check_in(three, query, rest);
    }
    let mut lines = [0u8; 64002];
    let made = read_text(&mut lines, &rest[6..]);
    checker::check_in(three, query, &lines[..made])
}

// The words of what the lines are, and a newline.
fn put_found(buffer: &mut [u8], found: Option<usize>) -> usize
    ensures { Writes buffer.old 0 (checked_text (judged_as found)) buffer.new result × (result ≤ 64) }
{
    match found {
        None => text::put_bytes(buffer, 0, b"accepted\n"),
        Some(line) => {
            let number = text::put_bytes(buffer, 0, b"wrong line ");
            let end = text::put_decimal(buffer, number, line);
            text::put_byte(buffer, end, b'\n')
        }
    }
}

// The words of an answer, and a newline.
fn put_answer(buffer: &mut [u8], answer: Result<Option<usize>, Refusal>) -> usize
    ensures { Writes buffer.old 0 (checked_text (meaning answer)) buffer.new result × (result ≤ 64) }
{
    match answer {
        Ok(found) => put_found(buffer, found),
        Err(e) => {
            let end = wording::put_refused(buffer, 0, e.fault.number(), e.place);
            text::put_byte(buffer, end, b'\n')
        }
    }
}

// The text for a query and for what stands behind it.
fn put_checked(three: bool, buffer: &mut [u8], query: &[u8], rest: &[u8]) -> usize
    ensures { Writes buffer.old 0 (checked_text (check_call_of (form_of three) query.now (derivation_in rest.now))) buffer.new result × (result ≤ 64) }
{
    put_answer(buffer, answer(three, query, rest))
}

// The text of these bytes: the query's length in two bytes, the query in either form, and the derivation. It answers the length of the text,
// which is stored as far as there is room; 64 bytes are always enough.
fn put_text_in(three: bool, buffer: &mut [u8], input: &[u8]) -> usize
    ensures { Writes buffer.old 0 (check_text_of (form_of three) input.now) buffer.new result × (result ≤ 64) }
{
    let n = input.len();
    let size = 256 * tally::byte_at(input, 0) + tally::byte_at(input, 1);
    let from = n.min(2);
    let to = n.min(2 + size);
    put_checked(three, buffer, &input[from..to], &input[to..])
}

// The text of checkderivation.
pub fn put_text(buffer: &mut [u8], input: &[u8]) -> usize
    ensures { Writes buffer.old 0 (checkderivation_text input.now) buffer.new result × (result ≤ 64) }
{
    put_text_in(false, buffer, input)
}

// The text of checklinks.
pub fn put_links_text(buffer: &mut [u8], input: &[u8]) -> usize
    ensures { Writes buffer.old 0 (checklinks_text input.now) buffer.new result × (result ≤ 64) }
{
    put_text_in(true, buffer, input)
}
