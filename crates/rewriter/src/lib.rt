// The rewriting of old queries (02, R-13). The call asks nothing of its caller.
#![tactic(auto)]

ghost use Rattle.std.specs.Prelude.{◌≡◌, [], ◌∷◌, ◌+◌, ◌*◌, ◌≤◌, ◌<◌, length, replicate};
ghost use Rattle.text.specs.Text.{Writes};
ghost use Rattle.rewriting.specs.Call.{rewrite_call};
ghost use Rattle.rewriter.specs.Bytes.{cut, field_bytes, term_bytes, data_bytes, rewritten_bytes};
ghost use Rattle.rewriter.specs.Promise.{Does, Passing};

use query::FullLayout;
use refusals::{Fault, Refusal};

// The bytes of the query from one place to another.
pub fn put_part(query: &[u8], from: usize, end: usize, out: &mut [u8], to: usize) -> usize
    requires { (from ≤ end) × (end ≤ length query.now) × (to + length query.now ≤ 2000) }
    ensures { Writes out.old to (cut query.now from end) out.new result }
{
    text::put_bytes(out, to, &query[from..end])
}

// A data literal of the fresh variable: the boolean's sign and number, and the term.
fn put_field(out: &mut [u8], to: usize, sign: u8, number: u8, fresh: u8) -> usize
    requires { to ≤ 2000 }
    ensures { Writes out.old to (sign ∷ number ∷ fresh ∷ []) out.new result }
{
    let left = text::put_byte(out, to, sign);
    let right = text::put_byte(out, left, number);
    text::put_byte(out, right, fresh)
}

// "boolean j becomes its data field j"
fn put_fields(booleans: &[u8], count: usize, fresh: u8, out: &mut [u8], to: usize) -> usize
    requires { (length booleans.now ≡ 2 * count) × (to + 3 * count ≤ 2000) }
    ensures { Writes out.old to (field_bytes fresh booleans.now) out.new result }
{
    let mut next = to;
    for k in 0..count {
        let at = 2 * k;
        next = put_field(out, next, booleans[at], booleans[at + 1], fresh);
    }
    next
}

// Section 1 with one variable more, "added last".
fn put_terms(query: &[u8], n: usize, out: &mut [u8]) -> usize
    requires { (n < 16) × (n + 1 ≤ length query.now) × (length query.now ≤ 1000) }
    ensures { Writes out.old 0 (term_bytes n query.now) out.new result }
{
    let fresh = n + 1;
    let begin = text::put_byte(out, 0, fresh as u8);
    let last = put_part(query, 1, fresh, out, begin);
    text::put_byte(out, last, 0)
}

// Section 4, whose count stands at `fourth`, with the booleans "appended", and section 5, whose count is 0.
fn put_data(
    query: &[u8],
    fourth: usize,
    fields: usize,
    count: usize,
    fresh: u8,
    out: &mut [u8],
    to: usize,
) -> usize
    requires { (fourth + 3 * fields + 2 * count + 2 ≤ length query.now) × (fields + count ≤ 60) × (length query.now ≤ 1000) × (to ≤ 600) }
    ensures { Writes out.old to (data_bytes fourth fields count fresh query.now) out.new result }
{
    let begin = fourth + 1;
    let end = begin + 3 * fields;
    let booleans = end + 1;
    let behind = booleans + 2 * count;
    let first = text::put_byte(out, to, (fields + count) as u8);
    let next = put_part(query, begin, end, out, first);
    let last = put_fields(&query[booleans..behind], count, fresh, out, next);
    text::put_byte(out, last, 0)
}

// The rewritten query: sections 2 and 3 are copied.
fn put_query(
    query: &[u8],
    n: usize,
    fourth: usize,
    fields: usize,
    count: usize,
    out: &mut [u8],
) -> usize
    requires { (n < 16) × (n + 1 ≤ fourth) × (fourth ≤ 400) × (fourth + 3 * fields + 2 * count + 2 ≡ length query.now) × (fields + count ≤ 60) }
    ensures { Writes out.old 0 (rewritten_bytes n fourth fields count query.now) out.new result }
{
    let fresh = n + 1;
    let second = put_terms(query, n, out);
    let next = put_part(query, fresh, fourth, out, second);
    put_data(query, fourth, fields, count, fresh as u8, out, next)
}

// A query that passes its checks, in a blank buffer. A rewritten query has a byte more for the term, and one for each boolean.
fn rewrite_checked(query: &[u8], full: FullLayout, out: &mut [u8]) -> Result<usize, Refusal>
    requires { Passing full query.now × (out.old ≡ replicate (length out.old) 0) }
    ensures { Does (rewrite_call query.now (length out.old)) result out.new }
{
    let l = full.layout;
    let n = l.terms;
    let fields = l.field_count;
    let count = full.boolean_count;
    let room = out.len();
    let size = query.len();
    if count == 0 {
        if room < size {
            return Err(Fault::RewriteRoom.at(0));
        }
        let length = text::put_bytes(out, 0, query);
        return Ok(length);
    }
    if n == 16 {
        return Err(Fault::RewriteRoom.at(0));
    }
    if 60 < fields + count {
        return Err(Fault::RewriteRoom.at(0));
    }
    if room < size + count + 1 {
        return Err(Fault::RewriteRoom.at(0));
    }
    let fourth = n + 3 * l.equal_count + 3 * l.reach_count + 3;
    let length = put_query(query, n, fourth, fields, count, out);
    Ok(length)
}

// The query that an old query becomes: its length and zeros past it; or a refusal, and zeros. "the rewriting keeps 2 to 8 as they stood, then
// 27, no room for the term, the literals or the output"
pub fn rewrite(query: &[u8], out: &mut [u8]) -> Result<usize, Refusal>
    ensures { Does (rewrite_call query.now (length out.old)) result out.new }
{
    lent::clear(out);
    let full = query_checks::check_with(query, 60, Fault::CountAboveLimit.number())?;
    rewrite_checked(query, full, out)
}
