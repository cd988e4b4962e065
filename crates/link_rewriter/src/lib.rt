// Queries in the old layout, rewritten with link 1 for the calls that know three links (02, R-11). The call asks nothing of its caller.
#![tactic(auto)]

ghost use Rattle.std.specs.Prelude.{◌≡◌, true, [], ◌∷◌, ◌+◌, ◌*◌, ◌≤◌, ◌<◌, length, replicate};
ghost use Rattle.logic.specs.Search.{flat_map};
ghost use Rattle.logic.specs.Calls.{accepts};
ghost use Rattle.query.specs.LaysOut.{LaysOut};
ghost use Rattle.text.specs.Text.{Writes};
ghost use Rattle.rewriter.specs.Promise.{Does};
ghost use Rattle.link_rewriting.specs.LinkedQuery.{link_before, entry_bytes};
ghost use Rattle.link_rewriting.specs.Call.{links_rewrite_call};
ghost use Rattle.link_rewriter.specs.Bytes.{with_links, rewritten_bytes};

use query::Layout;
use refusals::{Fault, Refusal};

// The link before a term byte: "0 0 a variable, 0 255 nil", and else 1.
fn link_before(byte: u8) -> u8
    ensures { result ≡ link_before byte }
{
    if byte == 0 {
        return 0;
    }
    if byte == 255 {
        return 0;
    }
    1
}

// "a term entry is link and term"
fn put_entries(terms: &[u8], out: &mut [u8], to: usize) -> usize
    requires { to + 2 * length terms.now ≤ 1000 }
    ensures { Writes out.old to (flat_map entry_bytes terms.now) out.new result }
{
    let mut next = to;
    for byte in terms {
        let term = text::put_byte(out, next, link_before(*byte));
        next = text::put_byte(out, term, *byte);
    }
    next
}

// "a reachability literal is sign, link, from, to"
fn put_literal(out: &mut [u8], to: usize, sign: u8, from: u8, end: u8) -> usize
    requires { to ≤ 1000 }
    ensures { Writes out.old to (sign ∷ 1 ∷ from ∷ end ∷ []) out.new result }
{
    let link = text::put_byte(out, to, sign);
    let left = text::put_byte(out, link, 1);
    let right = text::put_byte(out, left, from);
    text::put_byte(out, right, end)
}

// Literals of three bytes, each with its link.
fn put_literals(literals: &[u8], count: usize, out: &mut [u8], to: usize) -> usize
    requires { (length literals.now ≡ 3 * count) × (to + 4 * count ≤ 1000) }
    ensures { Writes out.old to (with_links literals.now) out.new result }
{
    let mut next = to;
    for k in 0..count {
        let at = 3 * k;
        next = put_literal(out, next, literals[at], literals[at + 1], literals[at + 2]);
    }
    next
}

// The rewritten query, of n terms and `count` reachability literals, which stand at `at`: what stands between the terms and these, and behind
// them, is copied.
fn put_query(query: &[u8], n: usize, at: usize, count: usize, out: &mut [u8]) -> usize
    requires { (n ≤ 16) × (n + 1 ≤ at) × (at + 3 * count ≤ length query.now) × (length query.now ≤ 561) × (count ≤ 60) }
    ensures { Writes out.old 0 (rewritten_bytes n at count query.now) out.new result }
{
    let second = n + 1;
    let behind = at + 3 * count;
    let size = query.len();
    let begin = text::put_byte(out, 0, n as u8);
    let between = put_entries(&query[1..second], out, begin);
    let reach = rewriter::put_part(query, second, at, out, between);
    let rest = put_literals(&query[at..behind], count, out, reach);
    rewriter::put_part(query, behind, size, out, rest)
}

// A query that passes its checks, in a blank buffer. Each term takes a byte more than before, and each reachability literal.
fn rewrite_checked(query: &[u8], l: Layout, out: &mut [u8]) -> Result<usize, Refusal>
    requires { LaysOut l query.now × (accepts query.now ≡ true) × (out.old ≡ replicate (length out.old) 0) }
    ensures { Does (links_rewrite_call query.now (length out.old)) result out.new }
{
    let n = l.terms;
    let count = l.reach_count;
    if out.len() < query.len() + n + count {
        return Err(Fault::RewriteRoom.at(0));
    }
    let at = n + 3 * l.equal_count + 3;
    let length = put_query(query, n, at, count, out);
    Ok(length)
}

// The query with three links that a query in the old layout becomes: its length and zeros past it; or a refusal, 2 to 8 and 26, then 27, and
// zeros.
pub fn rewrite(query: &[u8], out: &mut [u8]) -> Result<usize, Refusal>
    ensures { Does (links_rewrite_call query.now (length out.old)) result out.new }
{
    lent::clear(out);
    let l = query_checks::check(query)?;
    rewrite_checked(query, l, out)
}
