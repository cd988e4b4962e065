// Two queries joined into one, and the hand-back of the literal that a clash line names. No call asks anything of its caller.
#![tactic(auto)]

ghost use Rattle.std.specs.Prelude.{◌≡◌, true, [], ◌∷◌, ◌++◌, map, ◌+◌, ◌*◌, ◌≤◌, ◌<◌, length, replicate, get_or, take, drop};
ghost use Rattle.logic.specs.Search.{all, flat_map};
ghost use Rattle.logic.specs.Query.{literals, decode};
ghost use Rattle.query.specs.LaysOut.{LaysOut};
ghost use Rattle.text.specs.Text.{Writes};
ghost use Rattle.joining.specs.Pairs.{pairs_of, has_terms, is_pair_list};
ghost use Rattle.encoding.specs.QueryBytes.{sign_byte, literal_bytes, encode, within_limits};
ghost use Rattle.joining.specs.Joined.{raised_entry, raised, pair_literal, joined};
ghost use Rattle.joining.specs.Call.{join_of, join_call};
ghost use Rattle.joining.specs.HandBack.{literals_in, start_in, place_in, hand_back_of, hand_back_call, part_of};
ghost use Rattle.joiner.specs.Bytes.{literals_of, Lies, raised_bytes, Small, SmallEntries, SmallPairs, pair_of, Bounded, keeps_limits};
ghost use Rattle.joiner.specs.Promise.{Does, handed, Inside, Passing, BothChecked};

use query::Layout;
use refusals::{Fault, Refusal};

// A refusal of two queries: its place is in the first, in the second, or in neither, where it is 0.
#[derive(Clone, Copy, PartialEq, Eq)]
pub enum JoinRefusal {
    First(Refusal),
    Second(Refusal),
    Neither(Refusal),
}

// Where a literal stands: its offset and length in the first query or in the second.
#[derive(Clone, Copy, PartialEq, Eq)]
pub enum HandBack {
    InFirst(usize, usize),
    InSecond(usize, usize),
}

// Literals of three bytes: the query that they stand in, where they begin there, and how many they are.
#[derive(Clone, Copy)]
struct Section<'a>(&'a [u8], usize, usize);

// How far the numbers of a literal are raised: its left one, and its right one.
#[derive(Clone, Copy)]
struct Raise(usize, usize);

// A literal of three bytes.
fn put_literal(out: &mut [u8], to: usize, plain: bool, left: usize, right: usize) -> usize
    requires { (to ≤ 1000) × (left < 256) × (right < 256) }
    ensures { Writes out.old to (sign_byte plain ∷ left ∷ right ∷ []) out.new result }
{
    let signed = put_sign(out, to, plain);
    let next = text::put_byte(out, signed, left as u8);
    text::put_byte(out, next, right as u8)
}

// "Sign 1 is plain, 0 negated."
fn put_sign(out: &mut [u8], to: usize, plain: bool) -> usize
    requires { to ≤ 1000 }
    ensures { Writes out.old to (sign_byte plain ∷ []) out.new result }
{
    if plain {
        return text::put_byte(out, to, 1);
    }
    text::put_byte(out, to, 0)
}

// The literals of a section, with numbers raised.
fn put_literals(section: Section, by: Raise, out: &mut [u8], to: usize) -> usize
    requires { Lies section × (to + 3 * section.2 ≤ 1000) × Small by.0 by.1 (literals_of section) }
    ensures { Writes out.old to (raised_bytes by.0 by.1 section.entry) out.new result }
{
    let Section(query, at, count) = section;
    let mut next = to;
    for k in 0..count {
        let plain = query::sign(query, at, k);
        let left = query::field(query, at, k);
        let right = query::right(query, at, k);
        next = put_literal(out, next, plain, by.0 + left, by.1 + right.0);
    }
    next
}

// "0 and 255 in section 1 are kept"
fn raised_entry(n: usize, e: usize) -> usize
    requires { n + e ≤ 1000 }
    ensures { result ≡ raised_entry n e }
{
    if e == 0 {
        return e;
    }
    if e == 255 {
        return e;
    }
    n + e
}

// The entries of `count` terms, with term numbers raised by n.
fn put_entries(query: &[u8], count: usize, n: usize, out: &mut [u8], to: usize) -> usize
    requires { (count + 1 ≤ length query.now) × (n ≤ 16) × (to + count ≤ 1000) × SmallEntries n (take count (drop 1 query.now)) }
    ensures { Writes out.old to (map (raised_entry n) (take count (drop 1 query.now))) out.new result }
{
    let mut next = to;
    for t in 0..count {
        let e = entries::byte_at(query, t + 1);
        next = text::put_byte(out, next, raised_entry(n, e) as u8);
    }
    next
}

// "an equality per pair"
fn put_pairs(pairs: &[u8], count: usize, n: usize, out: &mut [u8], to: usize) -> usize
    requires { (length pairs.now ≡ 1 + 2 * count) × (n ≤ 16) × (to + 3 * count ≤ 1000) × SmallPairs n (pairs_of pairs.now) }
    ensures { Writes out.old to (flat_map literal_bytes (map (pair_literal n) (pairs_of pairs.now))) out.new result }
{
    let mut next = to;
    for k in 0..count {
        let a = entries::byte_at(pairs, 2 * k + 1);
        let b = entries::byte_at(pairs, 2 * k + 2);
        next = put_literal(out, next, true, a, n + b);
    }
    next
}

// Section 1: its count, the first's entries, and the second's raised.
fn put_terms(first: &[u8], n: usize, second: &[u8], m: usize, out: &mut [u8]) -> usize
    requires { (n + 1 ≤ length first.now) × (m + 1 ≤ length second.now) × (n + m ≤ 16) × SmallEntries 0 (take n (drop 1 first.now)) × SmallEntries n (take m (drop 1 second.now)) }
    ensures { Writes out.old 0 ((n + m) ∷ (map (raised_entry 0) (take n (drop 1 first.now)) ++ map (raised_entry n) (take m (drop 1 second.now)))) out.new result }
{
    let begin = text::put_byte(out, 0, (n + m) as u8);
    let next = put_entries(first, n, 0, out, begin);
    put_entries(second, m, n, out, next)
}

// A section of three bytes an entry: its count, the first's literals, and the second's raised; the count has `more`, which the caller
// writes behind them.
fn put_section(
    first: Section,
    second: Section,
    by: Raise,
    more: usize,
    out: &mut [u8],
    to: usize,
) -> usize
    requires fits { Lies first × Lies second × (first.2 + second.2 + more ≤ 60) × (to ≤ 600) }
    requires small { Small 0 0 (literals_of first) × Small by.0 by.1 (literals_of second) }
    ensures { Writes out.old to ((first.entry.2 + second.entry.2 + more) ∷ (raised_bytes 0 0 first.entry ++ raised_bytes by.0 by.1 second.entry)) out.new result }
{
    let begin = text::put_byte(out, to, (first.2 + second.2 + more) as u8);
    let next = put_literals(first, Raise(0, 0), out, begin);
    put_literals(second, by, out, next)
}

// The joined query, section by section; section 5 is the count 0.
fn put_query(
    first: &[u8],
    f: Layout,
    second: &[u8],
    s: Layout,
    pairs: &[u8],
    out: &mut [u8],
) -> usize
    requires { Passing f first.now × Passing s second.now × (is_pair_list f.terms s.terms pairs.now ≡ true) × (within_limits (joined (decode first.now) (decode second.now) (pairs_of pairs.now)) ≡ true) }
    ensures { Writes out.old 0 (encode (joined (decode first.now) (decode second.now) (pairs_of pairs.now))) out.new result }
{
    let n = f.terms;
    let count = entries::byte_at(pairs, 0);
    let second_section = put_terms(first, n, second, s.terms, out);
    let last = put_section(
        Section(first, f.equal_at, f.equal_count),
        Section(second, s.equal_at, s.equal_count),
        Raise(n, n),
        count,
        out,
        second_section,
    );
    let third_section = put_pairs(pairs, count, n, out, last);
    let fourth_section = put_section(
        Section(first, f.reach_at, f.reach_count),
        Section(second, s.reach_at, s.reach_count),
        Raise(n, n),
        0,
        out,
        third_section,
    );
    let fifth_section = put_section(
        Section(first, f.field_at, f.field_count),
        Section(second, s.field_at, s.field_count),
        Raise(0, n),
        0,
        out,
        fourth_section,
    );
    text::put_byte(out, fifth_section, 0)
}

// Each pair names a term of either query.
fn have_terms(pairs: &[u8], count: usize, n: usize, m: usize) -> bool
    requires { length pairs.now ≡ 1 + 2 * count }
    ensures { result ≡ all (has_terms n m) (pairs_of pairs.now) }
{
    for k in 0..count {
        let a = entries::byte_at(pairs, 2 * k + 1);
        let b = entries::byte_at(pairs, 2 * k + 2);
        if !has_terms(n, m, a, b) {
            return false;
        }
    }
    true
}

fn has_terms(n: usize, m: usize, a: usize, b: usize) -> bool
    ensures { result ≡ has_terms n m (pair_of a b) }
{
    (0 < a) & (a <= n) & ((0 < b) & (b <= m))
}

// Not "23 a pair list of wrong length or count, or with a term its query lacks".
fn is_pair_list(pairs: &[u8], n: usize, m: usize) -> bool
    ensures { result ≡ is_pair_list n m pairs.now }
{
    let len = pairs.len();
    if len == 0 {
        return false;
    }
    let count = entries::byte_at(pairs, 0);
    if 60 < count {
        return false;
    }
    if len != 1 + 2 * count {
        return false;
    }
    have_terms(pairs, count, n, m)
}

// No "limit passed": of terms, and of the literals of each section, with `count` pairs among the equalities.
fn keeps_limits(f: Layout, s: Layout, count: usize) -> bool
    requires { Bounded f × Bounded s × (count ≤ 60) }
    ensures { result ≡ keeps_limits f s count }
{
    let terms = f.terms + s.terms <= 16;
    let equal = f.equal_count + s.equal_count + count <= 60;
    let reach = f.reach_count + s.reach_count <= 60;
    let field = f.field_count + s.field_count <= 60;
    terms & equal & reach & field
}

// Two queries that pass their checks, joined in a blank buffer.
fn join_checked(
    first: &[u8],
    f: Layout,
    second: &[u8],
    s: Layout,
    pairs: &[u8],
    out: &mut [u8],
) -> Result<usize, JoinRefusal>
    requires { Passing f first.now × Passing s second.now × (out.old ≡ replicate (length out.old) 0) }
    ensures { Does (join_of (decode first.now) (decode second.now) pairs.now (length out.old)) result out.new }
{
    let n = f.terms;
    let m = s.terms;
    if !is_pair_list(pairs, n, m) {
        return Err(JoinRefusal::Neither(Fault::PairList.at(0)));
    }
    let count = entries::byte_at(pairs, 0);
    if !keeps_limits(f, s, count) {
        return Err(JoinRefusal::Neither(Fault::JoinRoom.at(0)));
    }
    let length = put_query(first, f, second, s, pairs, out);
    if out.len() < length {
        lent::clear(out);
        return Err(JoinRefusal::Neither(Fault::JoinRoom.at(0)));
    }
    Ok(length)
}

// Where the sections of two queries stand that pass their checks: "2 to 8 for the first, then the second".
fn check_both(first: &[u8], second: &[u8]) -> Result<(Layout, Layout), JoinRefusal>
    ensures { BothChecked result first.now second.now }
{
    let f = match query_checks::check(first) {
        Ok(f) => f,
        Err(e) => return Err(JoinRefusal::First(e)),
    };
    let s = match query_checks::check(second) {
        Ok(s) => s,
        Err(e) => return Err(JoinRefusal::Second(e)),
    };
    Ok((f, s))
}

// One query of two, with an equality for each pair: its length and zeros past it; or a refusal, and zeros. "Checks: 2 to 8 for the first,
// then the second; 23 ..; 24 .."
pub fn join(first: &[u8], second: &[u8], pairs: &[u8], out: &mut [u8]) -> Result<usize, JoinRefusal>
    ensures { Does (join_call first.now second.now pairs.now (length out.old)) result out.new }
{
    lent::clear(out);
    let (f, s) = check_both(first, second)?;
    join_checked(first, f, second, s, pairs, out)
}

// The byte at a place of a line, and 0 past its end.
fn byte_of(line: &[u8], at: usize) -> usize
    ensures { (result ≡ get_or line.now at 0) × (result < 256) }
{
    if at < line.len() {
        return line[at] as usize;
    }
    0
}

// How many literals section s of a query has.
fn count_in(query: &[u8], l: Layout, s: usize) -> usize
    requires { LaysOut l query.now }
    ensures { result ≡ length (literals_in (decode query.now) s) × (result ≤ 60) }
{
    if s == 2 {
        return l.equal_count;
    }
    if s == 3 {
        return l.reach_count;
    }
    if s == 4 {
        return l.field_count;
    }
    0
}

// Where they begin.
fn start_in(query: &[u8], l: Layout, s: usize) -> usize
    requires { LaysOut l query.now }
    ensures { result ≡ start_in (decode query.now) s × (result ≤ 1000) }
{
    let n = l.terms;
    let second = 3 * l.equal_count;
    let third = 3 * l.reach_count;
    if s == 2 {
        return n + 2;
    }
    if s == 3 {
        return n + second + 3;
    }
    n + second + third + 4
}

// Where literal k stands; each has three bytes.
fn place_in(query: &[u8], l: Layout, s: usize, k: usize) -> usize
    requires { LaysOut l query.now × (1 ≤ k) × (k ≤ 60) }
    ensures { result ≡ place_in (decode query.now) s k }
{
    let start = start_in(query, l, s);
    start + 3 * (k - 1)
}

// "25 .. the line does not begin with 9 or names no literal of either"
fn find_literal(
    first: &[u8],
    f: Layout,
    second: &[u8],
    s: Layout,
    line: &[u8],
) -> Result<HandBack, JoinRefusal>
    requires { Passing f first.now × Passing s second.now }
    ensures { (handed result ≡ hand_back_of (decode first.now) (decode second.now) line.now) × Inside (length first.now) (length second.now) result }
{
    let begins = byte_of(line, 0);
    let section = byte_of(line, 1);
    let k = byte_of(line, 2);
    if begins != 9 {
        return Err(JoinRefusal::Neither(Fault::ClashLine.at(0)));
    }
    let i = count_in(first, f, section);
    let m = count_in(second, s, section);
    if k == 0 {
        return Err(JoinRefusal::Neither(Fault::ClashLine.at(0)));
    }
    if k <= i {
        return Ok(HandBack::InFirst(place_in(first, f, section, k), 3));
    }
    let last = i + m;
    if k <= last {
        return Ok(HandBack::InSecond(place_in(second, s, section, k - i), 3));
    }
    Err(JoinRefusal::Neither(Fault::ClashLine.at(0)))
}

// "a call beside it gives number and place": where the literal that a line names stands, or why there is none.
pub fn find_named(first: &[u8], second: &[u8], line: &[u8]) -> Result<HandBack, JoinRefusal>
    ensures { (handed result ≡ hand_back_call first.now second.now line.now) × Inside (length first.now) (length second.now) result }
{
    let (f, s) = check_both(first, second)?;
    find_literal(first, f, second, s, line)
}

// "hand back that literal's own bytes from whichever of the two lent queries it came from". "A refused hand-back is an empty part".
pub fn hand_back<'a>(first: &'a [u8], second: &'a [u8], line: &[u8]) -> &'a [u8]
    ensures { result.now ≡ part_of (hand_back_call first.now second.now line.now) first.now second.now }
{
    match find_named(first, second, line) {
        Ok(HandBack::InFirst(at, size)) => {
            let end = at + size;
            &first[at..end]
        }
        Ok(HandBack::InSecond(at, size)) => {
            let end = at + size;
            &second[at..end]
        }
        Err(_) => &first[0..0],
    }
}
