// Where the sections of a query stand, refusals 2 to 4 and 26, and reading a literal in place.
#![tactic(auto)]

ghost use Rattle.std.specs.Prelude.{◌≡◌, ◌+◌, ◌*◌, ◌≤◌, length};
ghost use Rattle.refusals.specs.Numbers.{number_of};
ghost use Rattle.query.specs.Forms.{entry_kind, reach_kind};
ghost use Rattle.query.specs.Sections.{ReadAs, LaidOut};
ghost use Rattle.query.specs.LaysOut.{literal_in};

use refusals::{Fault, Refusal};
use rows::Term;

// Where the sections of a query stand: the first byte of each behind its count, and the count. The terms stand at 1. With one link the query
// has the form of 01, and with three that of 02, R-11.
#[derive(Clone, Copy)]
pub struct Layout {
    pub links: usize,
    pub terms: usize,
    pub equal_at: usize,
    pub equal_count: usize,
    pub reach_at: usize,
    pub reach_count: usize,
    pub field_at: usize,
    pub field_count: usize,
}

// The same of a query in a form that has booleans (02, R-13).
#[derive(Clone, Copy)]
pub struct FullLayout {
    pub layout: Layout,
    pub boolean_at: usize,
    pub boolean_count: usize,
}

// A section: its count, and the place behind it.
#[derive(Drop)]
struct Part {
    pub count: usize,
    pub next: usize,
}

// The section whose count stands at `at`: refused 2 where the query ends before it does, and `excess` where the count is above the limit.
fn read_section(
    query: &[u8],
    at: usize,
    limit: usize,
    excess: Fault,
    width: usize,
) -> Result<Part, Refusal>
    requires { (at ≤ length query.now) × (width ≤ 4) }
    ensures { ReadAs result query.now at limit (number_of excess) width }
{
    let len = query.len();
    if at == len {
        return Err(Fault::QueryEnds.at(at));
    }
    let count = query[at] as usize;
    if limit < count {
        return Err(excess.at(at));
    }
    let size = count * width;
    let left = len - at - 1;
    if left < size {
        return Err(Fault::QueryEnds.at(len));
    }
    Ok(Part {
        count,
        next: at + 1 + size,
    })
}

// The kinds of the entries of sections 1 and 3.
pub fn entry_kind(links: usize) -> entries::Kind
    ensures { result ≡ entry_kind links }
{
    if links == 1 {
        return entries::Kind::Terms;
    }
    entries::Kind::LinkedTerms
}

pub fn reach_kind(links: usize) -> entries::Kind
    ensures { result ≡ reach_kind links }
{
    if links == 1 {
        return entries::Kind::Pairs;
    }
    entries::Kind::LinkedPairs
}

// The walk from the front over the five sections, where `most` booleans pass and more are refused `excess`: refusals 2 to 4, and 26.
pub fn lay_out(
    query: &[u8],
    links: usize,
    most: usize,
    excess: Fault,
) -> Result<FullLayout, Refusal>
    ensures { LaidOut result query.now links most (number_of excess) }
{
    let entry_width = entries::width(entry_kind(links));
    let reach_width = entries::width(reach_kind(links));
    let terms = read_section(query, 0, 16, Fault::CountAboveLimit, entry_width)?;
    let equal = read_section(query, terms.next, 60, Fault::CountAboveLimit, 3)?;
    let reach = read_section(query, equal.next, 60, Fault::CountAboveLimit, reach_width)?;
    let field = read_section(query, reach.next, 60, Fault::CountAboveLimit, 3)?;
    let boolean = read_section(query, field.next, most, excess, 2)?;
    if boolean.next < query.len() {
        return Err(Fault::TrailingBytes.at(boolean.next));
    }
    let layout = Layout {
        links,
        terms: terms.count,
        equal_at: terms.next + 1,
        equal_count: equal.count,
        reach_at: equal.next + 1,
        reach_count: reach.count,
        field_at: reach.next + 1,
        field_count: field.count,
    };
    Ok(FullLayout {
        layout,
        boolean_at: field.next + 1,
        boolean_count: boolean.count,
    })
}

// Literal i of the equalities, the reachability literals or the data literals, which stand at `at`: whether it is plain.
pub fn sign(query: &[u8], at: usize, i: usize) -> bool
    requires { at + 3 * i + 3 ≤ length query.now }
    ensures { result ≡ (literal_in query.now at i).plain }
{
    entries::byte_at(query, at + 3 * i) == 1
}

// The left term of an equality or a reachability literal.
pub fn left(query: &[u8], at: usize, i: usize) -> Term
    requires { at + 3 * i + 3 ≤ length query.now }
    ensures { result.0 ≡ (literal_in query.now at i).left }
{
    Term(entries::byte_at(query, at + 3 * i + 1))
}

// The right term of these, or the term of a data literal.
pub fn right(query: &[u8], at: usize, i: usize) -> Term
    requires { at + 3 * i + 3 ≤ length query.now }
    ensures { result.0 ≡ (literal_in query.now at i).right }
{
    Term(entries::byte_at(query, at + 3 * i + 2))
}

// The field of a data literal.
pub fn field(query: &[u8], at: usize, i: usize) -> usize
    requires { at + 3 * i + 3 ≤ length query.now }
    ensures { result ≡ (literal_in query.now at i).left }
{
    entries::byte_at(query, at + 3 * i + 1)
}
