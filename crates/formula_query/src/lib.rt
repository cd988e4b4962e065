// The query of a conjunction, as bytes: the query's terms, and of each section the literals that are marked.
#![tactic(auto)]

ghost use Rattle.std.specs.Prelude.{◌≡◌, cond, [], ◌+◌, ◌*◌, ◌≤◌, ◌<◌, length, take, drop, eqb};
ghost use Rattle.logic.specs.Query.{literals};
ghost use Rattle.text.specs.Text.{Writes};
ghost use Rattle.query.specs.LaysOut.{LaysOut, literal_in};
ghost use Rattle.formula.specs.Meaning.{chosen};
ghost use Rattle.encoding.specs.QueryBytes.{sign_byte, literal_bytes, section_bytes};
ghost use Rattle.formula_query.specs.Kept.{mark, Counted, PutsQuery};

use query::Layout;

// Literal n of a section is marked.
fn is_marked(marks: &[bool; 256], code: usize, n: usize) -> bool
    requires { (code < 4) × (n < 64) }
    ensures { result ≡ mark marks.now code n }
{
    marks[64 * code + n]
}

fn count_marked(marks: &[bool; 256], code: usize, count: usize) -> usize
    requires { (code < 4) × (count ≤ 60) }
    ensures { (result ≤ count) × Counted result marks.now code count }
{
    let mut kept = 0;
    for i in 0..count {
        if is_marked(marks, code, i + 1) {
            kept += 1;
        }
    }
    kept
}

// "Sign 1 is plain, 0 negated."
fn sign_byte(b: u8) -> u8
    ensures { result ≡ sign_byte (eqb b 1) }
{
    u8::from(b == 1)
}

// Literal i of a section.
fn put_literal(query: &[u8], at: usize, i: usize, out: &mut [u8], to: usize) -> usize
    requires { (at + 3 * i + 3 ≤ length query.now) × (to ≤ 1000) }
    ensures { Writes out.old to (literal_bytes (literal_in query.now at i)) out.new result }
{
    let place = at + 3 * i;
    let signed = text::put_byte(out, to, sign_byte(query[place]));
    let left = text::put_byte(out, signed, query[place + 1]);
    text::put_byte(out, left, query[place + 2])
}

// A section of literals: the place of the first, how many there are, and the code that marks have for it.
#[derive(Clone, Copy)]
struct Section {
    at: usize,
    count: usize,
    code: usize,
}

// Literal i of a section where it is marked.
fn put_marked_literal(
    query: &[u8],
    section: Section,
    i: usize,
    marks: &[bool; 256],
    out: &mut [u8],
    to: usize,
) -> usize
    requires { (section.at + 3 * i + 3 ≤ length query.now) × (to ≤ 1000) × (section.code < 4) × (i < 60) }
    ensures { Writes out.old to (cond (mark marks.now section.code (i + 1)) (literal_bytes (literal_in query.now section.at i)) []) out.new result }
{
    if !is_marked(marks, section.code, i + 1) {
        return to;
    }
    put_literal(query, section.at, i, out, to)
}

// The marked literals of a section, after their count.
fn put_literals(
    query: &[u8],
    section: Section,
    marks: &[bool; 256],
    out: &mut [u8],
    to: usize,
) -> usize
    requires { (section.at + 3 * section.count ≤ length query.now) × (section.count ≤ 60) × (section.code < 4) × (to ≤ 600) }
    ensures { (result ≤ to + 1 + 3 * section.count) × Writes out.old to (section_bytes (chosen (mark marks.now section.code) 1 (literals (take (3 * section.count) (drop section.at query.now))))) out.new result }
{
    let kept = count_marked(marks, section.code, section.count);
    let mut end = text::put_byte(out, to, kept as u8);
    for i in 0..section.count {
        end = put_marked_literal(query, section, i, marks, out, end);
    }
    end
}

// The query of the conjunction whose literals are marked; section 5 is the count 0.
pub fn put_query(query: &[u8], layout: Layout, marks: &[bool; 256], out: &mut [u8]) -> usize
    requires { LaysOut layout query.now }
    ensures { (result ≤ 561) × PutsQuery query.now marks.now out.old out.new result }
{
    let n = layout.terms;
    let end = n + 1;
    let one = text::put_byte(out, 0, n as u8);
    let terms = text::put_bytes(out, one, &query[1..end]);
    let equalities = Section {
        at: layout.equal_at,
        count: layout.equal_count,
        code: 0,
    };
    let reachability = Section {
        at: layout.reach_at,
        count: layout.reach_count,
        code: 1,
    };
    let fields = Section {
        at: layout.field_at,
        count: layout.field_count,
        code: 2,
    };
    let equal = put_literals(query, equalities, marks, out, terms);
    let reach = put_literals(query, reachability, marks, out, equal);
    let field = put_literals(query, fields, marks, out, reach);
    text::put_byte(out, field, 0)
}
