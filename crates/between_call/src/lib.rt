// The call for queries with between literals: the first small heap that satisfies, in a report, or none.
#![tactic(auto)]

ghost use Rattle.std.specs.Prelude.{◌≡◌, List, map, ℕ, ◌+◌, ◌*◌, ◌≤◌, length, get_or, Ok};
ghost use Rattle.refusals.specs.Numbers.{number_of};
ghost use Rattle.logic.specs.Facts.{terms};
ghost use Rattle.rows.specs.Square.{square};
ghost use Rattle.logic.specs.Calls.{padded, blank, refused};
ghost use Rattle.report.specs.Bytes.{field_held, literals_at, FieldsIn, sections};
ghost use Rattle.between_search.specs.Search.{entry, report_of};
ghost use Rattle.between_search.specs.Calls.{searched, between_call};
ghost use Rattle.between_seek.specs.Answers.{query_in};
ghost use Rattle.between_call.specs.Promise.{Does, Reportable, Asked};

use between_seek::Heap;
use query::Layout;
use refusals::{Fault, Refusal};

// "more than five terms" are too many.
const MOST_TERMS: usize = 5;

// What the call answers: a heap, whose report is written, or none.
#[derive(Clone, Copy, PartialEq, Eq)]
pub enum BetweenAnswer {
    Heap,
    Nothing,
}

// The fields that plain data literals set: field j at node v is bit j of row v.
fn mark_fields(query: &[u8], at: usize, count: usize, nodes: &[u8; 17]) -> [u32; 17]
    requires { (at + 3 * count ≤ length query.now) × FieldsIn query.now at count (entry nodes.now) }
    ensures { (v j : ℕ) → v ≤ 16 → j ≤ 16 → square result v j ≡ field_held (entry nodes.now) (literals_at query.now at count) v j }
{
    let mut marks = [0u32; 17];
    for i in 0..count {
        if !query::sign(query, at, i) {
            continue;
        }
        let field = query::field(query, at, i);
        let node = heap_nodes::node_of(nodes, query::right(query, at, i));
        let v = node.0;
        marks[v] = marks[v] | rows::only(field);
    }
    marks
}

// "m successors; n nodes, one per term; m data bytes ..; one byte of booleans", which is 0, each section after its count, and zeros past
// them.
fn write_sections(
    buffer: &mut [u8],
    m: usize,
    n: usize,
    links: &[u8; 17],
    nodes: &[u8; 17],
    fields: &[u8; 17],
)
    requires { (m ≤ 16) × (n ≤ 16) × (53 ≤ length buffer.old) }
    ensures { buffer.new ≡ padded (length buffer.old) (sections n (terms m) (map (λ t. get_or links.now t 0) (terms m)) (λ t. get_or nodes.now t 0) (λ t. get_or fields.now t 0)) }
{
    lent::clear(buffer);
    let second = report::put_term_section(buffer, 0, m, links);
    let third = report::put_term_section(buffer, second, n, nodes);
    let fourth = report::put_term_section(buffer, third, m, fields);
    let last = lent::put(buffer, fourth, 1);
    lent::put(buffer, last, 0);
}

// The report of the heap that was found.
fn write_report(buffer: &mut [u8], base: &[u8], l: Layout, heap: &Heap)
    requires { (53 ≤ length buffer.old) × Reportable l base.now heap.now.links heap.now.nodes }
    ensures { (between : List ℕ) → buffer.new ≡ padded (length buffer.old) (report_of (query_in base.now between) (record { links = heap.now.links; nodes = heap.now.nodes })) }
{
    let m = usize::from(heap.links[0]);
    let marks = mark_fields(base, l.field_at, l.field_count, &heap.nodes);
    let fields = report::row_bytes(&marks, m);
    write_sections(buffer, m, l.terms, &heap.links, &heap.nodes, &fields);
}

// The first heap of a query that passes its checks, or none.
fn answer(base: &[u8], l: Layout, between: &[u8], count: usize, report: &mut [u8]) -> BetweenAnswer
    requires { Asked base.now l between.now count × (53 ≤ length report.old) }
    ensures { Does (searched (query_in base.now between.now) (length report.old)) (Ok result) report.new }
{
    let apart = between_tests::opposed_table(base, l.field_at, l.field_count);
    let Some(heap) = between_seek::heap_found(base, l, between, count, &apart) else {
        lent::clear(report);
        return BetweenAnswer::Nothing;
    };
    write_report(report, base, l, &heap);
    BetweenAnswer::Heap
}

// "All bytes of a lent report .. are zero after a refusal."
fn refuse(report: &mut [u8], refusal: Refusal) -> Result<BetweenAnswer, Refusal>
    ensures { Does (blank (length report.old) (refused (number_of refusal.fault) refusal.place)) result report.new }
{
    lent::clear(report);
    Err(refusal)
}

// The between call: "Checks: 2 to 9 over six sections .., then 21 more than five terms."
pub fn between(query: &[u8], report: &mut [u8]) -> Result<BetweenAnswer, Refusal>
    ensures { Does (between_call query.now (length report.old)) result report.new }
{
    match between_checks::check(query) {
        Err(refusal) => refuse(report, refusal),
        Ok(s) => {
            if report.len() < 53 {
                return refuse(report, Fault::ReportBuffer.at(0));
            }
            if MOST_TERMS < s.base.terms {
                return refuse(report, Fault::BetweenTerms.at(0));
            }
            let behind = s.at + 1;
            Ok(answer(&query[..s.at], s.base, &query[behind..], s.count, report))
        }
    }
}
