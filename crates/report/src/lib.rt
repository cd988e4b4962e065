// The heap report's bytes.
#![tactic(auto)]

ghost use Rattle.std.specs.Prelude.{◌≡◌, ℕ, ◌+◌, ◌*◌, ◌≤◌, ◌∷◌, map, length, get_or};
ghost use Rattle.rows.specs.Square.{square};
ghost use Rattle.facts.specs.Path.{path_of, rep_of, HasLink};
ghost use Rattle.logic.specs.Facts.{terms};
ghost use Rattle.logic.specs.Calls.{padded};
ghost use Rattle.logic.specs.Shown.{byte_of, shown_link, report};
ghost use Rattle.heap_nodes.specs.Nodes.{node_of, marked};
ghost use Rattle.lent.specs.Appending.{Appends};
ghost use Rattle.report.specs.Bytes.{field_held, literals_at, FieldsIn, Numbered, Reportable, all_successors, sections};
ghost use Rattle.link_query.specs.Said.{said};

use facts::Facts;
use link_rows::Link;
use query::Layout;

// The nodes of the heap shown: which of the terms are nodes, how many, and the term-to-node list.
#[derive(Clone, Copy)]
struct Nodes {
    terms: usize,
    count: usize,
    marks: [bool; 17],
    list: [u8; 17],
}

// The byte of each term, ascending.
fn put_terms(buffer: &mut [u8], at: usize, bytes: &[u8; 17], n: usize) -> usize
    requires { (n ≤ 16) × (at + n ≤ length buffer.old) }
    ensures { (result ≡ at + n) × Appends buffer.old buffer.new at (map (λ t. get_or bytes.now t 0) (terms n)) }
{
    for t in 0..n {
        buffer[at + t] = bytes[t + 1];
    }
    at + n
}

// The fields that plain data literals set: field j at the node of term v is bit j of row v.
fn mark_fields(query: &[u8], at: usize, count: usize, rep: &[u8; 17]) -> [u32; 17]
    requires { (at + 3 * count ≤ length query.now) × FieldsIn query.now at count (rep_of rep.now) }
    ensures { (v j : ℕ) → v ≤ 16 → j ≤ 16 → square result v j ≡ field_held (rep_of rep.now) (literals_at query.now at count) v j }
{
    let mut marks = [0u32; 17];
    for i in 0..count {
        if !query::sign(query, at, i) {
            continue;
        }
        let field = query::field(query, at, i);
        let stands = facts::read_rep(rep, query::right(query, at, i));
        let v = stands.0;
        marks[v] = marks[v] | rows::only(field);
    }
    marks
}

// "field j in bit j-1": the byte of the row at v.
fn row_byte(marks: &[u32; 17], v: usize) -> u8
    requires { v ≤ 16 }
    ensures { result ≡ byte_of (square marks.now v) 1 8 }
{
    ((marks[v] >> 1) & 255) as u8
}

// The data bytes, at the numbers to n.
pub fn row_bytes(marks: &[u32; 17], n: usize) -> [u8; 17]
    requires { n ≤ 16 }
    ensures { (v : ℕ) → v ≤ n → get_or result v 0 ≡ byte_of (square marks.now v) 1 8 }
{
    let mut bytes = [0u8; 17];
    for v in 0..n + 1 {
        bytes[v] = row_byte(marks, v);
    }
    bytes
}

// The successors along link k, at the numbers to n.
fn successor_bytes(s: &Facts, nodes: &Nodes, k: Link) -> [u8; 17]
    requires { (nodes.now.terms ≤ 16) × HasLink (path_of s.now) k.0 }
    ensures { (t : ℕ) → t ≤ nodes.now.terms → get_or result t 0 ≡ node_of nodes.now.list (shown_link nodes.now.terms (path_of s.now) k.0 t) }
{
    let links = completion::shown_links(s, nodes.terms, k);
    heap_nodes::nodes_linked(&nodes.list, &links, nodes.terms)
}

// "field j in bit j-1, set exactly by a plain literal", at the numbers to n.
pub fn data_bytes(query: &[u8], at: usize, count: usize, rep: &[u8; 17], n: usize) -> [u8; 17]
    requires { (n ≤ 16) × (at + 3 * count ≤ length query.now) × FieldsIn query.now at count (rep_of rep.now) }
    ensures { (v : ℕ) → v ≤ n → get_or result v 0 ≡ byte_of (field_held (rep_of rep.now) (literals_at query.now at count) v) 1 8 }
{
    let marks = mark_fields(query, at, count, rep);
    row_bytes(&marks, n)
}

// The successors of the nodes, link by link.
fn put_successors(buffer: &mut [u8], at: usize, s: &Facts, nodes: &Nodes) -> usize
    requires { Numbered nodes.now × (at + (path_of s.now).links * nodes.now.count ≤ length buffer.old) }
    ensures { (result ≡ at + (path_of s.now).links * nodes.now.count) × Appends buffer.old buffer.new at (all_successors nodes.now.terms (path_of s.now) (marked nodes.now.marks nodes.now.terms)) }
{
    let links = s.links();
    let mut to = at;
    for k in 1..links + 1 {
        let bytes = successor_bytes(s, nodes, Link(k));
        heap_nodes::put_nodes(buffer, to, &bytes, &nodes.marks, &nodes.list, nodes.terms);
        to += nodes.count;
    }
    to
}

// "m successors", or "3m successors, link by link, after the count 3m" (02, R-11).
fn put_successor_section(buffer: &mut [u8], at: usize, s: &Facts, nodes: &Nodes) -> usize
    requires { Numbered nodes.now × (at + 1 + (path_of s.now).links * nodes.now.count ≤ length buffer.old) }
    ensures { (result ≡ at + 1 + (path_of s.now).links * nodes.now.count) × Appends buffer.old buffer.new at ((path_of s.now).links * nodes.now.count ∷ all_successors nodes.now.terms (path_of s.now) (marked nodes.now.marks nodes.now.terms)) }
{
    let links = s.links();
    let count = links * nodes.count;
    let next = lent::put(buffer, at, count as u8);
    put_successors(buffer, next, s, nodes)
}

// A section of one byte for each node: the count of the nodes, and the bytes of the terms that are nodes.
fn put_node_section(buffer: &mut [u8], at: usize, bytes: &[u8; 17], nodes: &Nodes) -> usize
    requires { Numbered nodes.now × (at + 1 + nodes.now.count ≤ length buffer.old) }
    ensures { (result ≡ at + 1 + nodes.now.count) × Appends buffer.old buffer.new at (nodes.now.count ∷ map (λ t. get_or bytes.now t 0) (marked nodes.now.marks nodes.now.terms)) }
{
    let next = lent::put(buffer, at, nodes.count as u8);
    heap_nodes::put_nodes(buffer, next, bytes, &nodes.marks, &nodes.list, nodes.terms);
    next + nodes.count
}

// A section of one byte for each term: their count, and the bytes.
pub fn put_term_section(buffer: &mut [u8], at: usize, n: usize, bytes: &[u8; 17]) -> usize
    requires { (n ≤ 16) × (at + 1 + n ≤ length buffer.old) }
    ensures { (result ≡ at + 1 + n) × Appends buffer.old buffer.new at (n ∷ map (λ t. get_or bytes.now t 0) (terms n)) }
{
    let next = lent::put(buffer, at, n as u8);
    put_terms(buffer, next, bytes, n)
}

// The successors; "n nodes, one per term; m data bytes ..; one byte of booleans", which is 0 (02, R-13), and zeros past them.
fn write_sections(buffer: &mut [u8], s: &Facts, nodes: &Nodes, places: &[u8; 17], fields: &[u8; 17])
    requires { Numbered nodes.now × (5 + nodes.now.terms + nodes.now.count + (path_of s.now).links * nodes.now.count ≤ length buffer.old) }
    ensures { buffer.new ≡ padded (length buffer.old) (sections nodes.now.terms (marked nodes.now.marks nodes.now.terms) (all_successors nodes.now.terms (path_of s.now) (marked nodes.now.marks nodes.now.terms)) (λ t. get_or places.now t 0) (λ t. get_or fields.now t 0)) }
{
    lent::clear(buffer);
    let second = put_successor_section(buffer, 0, s, nodes);
    let third = put_term_section(buffer, second, nodes.terms, places);
    let fourth = put_node_section(buffer, third, fields, nodes);
    let last = lent::put(buffer, fourth, 1);
    lent::put(buffer, last, 0);
}

// The heap report.
pub fn write_report(buffer: &mut [u8], query: &[u8], l: Layout, s: &Facts)
    requires { (37 + 16 * (path_of s.now).links ≤ length buffer.old) × Reportable l query.now s.now }
    ensures { buffer.new ≡ padded (length buffer.old) (report (said l query.now) (path_of s.now)) }
{
    let terms = l.terms;
    let marks = heap_nodes::mark_nodes(&s.rep, terms);
    let count = heap_nodes::count_marks(&marks, terms);
    let list = heap_nodes::number_nodes(&marks, terms, count);
    let places = heap_nodes::nodes_of_terms(&list, &s.rep, terms);
    let fields = data_bytes(query, l.field_at, l.field_count, &s.rep, terms);
    let nodes = Nodes {
        terms,
        count,
        marks,
        list,
    };
    write_sections(buffer, s, &nodes, &places, &fields);
}
