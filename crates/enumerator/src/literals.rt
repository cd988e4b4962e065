// What a query's literals say of a heap. A heap is the bytes of a report: a count and successors, a count and nodes, a
// count and data bytes, a count and the byte of booleans, 0 (02, R-13). Sections have the numbers of 01, 2 to 4.
ghost use Rattle.std.specs.Prelude.{◌<◌};

use crate::room::{Room, bit, byte};

#[derive(Clone, Copy)]
pub struct Term(pub usize);

#[derive(Clone, Copy, PartialEq, Eq)]
pub struct Node(pub usize);

// The three sections of literals.
#[derive(Clone, Copy)]
pub enum Section {
    Equalities,
    Reachability,
    Data,
}

// A term that is no variable and does not name nil is f of an earlier one.
pub fn is_link(query: &Room, t: usize) -> bool {
    let of = byte(query, t);
    (of != 0) & (of != 255)
}

// The place of a section's count: literals have three bytes.
pub fn section_at(query: &Room, section: Section) -> usize
    ensures { result < 3000 }
{
    let equalities = 1 + byte(query, 0);
    let reachability = equalities + 1 + 3 * byte(query, equalities);
    match section {
        Section::Equalities => equalities,
        Section::Reachability => reachability,
        Section::Data => reachability + 1 + 3 * byte(query, reachability),
    }
}

pub fn successor(heap: &Room, x: Node) -> Node {
    Node(byte(heap, x.0))
}

pub fn node_of(heap: &Room, t: Term) -> Node
    requires { t.0 < 256 }
    ensures { result.0 < 256 }
{
    Node(byte(heap, byte(heap, 0) + 1 + t.0))
}

// The place of the data byte that the data literal at a place speaks of.
pub fn datum_at(query: &Room, heap: &Room, at: usize) -> usize
    requires { at < 4000 }
{
    let m = byte(heap, 0);
    let x = node_of(heap, Term(byte(query, at + 2)));
    m + 2 + byte(heap, m + 1) + x.0
}

// Following links from a leads to b: after as many links as there are nodes, every node that a reaches was met.
fn reaches(heap: &Room, a: Node, b: Node) -> bool {
    let m = byte(heap, 0);
    let mut x = a;
    for _ in 0..m {
        if x == b {
            return true;
        }
        x = successor(heap, x);
    }
    false
}

// What the literal at a place says is so, its sign left aside.
fn is_so(query: &Room, heap: &Room, section: Section, at: usize) -> bool
    requires { at < 4000 }
{
    let first = byte(query, at + 1);
    let a = node_of(heap, Term(first));
    let b = node_of(heap, Term(byte(query, at + 2)));
    match section {
        Section::Equalities => a == b,
        Section::Reachability => reaches(heap, a, b),
        Section::Data => byte(heap, datum_at(query, heap, at)) & bit(first) != 0,
    }
}

// Every literal of a section holds.
fn section_holds(query: &Room, heap: &Room, section: Section) -> bool {
    let from = section_at(query, section);
    let count = byte(query, from);
    for i in 0..count {
        let at = from + 1 + 3 * i;
        if is_so(query, heap, section, at) != (byte(query, at) == 1) {
            return false;
        }
    }
    true
}

// "All nil terms are one node and its link goes to itself" (02, R-3).
fn nil_holds(query: &Room, heap: &Room) -> bool {
    let n = byte(query, 0);
    let mut nil: Option<Node> = None;
    for t in 1..n + 1 {
        if byte(query, t) == 255 {
            let x = node_of(heap, Term(t));
            if successor(heap, x) != x || nil.is_some_and(|other| other != x) {
                return false;
            }
            nil = Some(x);
        }
    }
    true
}

// The heap obeys the rule of nil, and every literal of the query holds.
pub fn literals_hold(query: &Room, heap: &Room) -> bool {
    nil_holds(query, heap)
        && section_holds(query, heap, Section::Equalities)
        && section_holds(query, heap, Section::Reachability)
        && section_holds(query, heap, Section::Data)
}
