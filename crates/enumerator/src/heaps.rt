// Every heap with as many nodes as the query has terms, or fewer: by the small model property (000) some such heap meets
// the literals if any heap does.
ghost use Rattle.std.specs.Prelude.{◌<◌};

use crate::literals::{
    Section, Term, datum_at, is_link, literals_hold, node_of, section_at, successor,
};
use crate::room::{Room, bit, byte, fill, put};

// The heap of m nodes with which the enumeration begins: every link and every variable is at node 1.
fn first_heap(query: &Room, m: usize) -> Room
    requires { m < 256 }
{
    let n = byte(query, 0);
    let mut heap: Room = [0; 64];
    put(&mut heap, 0, m);
    fill(&mut heap, 1, m, 1);
    put(&mut heap, m + 1, n);
    fill(&mut heap, m + 2, n, 1);
    put(&mut heap, m + n + 2, m);
    put(&mut heap, m + m + n + 3, 1);
    heap
}

// The byte at a place is chosen freely: a node's successor, or the node of a variable or of nil.
fn is_free(query: &Room, m: usize, at: usize) -> bool {
    if at <= m {
        return true;
    }
    if at == m + 1 {
        return false;
    }
    !is_link(query, at - m - 1)
}

// The next choice of successors and variables, as an odometer counts; false after the last.
fn next_heap(query: &Room, heap: &mut Room) -> bool {
    let m = byte(heap, 0);
    let last = m + 1 + byte(query, 0);
    for at in 1..last + 1 {
        if is_free(query, m, at) {
            let x = byte(heap, at);
            if x < m {
                put(heap, at, x + 1);
                return true;
            }
            put(heap, at, 1);
        }
    }
    false
}

// The node of a term that is f of an earlier one is that one's successor.
fn place_terms(query: &Room, heap: &mut Room) {
    let n = byte(query, 0);
    let m = byte(heap, 0);
    for t in 1..n + 1 {
        if is_link(query, t) {
            let x = successor(heap, node_of(heap, Term(byte(query, t))));
            put(heap, m + 1 + t, x.0);
        }
    }
}

// The data fields of plain literals are set.
fn set_fields(query: &Room, heap: &mut Room) {
    let section = section_at(query, Section::Data);
    let count = byte(query, section);
    for i in 0..count {
        let at = section + 1 + 3 * i;
        if byte(query, at) == 1 {
            let datum = datum_at(query, heap, at);
            put(heap, datum, byte(heap, datum) | bit(byte(query, at + 1)));
        }
    }
}

// The rest follows from the links and the variables' nodes: the other terms, and the least data that meet the plain literals.
fn complete(query: &Room, heap: &mut Room) {
    place_terms(query, heap);
    let m = byte(heap, 0);
    fill(heap, m + byte(query, 0) + 3, m, 0);
    set_fields(query, heap);
}

// Some heap of m nodes meets every literal: with 4 nodes and 4 variables there are 65,536 choices.
fn some_heap(query: &Room, m: usize) -> bool
    requires { m < 256 }
{
    let mut heap = first_heap(query, m);
    for _ in 0..65536 {
        complete(query, &mut heap);
        if literals_hold(query, &heap) {
            return true;
        }
        if !next_heap(query, &mut heap) {
            return false;
        }
    }
    false
}

// Some heap meets every literal: one node is tried for a query with no terms.
pub fn is_satisfiable(query: &Room) -> bool {
    let n = byte(query, 0);
    for m in 1..n {
        if some_heap(query, m) {
            return true;
        }
    }
    some_heap(query, n.max(1))
}

// The report shows a heap that meets every literal: its successors and the nodes of its variables are nodes, and all the rest, counts and
// zeros too, is as it follows from them.
pub fn is_shown(query: &Room, report: &Room) -> bool {
    let m = byte(report, 0);
    if (m == 0) | (16 < m) {
        return false;
    }
    let mut heap = first_heap(query, m);
    let last = m + 1 + byte(query, 0);
    for at in 1..last + 1 {
        if is_free(query, m, at) {
            let x = byte(report, at);
            if (x == 0) | (m < x) {
                return false;
            }
            put(&mut heap, at, x);
        }
    }
    complete(query, &mut heap);
    *report == heap && literals_hold(query, &heap)
}
