// The nodes of the heap shown: the terms that stand, numbered, and a byte of each in a buffer.
#![tactic(auto)]

ghost use Rattle.std.specs.Prelude.{◌≡◌, ℕ, ◌+◌, ◌≤◌, ◌<◌, map, length, get_or};
ghost use Rattle.facts.specs.Path.{rep_of};
ghost use Rattle.heap_nodes.specs.Nodes.{node_of, marked, nodes_by, Numbers};
ghost use Rattle.lent.specs.Appending.{Appends};
ghost use Rattle.completion.specs.Links.{link_of};

use rows::Term;

// A node of the heap by its number.
#[derive(Clone, Copy, PartialEq, Eq)]
pub struct Node(pub usize);

// The terms that are nodes: those not replaced. With no terms, the one node is that of 0, which is no term.
pub fn mark_nodes(rep: &[u8; 17], n: usize) -> [bool; 17]
    requires { n ≤ 16 }
    ensures { marked result n ≡ nodes_by (rep_of rep.now) n }
{
    let mut marks = [false; 17];
    let mut none = true;
    for t in 1..n + 1 {
        let stands = usize::from(rep[t]) == t;
        marks[t] = stands;
        none &= !stands;
    }
    marks[0] = none;
    marks
}

// How many numbers to n are marked.
pub fn count_marks(marks: &[bool; 17], n: usize) -> usize
    requires { n ≤ 16 }
    ensures { result ≡ length (marked marks.now n) }
{
    let mut count: usize = 0;
    for t in 0..n + 1 {
        if marks[t] {
            count += 1;
        }
    }
    count
}

// The term-to-node list, for m terms that are nodes: the node of each term, as a byte.
pub fn number_nodes(marks: &[bool; 17], n: usize, m: usize) -> [u8; 17]
    requires { (n ≤ 16) × (m ≤ 16) × (m ≡ length (marked marks.now n)) }
    ensures { Numbers result (marked marks.now n) }
{
    let last = m as u8;
    let mut nodes = [last; 17];
    let mut k: usize = 0;
    for t in 0..n + 1 {
        if marks[t] {
            k += 1;
            nodes[t] = k as u8;
        }
    }
    nodes
}

// The node of a term, by the term-to-node list: a term's number becomes a node's in no other way.
pub fn node_of(nodes: &[u8; 17], t: Term) -> Node
    requires { t.0 ≤ 16 }
    ensures { (result.0 ≡ node_of nodes.now t.0) × (result.0 < 256) }
{
    Node(usize::from(nodes[t.0]))
}

// The node of the term that each number to n links to.
pub fn nodes_linked(nodes: &[u8; 17], links: &[u8; 17], n: usize) -> [u8; 17]
    requires { (n ≤ 16) × ((t : ℕ) → t ≤ n → link_of links.now t ≤ 16) }
    ensures { (t : ℕ) → t ≤ n → get_or result t 0 ≡ node_of nodes.now (link_of links.now t) }
{
    let mut bytes = [0u8; 17];
    for t in 0..n + 1 {
        let node = node_of(nodes, Term(usize::from(links[t])));
        bytes[t] = node.0 as u8;
    }
    bytes
}

// The node of each term.
pub fn nodes_of_terms(nodes: &[u8; 17], rep: &[u8; 17], n: usize) -> [u8; 17]
    requires { (n ≤ 16) × ((t : ℕ) → 1 ≤ t → t ≤ n → rep_of rep.now t ≤ 16) }
    ensures { (t : ℕ) → 1 ≤ t → t ≤ n → get_or result t 0 ≡ node_of nodes.now (rep_of rep.now t) }
{
    let mut bytes = [0u8; 17];
    for t in 1..n + 1 {
        let node = node_of(nodes, facts::read_rep(rep, Term(t)));
        bytes[t] = node.0 as u8;
    }
    bytes
}

// The byte of each term that is a node, at its node's place.
pub fn put_nodes(
    buffer: &mut [u8],
    at: usize,
    bytes: &[u8; 17],
    marks: &[bool; 17],
    nodes: &[u8; 17],
    n: usize,
)
    requires { (n ≤ 16) × (at + length (marked marks.now n) ≤ length buffer.old) × Numbers nodes.now (marked marks.now n) }
    ensures { Appends buffer.old buffer.new at (map (λ t. get_or bytes.now t 0) (marked marks.now n)) }
{
    for t in 0..n + 1 {
        if marks[t] {
            let node = node_of(nodes, Term(t));
            let to = at + node.0 - 1;
            buffer[to] = bytes[t];
        }
    }
}
