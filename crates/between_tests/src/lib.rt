// The tests of one choice of a term's node: over the query's bytes in place, and tables that are made once for a list of links or a query.
#![tactic(auto)]

ghost use Rattle.std.specs.Prelude.{◌≡◌, true, false, not, cond, ◌&&◌, List, ℕ, ◌+◌, ◌*◌, ◌≤◌, ◌<◌, length, get_or, eqb};
ghost use Rattle.logic.specs.Search.{from, any};
ghost use Rattle.logic.specs.Query.{Literal, decode, names_nil, argument_of};
ghost use Rattle.query.specs.LaysOut.{LaysOut, literal_in};
ghost use Rattle.between_search.specs.Bytes.{triples};
ghost use Rattle.between_search.specs.Tests.{steps, agrees, due_pair, due_triple, pair_breaks, triple_breaks, nil_breaks, says_field, has_field, opposed, field_breaks, is_fresh, used};
ghost use Rattle.between_search.specs.Search.{entry};
ghost use Rattle.between_tests.specs.Tables.{Small, MadeTo, Stepped, Opposed, literals_in, triple_in};

use heap_nodes::Node;
use query::Layout;
use rows::Term;

// The node that a link leads to.
pub fn link_of(links: &[u8; 17], v: Node) -> Node
    requires { v.0 ≤ 16 }
    ensures { result.0 ≡ entry links.now v.0 }
{
    let at = v.0;
    Node(usize::from(links[at]))
}

// The least step count from v to w, or 6 where w is not met.
fn step_count(links: &[u8; 17], v: Node, w: Node) -> usize
    requires { Small links.now × (v.0 ≤ 5) }
    ensures { (result ≡ steps (entry links.now) v.0 w.0) × (result ≤ 6) }
{
    let mut at = v;
    for k in 0..6 {
        if at.0 == w.0 {
            return k;
        }
        at = link_of(links, at);
    }
    6
}

// All of these: from v to w it is at 6 * v + w.
pub fn step_table(links: &[u8; 17]) -> [u8; 36]
    requires { Small links.now }
    ensures { Stepped result (entry links.now) }
{
    let mut table = [0u8; 36];
    for v in 0..6 {
        for w in 0..6 {
            table[6 * v + w] = step_count(links, Node(v), Node(w)) as u8;
        }
    }
    table
}

fn step_of(table: &[u8; 36], v: Node, w: Node) -> u8
    requires { (v.0 ≤ 5) × (w.0 ≤ 5) }
    ensures { result ≡ get_or table.now (6 * v.0 + w.0) 0 }
{
    table[6 * v.0 + w.0]
}

// What is held is what the sign asks for.
fn agrees(sign: bool, held: bool) -> bool
    ensures { result ≡ agrees sign held }
{
    sign == held
}

// t is the last of a literal's terms.
fn due_pair(a: Term, b: Term, t: Term) -> bool
    ensures { result ≡ due_pair a.0 b.0 t.0 }
{
    ((a.0 <= t.0) & (b.0 <= t.0)) & ((a.0 == t.0) | (b.0 == t.0))
}

fn due_triple(x: Term, y: Term, z: Term, t: Term) -> bool
    ensures { result ≡ due_triple x.0 y.0 z.0 t.0 }
{
    (((x.0 <= t.0) & (y.0 <= t.0)) & (z.0 <= t.0)) & (((x.0 == t.0) | (y.0 == t.0)) | (z.0 == t.0))
}

// A section of literals on two terms, each of which holds where the second is met after at most so many steps: 0 for equalities, 5 for
// reachability literals.
#[derive(Clone, Copy)]
pub struct Pairs {
    pub at: usize,
    pub count: usize,
    pub most: u8,
}

// Literal i of the section is due at t and fails.
fn pair_breaks(
    query: &[u8],
    pairs: Pairs,
    i: usize,
    table: &[u8; 36],
    nodes: &[u8; 17],
    t: Term,
) -> bool
    requires { (pairs.at + 3 * i + 3 ≤ length query.now) × Small nodes.now × (t.0 ≤ 5) }
    ensures { (link : ℕ → ℕ) → Stepped table.now link → result ≡ pair_breaks link (entry nodes.now) pairs.most t.0 (literal_in query.now pairs.at i) }
{
    let a = query::left(query, pairs.at, i);
    let b = query::right(query, pairs.at, i);
    if !due_pair(a, b, t) {
        return false;
    }
    let count = step_of(
        table,
        heap_nodes::node_of(nodes, a),
        heap_nodes::node_of(nodes, b),
    );
    !agrees(query::sign(query, pairs.at, i), count <= pairs.most)
}

// One of the section does.
pub fn pairs_break(query: &[u8], pairs: Pairs, table: &[u8; 36], nodes: &[u8; 17], t: Term) -> bool
    requires { (pairs.at + 3 * pairs.count ≤ length query.now) × Small nodes.now × (t.0 ≤ 5) }
    ensures { (link : ℕ → ℕ) → Stepped table.now link → result ≡ any (pair_breaks link (entry nodes.now) pairs.most t.0) (literals_in query.now pairs.at pairs.count) }
{
    for i in 0..pairs.count {
        if pair_breaks(query, pairs, i, table, nodes, t) {
            return true;
        }
    }
    false
}

// A term of between literal i: x is 1, y is 2, z is 3.
fn term_in(bytes: &[u8], i: usize, which: usize) -> Term
    requires { (4 * i + which < length bytes.now) × (which ≤ 3) }
    ensures { result.0 ≡ get_or bytes.now (4 * i + which) 0 }
{
    Term(entries::byte_at(bytes, 4 * i + which))
}

// Between literal i is due at t and fails.
fn triple_breaks(bytes: &[u8], i: usize, table: &[u8; 36], nodes: &[u8; 17], t: Term) -> bool
    requires { (4 * i + 4 ≤ length bytes.now) × Small nodes.now × (t.0 ≤ 5) }
    ensures { (link : ℕ → ℕ) → Stepped table.now link → result ≡ triple_breaks link (entry nodes.now) t.0 (triple_in bytes.now i) }
{
    let x = term_in(bytes, i, 1);
    let y = term_in(bytes, i, 2);
    let z = term_in(bytes, i, 3);
    if !due_triple(x, y, z, t) {
        return false;
    }
    let start = heap_nodes::node_of(nodes, x);
    let middle = step_of(table, start, heap_nodes::node_of(nodes, y));
    let end = step_of(table, start, heap_nodes::node_of(nodes, z));
    let held = (middle <= end) & (end <= 5);
    !agrees(entries::byte_at(bytes, 4 * i) == 1, held)
}

pub fn triples_break(
    bytes: &[u8],
    count: usize,
    table: &[u8; 36],
    nodes: &[u8; 17],
    t: Term,
) -> bool
    requires { (4 * count ≡ length bytes.now) × Small nodes.now × (t.0 ≤ 5) }
    ensures { (link : ℕ → ℕ) → Stepped table.now link → result ≡ any (triple_breaks link (entry nodes.now) t.0) (triples bytes.now) }
{
    for i in 0..count {
        if triple_breaks(bytes, i, table, nodes, t) {
            return true;
        }
    }
    false
}

// Term t is nil.
fn is_nil(query: &[u8], l: Layout, t: Term) -> bool
    requires { LaysOut l query.now × (1 ≤ t.0) × (t.0 ≤ l.terms) }
    ensures { result ≡ names_nil (decode query.now).entries t.0 }
{
    let at = t.0;
    entries::byte_at(query, at) == 255
}

// The term that t is f of, or 0.
pub fn argument(query: &[u8], l: Layout, t: Term) -> Term
    requires { LaysOut l query.now × (1 ≤ t.0) × (t.0 ≤ l.terms) }
    ensures { result.0 ≡ argument_of (decode query.now).entries t.0 }
{
    if is_nil(query, l, t) {
        return Term(0);
    }
    let at = t.0;
    Term(entries::byte_at(query, at))
}

// A nil term up to t names another node than t.
fn other_nil(query: &[u8], l: Layout, nodes: &[u8; 17], t: Term) -> bool
    requires { LaysOut l query.now × (1 ≤ t.0) × (t.0 ≤ l.terms) }
    ensures { result ≡ any (λ u. names_nil (decode query.now).entries u && not (eqb (entry nodes.now u) (entry nodes.now t.0))) (from t.0 1) }
{
    let v = heap_nodes::node_of(nodes, t);
    for u in 1..t.0 + 1 {
        let nil = is_nil(query, l, Term(u));
        let w = heap_nodes::node_of(nodes, Term(u));
        if nil & (w.0 != v.0) {
            return true;
        }
    }
    false
}

// "all nil terms are one node and its link goes to itself"
pub fn nil_breaks(query: &[u8], l: Layout, links: &[u8; 17], nodes: &[u8; 17], t: Term) -> bool
    requires { LaysOut l query.now × (1 ≤ t.0) × (t.0 ≤ l.terms) × Small nodes.now }
    ensures { result ≡ nil_breaks (decode query.now).entries (entry links.now) (entry nodes.now) t.0 }
{
    if !is_nil(query, l, t) {
        return false;
    }
    let v = heap_nodes::node_of(nodes, t);
    let w = link_of(links, v);
    if w.0 != v.0 {
        return true;
    }
    other_nil(query, l, nodes, t)
}

// Data literal i has this sign, field and term.
fn says_field(query: &[u8], at: usize, i: usize, sign: bool, j: usize, t: Term) -> bool
    requires { at + 3 * i + 3 ≤ length query.now }
    ensures { result ≡ says_field sign j t.0 (literal_in query.now at i) }
{
    let same = agrees(sign, query::sign(query, at, i));
    let field = query::field(query, at, i);
    let term = query::right(query, at, i);
    (same & (field == j)) & (term.0 == t.0)
}

fn has_field(query: &[u8], at: usize, count: usize, sign: bool, j: usize, t: Term) -> bool
    requires { at + 3 * count ≤ length query.now }
    ensures { result ≡ has_field (literals_in query.now at count) sign j t.0 }
{
    for i in 0..count {
        if says_field(query, at, i, sign, j, t) {
            return true;
        }
    }
    false
}

// Term a has a field plain that term b has negated.
fn is_opposed(query: &[u8], at: usize, count: usize, a: Term, b: Term) -> bool
    requires { at + 3 * count ≤ length query.now }
    ensures { result ≡ opposed (literals_in query.now at count) a.0 b.0 }
{
    for j in 1..9 {
        let plain = has_field(query, at, count, true, j, a);
        let negated = has_field(query, at, count, false, j, b);
        if plain & negated {
            return true;
        }
    }
    false
}

// All of these: a against b is at 6 * a + b.
pub fn opposed_table(query: &[u8], at: usize, count: usize) -> [bool; 36]
    requires { at + 3 * count ≤ length query.now }
    ensures { Opposed result (literals_in query.now at count) }
{
    let mut table = [false; 36];
    for i in 0..36 {
        table[i] = is_opposed(query, at, count, Term(i / 6), Term(i % 6));
    }
    table
}

// A field would be held plain and negated at the node of t.
pub fn field_breaks(table: &[bool; 36], nodes: &[u8; 17], t: Term) -> bool
    requires { (1 ≤ t.0) × (t.0 ≤ 5) }
    ensures { (fields : List Literal) → Opposed table.now fields → result ≡ field_breaks fields (entry nodes.now) t.0 }
{
    let v = heap_nodes::node_of(nodes, t);
    for u in 1..t.0 + 1 {
        let w = heap_nodes::node_of(nodes, Term(u));
        let apart = table[6 * u + t.0];
        let back = table[6 * t.0 + u];
        if (w.0 == v.0) & (apart | back) {
            return true;
        }
    }
    false
}

// Term t names a node that no lower term names.
fn is_fresh(nodes: &[u8; 17], t: Term) -> bool
    requires { (1 ≤ t.0) × (t.0 ≤ 16) }
    ensures { result ≡ is_fresh (entry nodes.now) t.0 }
{
    let v = heap_nodes::node_of(nodes, t);
    for u in 1..t.0 {
        let w = heap_nodes::node_of(nodes, Term(u));
        if w.0 == v.0 {
            return false;
        }
    }
    true
}

// How many nodes the terms up to t name.
pub fn used(nodes: &[u8; 17], t: Term) -> usize
    requires { t.0 ≤ 16 }
    ensures { (result ≡ used (entry nodes.now) t.0) × (result ≤ 16) }
{
    let mut count: usize = 0;
    for u in 0..t.0 {
        if is_fresh(nodes, Term(u + 1)) {
            count += 1;
        }
    }
    count
}
