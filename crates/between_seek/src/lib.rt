// The search for the first small heap that satisfies a query with between literals.
#![tactic(auto)]

ghost use Rattle.std.specs.Prelude.{◌≡◌, List, ℕ, ◌+◌, ◌-◌, ◌≤◌, set, take};
ghost use Rattle.between_search.specs.Tests.{breaks};
ghost use Rattle.between_search.specs.Search.{entry, lowest_node, highest_node, seek_nodes, seek_links, nodes_found, links_found, size_found, heap_found, most_nodes};
ghost use Rattle.between_tests.specs.Tables.{Small};
ghost use Rattle.between_seek.specs.Answers.{query_in, found_of, Chosen, Entered, Given, Sized, Tested, Placed};

use between_tests::Pairs;
use heap_nodes::Node;
use query::Layout;
use rows::Term;

// A heap that was found: its node count and links, and the term count and the nodes of the terms.
#[derive(Clone, Copy)]
pub struct Heap {
    pub links: [u8; 17],
    pub nodes: [u8; 17],
}

// What is looked for: heaps of m nodes for a query that is laid out so and has `count` between literals. Where they are `sorted`, a node that is
// not named yet has the next number.
#[derive(Clone, Copy)]
struct Sought {
    l: Layout,
    count: usize,
    m: usize,
    sorted: bool,
}

// What is looked for with these links, and their step counts.
#[derive(Clone, Copy)]
struct Linked {
    q: Sought,
    links: [u8; 17],
    steps: [u8; 36],
}

// Term t cannot name the node that it is given.
fn breaks(
    base: &[u8],
    between: &[u8],
    apart: &[bool; 36],
    h: Linked,
    nodes: &[u8; 17],
    t: Term,
) -> bool
    requires { Sized base.now between.now apart.now h.q × Tested h nodes.now × (1 ≤ t.0) × (t.0 ≤ h.q.l.terms) }
    ensures { result ≡ breaks (query_in base.now between.now) h.q.m (entry h.links) (entry nodes.now) h.q.l.terms t.0 }
{
    let q = h.q;
    let l = q.l;
    let left = l.terms - t.0;
    let named = between_tests::used(nodes, t);
    if named + left < q.m {
        return true;
    }
    if between_tests::nil_breaks(base, l, &h.links, nodes, t) {
        return true;
    }
    if between_tests::field_breaks(apart, nodes, t) {
        return true;
    }
    let equal = Pairs {
        at: l.equal_at,
        count: l.equal_count,
        most: 0,
    };
    if between_tests::pairs_break(base, equal, &h.steps, nodes, t) {
        return true;
    }
    let reach = Pairs {
        at: l.reach_at,
        count: l.reach_count,
        most: 5,
    };
    if between_tests::pairs_break(base, reach, &h.steps, nodes, t) {
        return true;
    }
    between_tests::triples_break(between, q.count, &h.steps, nodes, t)
}

// The lowest node that term t can name, and the highest.
fn lowest(base: &[u8], h: Linked, nodes: &[u8; 17], t: Term) -> Node
    requires { Entered base.now h.q.l × Tested h nodes.now × (1 ≤ t.0) × (t.0 ≤ h.q.l.terms) }
    ensures { ((between : List ℕ) → result.0 ≡ lowest_node (query_in base.now between) (entry h.links) t.0 (entry nodes.now)) × (result.0 ≤ 5) }
{
    let q = h.q;
    let a = between_tests::argument(base, q.l, t);
    if a.0 == 0 {
        return Node(1);
    }
    let v = heap_nodes::node_of(nodes, a);
    between_tests::link_of(&h.links, v)
}

fn highest(base: &[u8], h: Linked, nodes: &[u8; 17], t: Term) -> Node
    requires { Entered base.now h.q.l × Tested h nodes.now × (h.q.m ≤ 5) × (1 ≤ t.0) × (t.0 ≤ h.q.l.terms) }
    ensures { ((between : List ℕ) → result.0 ≡ highest_node (query_in base.now between) h.q.sorted h.q.m (entry h.links) t.0 (entry nodes.now)) × (result.0 ≤ 5) }
{
    let q = h.q;
    let a = between_tests::argument(base, q.l, t);
    if a.0 != 0 {
        let v = heap_nodes::node_of(nodes, a);
        return between_tests::link_of(&h.links, v);
    }
    let next = between_tests::used(nodes, Term(t.0 - 1)) + 1;
    let fewer = next < q.m;
    if q.sorted & fewer {
        return Node(next);
    }
    Node(q.m)
}

// The list with node v at a place: the node of a term, or the one that a link leads to.
fn with_node(list: [u8; 17], at: usize, v: Node) -> [u8; 17]
    requires { (at ≤ 16) × (v.0 ≤ 5) }
    ensures { result ≡ set list at v.0 }
{
    let mut changed = list;
    changed[at] = v.0 as u8;
    changed
}

// The nodes of the terms from t on: the first choice that passes every test. A choice that fails is left at once.
fn seek_nodes(
    base: &[u8],
    between: &[u8],
    apart: &[bool; 36],
    h: Linked,
    nodes: [u8; 17],
    t: Term,
) -> Option<Heap>
    requires { Sized base.now between.now apart.now h.q × Tested h nodes × Placed h nodes t.0 }
    ensures { found_of result ≡ seek_nodes (query_in base.now between.now) h.q.sorted h.q.m (take (h.q.m + 1) h.links) (h.q.l.terms + 1 - t.0) t.0 (take t.0 nodes) }
{
    let q = h.q;
    if q.l.terms < t.0 {
        let links = h.links;
        return Some(Heap { links, nodes });
    }
    let first = lowest(base, h, &nodes, t);
    let last = highest(base, h, &nodes, t);
    for v in first.0..last.0 + 1 {
        let tried = with_node(nodes, t.0, Node(v));
        if breaks(base, between, apart, h, &tried, t) {
            continue;
        }
        if let Some(heap) = seek_nodes(base, between, apart, h, tried, Term(t.0 + 1)) {
            return Some(heap);
        }
    }
    None
}

// The nodes for a list of links.
fn nodes_found(
    base: &[u8],
    between: &[u8],
    apart: &[bool; 36],
    q: Sought,
    links: [u8; 17],
) -> Option<Heap>
    requires { Sized base.now between.now apart.now q × Small links × Chosen links (q.m + 1) }
    ensures { found_of result ≡ nodes_found (query_in base.now between.now) q.sorted q.m (take (q.m + 1) links) }
{
    let steps = between_tests::step_table(&links);
    let mut nodes = [0u8; 17];
    nodes[0] = q.l.terms as u8;
    let h = Linked { q, links, steps };
    seek_nodes(base, between, apart, h, nodes, Term(1))
}

// The links of the nodes from j on, and the nodes of the terms.
fn seek_links(
    base: &[u8],
    between: &[u8],
    apart: &[bool; 36],
    q: Sought,
    links: [u8; 17],
    j: Node,
) -> Option<Heap>
    requires { Sized base.now between.now apart.now q × Small links × (1 ≤ j.0) × (j.0 ≤ q.m + 1) × Chosen links j.0 }
    ensures { found_of result ≡ seek_links (query_in base.now between.now) q.sorted q.m (q.m + 1 - j.0) j.0 (take j.0 links) }
{
    if q.m < j.0 {
        return nodes_found(base, between, apart, q, links);
    }
    for v in 1..q.m + 1 {
        let chosen = with_node(links, j.0, Node(v));
        if let Some(heap) = seek_links(base, between, apart, q, chosen, Node(j.0 + 1)) {
            return Some(heap);
        }
    }
    None
}

// The first heap of m nodes.
fn links_found(base: &[u8], between: &[u8], apart: &[bool; 36], q: Sought) -> Option<Heap>
    requires { Sized base.now between.now apart.now q }
    ensures { found_of result ≡ links_found (query_in base.now between.now) q.sorted q.m }
{
    let mut links = [0u8; 17];
    links[0] = q.m as u8;
    seek_links(base, between, apart, q, links, Node(1))
}

fn size_found(
    base: &[u8],
    l: Layout,
    between: &[u8],
    count: usize,
    apart: &[bool; 36],
    m: usize,
) -> Option<Heap>
    requires { Given base.now l between.now count apart.now × (m ≤ 5) }
    ensures { found_of result ≡ size_found (query_in base.now between.now) m }
{
    let named = Sought {
        l,
        count,
        m,
        sorted: true,
    };
    links_found(base, between, apart, named)?;
    let any = Sought {
        l,
        count,
        m,
        sorted: false,
    };
    links_found(base, between, apart, any)
}

// "heaps of 1 up to n nodes (1 if n is 0)"
fn most_nodes(n: usize) -> usize
    ensures { result ≡ most_nodes n }
{
    if n == 0 {
        return 1;
    }
    n
}

// The first heap.
pub fn heap_found(
    base: &[u8],
    l: Layout,
    between: &[u8],
    count: usize,
    apart: &[bool; 36],
) -> Option<Heap>
    requires { Given base.now l between.now count apart.now }
    ensures { found_of result ≡ heap_found (query_in base.now between.now) }
{
    for m in 1..most_nodes(l.terms) + 1 {
        if let Some(heap) = size_found(base, l, between, count, apart, m) {
            return Some(heap);
        }
    }
    None
}
