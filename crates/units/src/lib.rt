// Places of the branching rules where at most one alternative is left, once those that would clash at once are struck. That the rule applies
// at a place is proved; that so few alternatives are left is not, since no verdict rests on it. The rows that such searches read are here too.
#![tactic(auto)]

ghost use Rattle.std.specs.Prelude.{◌≡◌, not, List, ℕ, ◌+◌, ◌*◌, ◌≤◌, eqb, ltb, length, get_or, take, drop};
ghost use Rattle.logic.specs.Search.{◌and◌, ◌or◌, from, find};
ghost use Rattle.logic.specs.Query.{literals};
ghost use Rattle.rows.specs.Bits.{bit};
ghost use Rattle.rows.specs.Square.{square};
ghost use Rattle.rows.specs.Options.{found_of};
ghost use Rattle.facts.specs.Path.{rep_of, path_of, HasLink};
ghost use Rattle.link_query.specs.Said.{said, Within};
ghost use Rattle.units.specs.Marks.{Marked, holds_apart, denies, gives, SaidOf, Spread, meet, oppose, barred};
ghost use Rattle.units.specs.Proposes.{Proposes, ProposesIn, FoundIn};

use facts::Facts;
use link_rows::Link;
use query::Layout;
use rows::Term;
use rules::{Move, Rule, Third};

mod graph;

pub use graph::{Graph, Round};

// The terms that each term cannot come to reach, the same turned round, and those that it cannot equal.
#[derive(Drop)]
struct Barred {
    pub ahead: [u32; 17],
    pub behind: [u32; 17],
    pub equal: [u32; 17],
}

// The smallest number of a row, of those up to 16.
pub fn lowest(row: u32) -> Option<Term>
    ensures { found_of result ≡ find (bit row) (from 17 0) }
{
    rows::first(row & rows::up_to(16))
}

// The row of b alone; a number above 16 is in none.
fn alone(b: usize) -> u32
    ensures { (i : ℕ) → bit result i ≡ (ltb b 17 and eqb i b) }
{
    if b < 17 {
        return rows::only(b);
    }
    0
}

// More in row a, in place: rows that are copied for each mark cost more than all else here.
fn mark(rows: &mut [u32; 17], a: usize, more: u32)
    requires { length rows.old ≡ 17 }
    ensures { Marked rows.new rows.old a more × (length rows.new ≡ 17) }
{
    if a < 17 {
        rows[a] |= more;
    }
}

// What the negated equalities hold apart, both ways, of the terms that stand for theirs.
fn unequal(query: &[u8], at: usize, count: usize, s: &Facts) -> [u32; 17]
    requires { at + 3 * count ≤ length query.now }
    ensures { SaidOf (holds_apart (rep_of s.now.rep)) (literals (take (3 * count) (drop at query.now))) result }
{
    let mut out = [0u32; 17];
    for i in 0..count {
        if !query::sign(query, at, i) {
            let a = s.representative(query::left(query, at, i));
            let b = s.representative(query::right(query, at, i));
            mark(&mut out, a.0, alone(b.0));
            mark(&mut out, b.0, alone(a.0));
        }
    }
    out
}

// What the negated reachability literals of link k deny, of the terms that stand for theirs.
fn denied(query: &[u8], layout: Layout, s: &Facts, k: Link) -> [u32; 17]
    requires { Within layout query.now }
    ensures { SaidOf (denies (rep_of s.now.rep) k.0) (said layout query.now).reachability result }
{
    let links = layout.links;
    let at = layout.reach_at;
    let mut out = [0u32; 17];
    for i in 0..layout.reach_count {
        if !link_query::reach_sign(query, links, at, i) {
            if link_query::reach_link(query, links, at, i) == k.0 {
                let a = s.representative(link_query::reach_left(query, links, at, i));
                let b = s.representative(link_query::reach_right(query, links, at, i));
                mark(&mut out, a.0, alone(b.0));
            }
        }
    }
    out
}

// The fields that the data literals of one sign give each term.
fn fields(query: &[u8], at: usize, count: usize, s: &Facts, plain: bool) -> [u32; 17]
    requires { at + 3 * count ≤ length query.now }
    ensures { SaidOf (gives (rep_of s.now.rep) plain) (literals (take (3 * count) (drop at query.now))) result }
{
    let mut out = [0u32; 17];
    for i in 0..count {
        if query::sign(query, at, i) == plain {
            let a = s.representative(query::right(query, at, i));
            mark(&mut out, a.0, alone(query::field(query, at, i)));
        }
    }
    out
}

// The terms that have one of these fields.
fn having(some: u32, rows: &[u32; 17]) -> u32
    ensures { (b : ℕ) → bit result b ≡ (ltb b 17 and meet (get_or rows.now b 0) some) }
{
    let mut out: u32 = 0;
    for (b, row) in rows.iter().enumerate() {
        if *row & some != 0 {
            out |= rows::only(b);
        }
    }
    out
}

// The rows, each with the terms that have what the other rows give its own term.
fn opposed(rows: [u32; 17], some: &[u32; 17], other: &[u32; 17]) -> [u32; 17]
    ensures { (a b : ℕ) → square result a b ≡ (square rows a b or oppose some.now other.now a b) }
{
    let mut out = rows;
    for (a, own) in some.iter().enumerate() {
        if *own != 0 {
            mark(&mut out, a, having(*own, other));
        }
    }
    out
}

// More in each row of some, in place.
fn spread(rows: &mut [u32; 17], some: u32, more: u32)
    requires { length rows.old ≡ 17 }
    ensures { Spread rows.new rows.old some more × (length rows.new ≡ 17) }
{
    for a in 0..17 {
        if rows::has(some, a) {
            rows[a] |= more;
        }
    }
}

// One row each of three, together.
fn merged(a: &[u32; 17], b: &[u32; 17], c: &[u32; 17]) -> [u32; 17]
    ensures { (x y : ℕ) → square result x y ≡ (square a.now x y or square b.now x y or square c.now x y) }
{
    let mut out = [0u32; 17];
    for x in 0..17 {
        mark(&mut out, x, a[x] | b[x] | c[x]);
    }
    out
}

// What no term can come to reach: where x is denied to reach d, no term that x reaches can reach one that reaches d. Terms that cannot come to
// reach one another cannot be equal, beside those that are held apart.
fn bars(reach: &[u32; 17], denied: &[u32; 17], apart: &[u32; 17]) -> Barred
    ensures reached { (x y : ℕ) → x ≤ 16 → y ≤ 16 → (square result.ahead x y ≡ barred reach.now denied.now x y) × (square result.behind y x ≡ barred reach.now denied.now x y) }
    ensures merged { (x y : ℕ) → square result.equal x y ≡ (square apart.now x y or square result.ahead x y or square result.behind x y) }
{
    let mut ahead = [0u32; 17];
    let mut behind = [0u32; 17];
    for (x, no) in denied.iter().enumerate() {
        if *no != 0 {
            let far = reach[x];
            let off = having(*no, reach);
            spread(&mut ahead, far, off);
            spread(&mut behind, off, far);
        }
    }
    let equal = merged(apart, &ahead, &behind);
    Barred {
        ahead,
        behind,
        equal,
    }
}

// SHARE, wherever it applies: it has one alternative.
fn share(graph: &Graph) -> Option<Move>
    ensures { (n : ℕ) → ProposesIn n graph.now result }
{
    for x in 0..17 {
        let near = graph.link[x];
        if near == 0 {
            continue;
        }
        let both = graph.both_ways(x);
        for y in 0..17 {
            if !rows::has(both, y) {
                continue;
            }
            if let Some(z) = lowest(near & graph.link[y]) {
                return Some(graph.at(Rule::Share, Term(x), Term(y), Third(z.0)));
            }
        }
    }
    None
}

// FUNC: x = z or y reaches z.
fn func(graph: &Graph, no: &Barred) -> Option<Move>
    ensures { (n : ℕ) → ProposesIn n graph.now result }
{
    for x in 0..17 {
        let Some(y) = lowest(graph.link[x]) else {
            continue;
        };
        let struck = no.equal[x] | no.ahead[y.0];
        if let Some(z) = lowest(graph.missed(x, y.0) & struck) {
            return Some(graph.at(Rule::Func, Term(x), y, Third(z.0)));
        }
    }
    None
}

// CYCLE of a term with y, a term off its round: y is one of the round.
fn cycle_at(round: Round, no: &Barred) -> Option<Term>
    ensures { FoundIn round.off result }
{
    for y in 0..17 {
        if rows::has(round.off, y) {
            let left = rows::without(round.on, no.equal[y]);
            if left == 0 || left & (left - 1) == 0 {
                return Some(Term(y));
            }
        }
    }
    None
}

fn cycle(graph: &Graph, no: &Barred, n: usize) -> Option<Move>
    requires { n ≤ 16 }
    ensures { ProposesIn n graph.now result }
{
    for x in 0..17 {
        if graph.link[x] == 0 {
            continue;
        }
        let Some(round) = graph.around(n, x) else {
            continue;
        };
        let steps = round.steps;
        if let Some(y) = cycle_at(round, no) {
            return Some(graph.at(Rule::Cycle, Term(x), y, Third(steps)));
        }
    }
    None
}

// SCC: x = y or z reaches x.
fn scc(graph: &Graph, no: &Barred) -> Option<Move>
    ensures { (n : ℕ) → ProposesIn n graph.now result }
{
    for x in 0..17 {
        let out = graph.ahead(x);
        let both = graph.both_ways(x);
        let Some(first) = lowest(both) else {
            continue;
        };
        let Some(way) = lowest(out) else {
            continue;
        };
        if let Some(y) = lowest(both & no.equal[x]) {
            return Some(graph.at(Rule::Scc, Term(x), y, Third(way.0)));
        }
        if let Some(z) = lowest(out & no.behind[x]) {
            return Some(graph.at(Rule::Scc, Term(x), first, Third(z.0)));
        }
    }
    None
}

// The terms that TOTAL would order with each term, where one way is struck. What does not depend on x is found once.
fn struck(graph: &Graph, no: &Barred) -> [u32; 17]
    ensures { (y z : ℕ) → square result y z ≡ ((square no.now.ahead y z or square no.now.behind y z) and not (square graph.now.reach y z or square graph.now.back y z)) }
{
    let mut out = [0u32; 17];
    for y in 0..17 {
        out[y] = rows::without(no.ahead[y] | no.behind[y], graph.reach[y] | graph.back[y]);
    }
    out
}

// TOTAL of x with y, one of the terms of `some`: y reaches z or z reaches y.
fn total_at(graph: &Graph, struck: &[u32; 17], some: u32, x: usize) -> Option<Move>
    requires { x ≤ 16 }
    ensures { (n : ℕ) → ProposesIn n graph.now result }
{
    let near = graph.reach[x] & some;
    for y in 0..17 {
        if !rows::has(near, y) {
            continue;
        }
        if let Some(z) = lowest(graph.unordered(x, y) & struck[y]) {
            return Some(graph.at(Rule::Total, Term(x), Term(y), Third(z.0)));
        }
    }
    None
}

fn total(graph: &Graph, no: &Barred) -> Option<Move>
    ensures { (n : ℕ) → ProposesIn n graph.now result }
{
    let open = struck(graph, no);
    let some = having(rows::up_to(16), &open);
    if some == 0 {
        return None;
    }
    for x in 0..17 {
        if let Some(found) = total_at(graph, &open, some, x) {
            return Some(found);
        }
    }
    None
}

// The first place found, of SHARE and then of the rules that branch.
fn place(graph: &Graph, no: &Barred, n: usize) -> Option<Move>
    requires { n ≤ 16 }
    ensures { ProposesIn n graph.now result }
{
    if let Some(found) = share(graph) {
        return Some(found);
    }
    if let Some(found) = func(graph, no) {
        return Some(found);
    }
    if let Some(found) = cycle(graph, no, n) {
        return Some(found);
    }
    if let Some(found) = scc(graph, no) {
        return Some(found);
    }
    total(graph, no)
}

// The terms held apart from each term by the equalities and the data literals.
fn apart(query: &[u8], layout: Layout, s: &Facts) -> [u32; 17]
    requires { Within layout query.now }
{
    let differ = unequal(query, layout.equal_at, layout.equal_count, s);
    if layout.field_count == 0 {
        return differ;
    }
    let have = fields(query, layout.field_at, layout.field_count, s, true);
    let lack = fields(query, layout.field_at, layout.field_count, s, false);
    let one = opposed(differ, &have, &lack);
    opposed(one, &lack, &have)
}

// A place by one link where at most one alternative does not clash at once. `differ` has the terms held apart.
fn unit_by(query: &[u8], layout: Layout, s: &Facts, differ: &[u32; 17], k: Link) -> Option<Move>
    requires { Within layout query.now × HasLink (path_of s.now) k.0 }
    ensures { Proposes layout.terms (path_of s.now) result }
{
    let graph = Graph::of(s, k);
    let denied = denied(query, layout, s, k);
    place(&graph, &bars(&graph.reach, &denied, differ), layout.terms)
}

// A place at a closed path where at most one alternative does not clash at once, by the first link that has one.
pub fn unit(query: &[u8], layout: Layout, s: &Facts) -> Option<Move>
    requires { Within layout query.now }
    ensures { Proposes layout.terms (path_of s.now) result }
{
    let differ = apart(query, layout, s);
    for k in 1..s.links() + 1 {
        if let Some(found) = unit_by(query, layout, s, &differ, Link(k)) {
            return Some(found);
        }
    }
    None
}
