// A place of a branching rule with an alternative that would soon clash: closed, and with every place taken that has one alternative left.
// That the rule applies there is proved; that the alternative clashes is not, since no verdict rests on it.
#![tactic(auto)]

ghost use Rattle.std.specs.Prelude.{◌≡◌, ℕ, ◌≤◌};
ghost use Rattle.logic.specs.Search.{is_some};
ghost use Rattle.logic.specs.Facts.{clash};
ghost use Rattle.logic.specs.Rules.{branch};
ghost use Rattle.logic.specs.Decision.{Closes};
ghost use Rattle.facts.specs.Path.{path_of, HasLink};
ghost use Rattle.link_query.specs.Said.{said, Within};
ghost use Rattle.rules.specs.Answers.{kind_of, TripleInRange};
ghost use Rattle.alternatives.specs.Alternatives.{alternative_at};
ghost use Rattle.closing.specs.Closed.{Closed};
ghost use Rattle.units.specs.Proposes.{Proposes, ProposesIn};

use facts::Facts;
use link_rows::Link;
use query::Layout;
use rows::Term;
use rules::{Move, Rule, Third};
use units::Graph;

// The alternatives of a place that do not clash at once: none, one by its path, or more.
#[derive(Drop)]
enum Left {
    Nothing,
    One(Facts),
    More,
}

// The path has a clash.
fn clashes(query: &[u8], layout: Layout, s: &Facts) -> bool
    requires { Within layout query.now }
    ensures { result ≡ is_some (clash (said layout query.now) (path_of s.now)) }
{
    clash::find_clash(query, layout, s).is_some()
}

// A branch of a move, closed.
fn taken(s: &Facts, n: usize, m: Move, i: usize) -> Facts
    requires { (n ≤ 16) × HasLink (path_of s.now) m.link.0 × TripleInRange m }
    ensures closes { Closes n (branch n (path_of s.now) (alternative_at m.link.0 n ((path_of s.now).graph m.link.0) (kind_of m.rule) m.x.0 m.y.0 m.z.0 i)).facts (path_of result) }
    ensures all { Closed n (path_of result) }
{
    let mut path = branch::branch(s, n, m, i).facts;
    closing::close(&mut path, n);
    path
}

// The alternatives of a place that do not clash at once.
fn still_left(query: &[u8], layout: Layout, s: &Facts, m: Move) -> Left
    requires { Within layout query.now × HasLink (path_of s.now) m.link.0 × TripleInRange m }
{
    let mut left = Left::Nothing;
    for i in 0..alternatives::count(m) {
        let path = taken(s, layout.terms, m, i);
        if !clashes(query, layout, &path) {
            left = match left {
                Left::Nothing => Left::One(path),
                _ => return Left::More,
            };
        }
    }
    left
}

// A closed path soon clashes.
fn soon_clashes(query: &[u8], layout: Layout, s: Facts) -> bool
    requires { Within layout query.now }
{
    let mut path = s;
    for _turn in 0..30 {
        if clashes(query, layout, &path) {
            return true;
        }
        let Some(m) = units::unit(query, layout, &path) else {
            return false;
        };
        path = match still_left(query, layout, &path, m) {
            Left::Nothing => return true,
            Left::One(next) => next,
            Left::More => return false,
        };
    }
    false
}

// Some alternative of a place soon clashes.
fn some_soon_clashes(query: &[u8], layout: Layout, s: &Facts, m: Move) -> bool
    requires { Within layout query.now × HasLink (path_of s.now) m.link.0 × TripleInRange m }
{
    for i in 0..alternatives::count(m) {
        if soon_clashes(query, layout, taken(s, layout.terms, m, i)) {
            return true;
        }
    }
    false
}

// FUNC: x = z or y reaches z.
fn func(query: &[u8], layout: Layout, s: &Facts, graph: &Graph) -> Option<Move>
    requires { Within layout query.now × HasLink (path_of s.now) graph.now.by.0 }
    ensures { (n : ℕ) → ProposesIn n graph.now result }
{
    for x in 0..17 {
        let Some(y) = units::lowest(graph.link[x]) else {
            continue;
        };
        let far = graph.missed(x, y.0);
        for z in 0..17 {
            let m = graph.at(Rule::Func, Term(x), y, Third(z));
            if rows::has(far, z) && some_soon_clashes(query, layout, s, m) {
                return Some(m);
            }
        }
    }
    None
}

// SCC at x with its first way out: x = y or z reaches x.
fn scc(query: &[u8], layout: Layout, s: &Facts, graph: &Graph) -> Option<Move>
    requires { Within layout query.now × HasLink (path_of s.now) graph.now.by.0 }
    ensures { (n : ℕ) → ProposesIn n graph.now result }
{
    for x in 0..17 {
        let both = graph.both_ways(x);
        let Some(out) = units::lowest(graph.ahead(x)) else {
            continue;
        };
        for y in 0..17 {
            let m = graph.at(Rule::Scc, Term(x), Term(y), Third(out.0));
            if rows::has(both, y) && some_soon_clashes(query, layout, s, m) {
                return Some(m);
            }
        }
    }
    None
}

// TOTAL of y with each later z, which some x reaches both.
fn total_at(query: &[u8], layout: Layout, s: &Facts, graph: &Graph, y: usize) -> Option<Move>
    requires { Within layout query.now × HasLink (path_of s.now) graph.now.by.0 × (y ≤ 16) }
    ensures { (n : ℕ) → ProposesIn n graph.now result }
{
    let from = graph.back[y];
    let near = graph.reach[y] | from;
    for z in y + 1..17 {
        if rows::has(near, z) {
            continue;
        }
        let Some(x) = units::lowest(from & graph.back[z]) else {
            continue;
        };
        let m = graph.at(Rule::Total, x, Term(y), Third(z));
        if some_soon_clashes(query, layout, s, m) {
            return Some(m);
        }
    }
    None
}

// A place by link k with an alternative that soon clashes.
fn failing_by(query: &[u8], layout: Layout, s: &Facts, k: Link) -> Option<Move>
    requires { Within layout query.now × HasLink (path_of s.now) k.0 }
    ensures { Proposes layout.terms (path_of s.now) result }
{
    let graph = Graph::of(s, k);
    if let Some(m) = func(query, layout, s, &graph) {
        return Some(m);
    }
    if let Some(m) = scc(query, layout, s, &graph) {
        return Some(m);
    }
    for y in 0..17 {
        if let Some(m) = total_at(query, layout, s, &graph, y) {
            return Some(m);
        }
    }
    None
}

// A place at a closed path with an alternative that soon clashes, by the first link that has one.
pub fn failing(query: &[u8], layout: Layout, s: &Facts) -> Option<Move>
    requires { Within layout query.now }
    ensures { Proposes layout.terms (path_of s.now) result }
{
    for k in 1..s.links() + 1 {
        if let Some(m) = failing_by(query, layout, s, Link(k)) {
            return Some(m);
        }
    }
    None
}
