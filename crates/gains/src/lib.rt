// The place of a branching rule whose alternatives would add most facts, as far as counting tells. That the rule applies there is proved; that
// no other place would add more is not, since no verdict rests on it.
#![tactic(auto)]

ghost use Rattle.std.specs.Prelude.{◌≡◌, ℕ, ◌≤◌, length};
ghost use Rattle.logic.specs.Search.{from, select};
ghost use Rattle.rows.specs.Bits.{bit};
ghost use Rattle.facts.specs.Path.{path_of};
ghost use Rattle.units.specs.Proposes.{Proposes};
ghost use Rattle.gains.specs.Keeps.{better, Keeps};

use facts::Facts;
use link_rows::Link;
use rows::Term;
use rules::{Move, Rule, Third};
use units::Graph;

// A place and its score.
#[derive(Clone, Copy)]
struct Best {
    pub score: usize,
    pub place: Move,
}

// How many numbers up to 16 a row has.
fn ones(row: u32) -> usize
    ensures { result ≡ length (select (bit row) (from 17 0)) }
{
    u32::count_ones(row & rows::up_to(16)) as usize
}

// A product, as long as it is no more than ten digits long.
fn product(a: usize, b: usize) -> usize
    ensures { result ≤ 10000000000 }
{
    if 100000 < a || 100000 < b {
        return 10000000000;
    }
    a * b
}

// The facts that "a reaches b" can add, and one.
fn added(graph: &Graph, a: usize, b: usize) -> usize
    requires { (a ≤ 16) × (b ≤ 16) }
    ensures { result ≤ 10000000001 }
{
    product(ones(graph.back[a]), ones(graph.reach[b])) + 1
}

// The facts that a = b can add, and one.
fn joined(graph: &Graph, a: usize, b: usize) -> usize
    requires { (a ≤ 16) × (b ≤ 16) }
    ensures { result ≤ 20000000001 }
{
    2 * product(
        ones(graph.back[a] | graph.back[b]),
        ones(graph.reach[a] | graph.reach[b]),
    ) + 1
}

// A place is offered: it is the best from now on if none was, or one of a lower score.
fn offer(best: &mut Option<Best>, score: usize, place: Move)
    ensures { best.new ≡ better best.old score place }
{
    if let Some(b) = *best {
        if score <= b.score {
            return;
        }
    }
    *best = Some(Best { score, place });
}

// FUNC: x = z or y reaches z.
fn func(graph: &Graph, best: &mut Option<Best>)
    ensures { (n : ℕ) → Keeps n graph.now best.old best.new }
{
    for x in 0..17 {
        let Some(y) = units::lowest(graph.link[x]) else {
            continue;
        };
        let far = graph.missed(x, y.0);
        for z in 0..17 {
            if rows::has(far, z) {
                let score = product(joined(graph, x, z), added(graph, y.0, z));
                offer(best, score, graph.at(Rule::Func, Term(x), y, Third(z)));
            }
        }
    }
}

// CYCLE: y is one of the round of x. It has as many alternatives as the round has terms, and its score is low.
fn cycle(graph: &Graph, n: usize, best: &mut Option<Best>)
    requires { n ≤ 16 }
    ensures { Keeps n graph.now best.old best.new }
{
    for x in 0..17 {
        let Some(round) = graph.around(n, x) else {
            continue;
        };
        if let Some(y) = units::lowest(round.off) {
            offer(
                best,
                50,
                graph.at(Rule::Cycle, Term(x), y, Third(round.steps)),
            );
        }
    }
}

// SCC: x = y or z reaches x.
fn scc(graph: &Graph, best: &mut Option<Best>)
    ensures { (n : ℕ) → Keeps n graph.now best.old best.new }
{
    for x in 0..17 {
        let both = graph.both_ways(x);
        let Some(out) = units::lowest(graph.ahead(x)) else {
            continue;
        };
        for y in 0..17 {
            if rows::has(both, y) {
                let score = product(joined(graph, x, y), added(graph, out.0, x));
                offer(
                    best,
                    score,
                    graph.at(Rule::Scc, Term(x), Term(y), Third(out.0)),
                );
            }
        }
    }
}

// TOTAL of y with z, which some x reaches both: y reaches z or z reaches y.
fn total_at(graph: &Graph, y: usize, best: &mut Option<Best>)
    requires { y ≤ 16 }
    ensures { (n : ℕ) → Keeps n graph.now best.old best.new }
{
    let from = graph.back[y];
    let near = graph.reach[y] | from;
    for z in 0..17 {
        if rows::has(near, z) {
            continue;
        }
        if let Some(x) = units::lowest(from & graph.back[z]) {
            let score = product(added(graph, y, z), added(graph, z, y));
            offer(best, score, graph.at(Rule::Total, x, Term(y), Third(z)));
        }
    }
}

// The best place so far, or a better one by this link.
fn most_by(graph: &Graph, n: usize, best: &mut Option<Best>)
    requires { n ≤ 16 }
    ensures { Keeps n graph.now best.old best.new }
{
    func(graph, best);
    cycle(graph, n, best);
    scc(graph, best);
    for y in 0..17 {
        total_at(graph, y, best);
    }
}

// The place at a closed path whose alternatives would add most, by any link.
pub fn most(s: &Facts, n: usize) -> Option<Move>
    requires { n ≤ 16 }
    ensures { Proposes n (path_of s.now) result }
{
    let mut best = None;
    for k in 1..s.links() + 1 {
        most_by(&Graph::of(s, Link(k)), n, &mut best);
    }
    best.map(|b| b.place)
}
