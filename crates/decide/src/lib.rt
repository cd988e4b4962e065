// Whether some finite heap meets the query and the facts of a path. How it is found out is free: a budget of plain steps, or strategies of
// our own. What each of them says is right whatever it picks, and one that runs out says nothing.
#![tactic(auto)]

ghost use Rattle.std.specs.Prelude.{◌≡◌, true, IfOk};
ghost use Rattle.logic.specs.Query.{term_count, is_order};
ghost use Rattle.logic.specs.Steps.{AtMost};
ghost use Rattle.logic.specs.Decision.{Reachable};
ghost use Rattle.theory.proofs.Query.Tied.{Accepted};
ghost use Rattle.theory.proofs.Calls.Decision.{Known};
ghost use Rattle.facts.specs.Path.{path_of};
ghost use Rattle.link_query.specs.Said.{said, Within};
ghost use Rattle.backjumping.specs.Finds.{Tells};
ghost use Rattle.decide.specs.Numbers.{strategy_of};
ghost use Rattle.decide.specs.Tells.{Ends, Finds};

use backjumping::Undecided;
use facts::Facts;
use kinds::Kind;
use query::Layout;
use walk::Seen;

// How a path is decided: by search with backjumping, or by one that picks.
#[derive(Clone, Copy)]
pub enum Strategy {
    Backjumping,
    Picking(picking::Strategy),
}

impl Strategy {
    // The strategy that a number names, for callers that have a number; every number names one.
    pub fn numbered(k: usize) -> Strategy
        ensures { result ≡ strategy_of k }
    {
        match k {
            0 => Strategy::Picking(picking::Strategy::Gains),
            1 => Strategy::Picking(picking::Strategy::TotalFirst),
            2 => Strategy::Picking(picking::Strategy::Probing),
            4 => Strategy::Backjumping,
            _ => Strategy::Picking(picking::Strategy::ProbingGains),
        }
    }
}

// The strategies in their turn: the one with backjumping, the two that probe, the others.
const STRATEGIES: [Strategy; 5] = [
    Strategy::Backjumping,
    Strategy::Picking(picking::Strategy::Probing),
    Strategy::Picking(picking::Strategy::ProbingGains),
    Strategy::Picking(picking::Strategy::Gains),
    Strategy::Picking(picking::Strategy::TotalFirst),
];

// A strategy: the path is closed, and then branches where the strategy picks. Where the path is open, it is left where it ended.
fn search(
    query: &[u8],
    layout: Layout,
    strategy: picking::Strategy,
    left: usize,
    s: &mut Facts,
    budget: &mut usize,
) -> Kind
    requires { Within layout query.now × Accepted (said layout query.now) × Known (said layout query.now) (path_of s.old) }
    ensures { Ends (said layout query.now) (path_of s.old) result (path_of s.new) }
{
    let n = layout.terms;
    closing::close(s, n);
    *budget = budget.saturating_sub(1);
    match backjumping::sees(query, layout, strategy, s) {
        Seen::Saturated => Kind::Open,
        Seen::Clashing(_) => Kind::Refuted,
        Seen::Applying(m) => {
            if left == 0 {
                return Kind::Unknown;
            }
            for at in 0..alternatives::count(m) {
                if *budget == 0 {
                    return Kind::Unknown;
                }
                let mut path = *s;
                branch::take(&mut path, n, m, at);
                let kind = search(query, layout, strategy, left - 1, &mut path, budget);
                if !kind.is_refuted() {
                    *s = path;
                    return kind;
                }
            }
            Kind::Refuted
        }
    }
}

// What a strategy finds out of a path with a budget: where there is a heap, a path with one.
fn tried(
    query: &[u8],
    layout: Layout,
    strategy: Strategy,
    s: &Facts,
    budget: usize,
) -> Result<Option<Facts>, Undecided>
    requires { Within layout query.now × Accepted (said layout query.now) × Known (said layout query.now) (path_of s.now) }
    ensures { IfOk result (Tells (said layout query.now) (path_of s.now)) }
{
    match strategy {
        Strategy::Backjumping => backjumping::search(query, layout, 55, s, budget),
        Strategy::Picking(picking) => {
            let mut path = *s;
            let mut steps = budget;
            match search(query, layout, picking, 200, &mut path, &mut steps) {
                Kind::Refuted => Ok(None),
                Kind::Open => Ok(Some(path)),
                Kind::Unknown => Err(Undecided),
            }
        }
    }
}

// The strategies in turn, each with a budget; then all again with four times the budget, until one is done. Before them the cheapest has a short
// try, and then the one that was done with a path before this: it is often done with this one too.
fn in_turn(
    query: &[u8],
    layout: Layout,
    s: &Facts,
    last: &mut Strategy,
) -> Result<Option<Facts>, Undecided>
    requires { Within layout query.now × Accepted (said layout query.now) × Known (said layout query.now) (path_of s.now) }
    ensures { IfOk result (Tells (said layout query.now) (path_of s.now)) }
{
    let cheapest = Strategy::Picking(picking::Strategy::Gains);
    if let Ok(found) = tried(query, layout, cheapest, s, 50) {
        return Ok(found);
    }
    if let Ok(found) = tried(query, layout, *last, s, 400) {
        return Ok(found);
    }
    let mut budget: usize = 50;
    for _ in 0..12 {
        for strategy in STRATEGIES {
            if let Ok(found) = tried(query, layout, strategy, s, budget) {
                *last = strategy;
                return Ok(found);
            }
        }
        budget = budget.saturating_mul(4);
    }
    Err(Undecided)
}

// Some finite heap meets the query and the facts of a path that a walk can reach: where one does, a path with a heap, which may answer for other
// paths too. Should every strategy have run out, plain steps without a limit settle it. `last` is the strategy that was done last.
pub fn has_heap(
    query: &[u8],
    layout: Layout,
    order: &[u8],
    left: usize,
    s: &Facts,
    last: &mut Strategy,
) -> Option<Facts>
    requires { Within layout query.now × Accepted (said layout query.now) × (is_order order.now ≡ true) × Reachable (said layout query.now) (path_of s.now) × AtMost (term_count (said layout query.now)) (path_of s.now) left }
    ensures { Finds (said layout query.now) (path_of s.now) result }
{
    if let Ok(found) = in_turn(query, layout, s, last) {
        return found;
    }
    let mut path = *s;
    let kind = plain_steps::plain(query, layout, order, left, &mut path, &mut None);
    if kind.is_refuted() { None } else { Some(*s) }
}
