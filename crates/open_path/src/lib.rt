// The first open path under the customer's order, without turning back: at each rule its branches are decided from left to right, and
// the walk goes into the first that is not refuted.
#![tactic(auto)]

ghost use Rattle.std.specs.Prelude.{◌≡◌, true, false};
ghost use Rattle.logic.specs.Query.{term_count, is_order};
ghost use Rattle.logic.specs.Walk.{look, applying, order_of, walk, saturation};
ghost use Rattle.logic.specs.Steps.{AtMost};
ghost use Rattle.logic.specs.Decision.{Reachable, HasHeap};
ghost use Rattle.facts.specs.Path.{path_of};
ghost use Rattle.rules.specs.Answers.{move_as};
ghost use Rattle.theory.proofs.Query.Tied.{Accepted};
ghost use Rattle.link_query.specs.Said.{said, Within};
ghost use Rattle.plain_steps.specs.Walks.{WalksTo};
ghost use Rattle.open_path.specs.First.{FirstOpen};

use decide::Strategy;
use facts::Facts;
use kinds::Kind;
use query::Layout;
use rules::Move;
use walk::Seen;

// A path with a heap, one whose heap is at hand, and the strategy that was done last.
#[derive(Drop)]
pub struct Descent {
    pub path: Facts,
    pub witness: Facts,
    pub last: Strategy,
}

// On to the first branch of a rule that has a heap. A branch whose facts the witness holds needs no decision, nor does the last.
fn enter(query: &[u8], layout: Layout, order: &[u8], left: usize, m: Move, descent: &mut Descent)
    requires { Within layout query.now × Accepted (said layout query.now) × (is_order order.now ≡ true) × Reachable (said layout query.now) (path_of descent.old.path) × AtMost (term_count (said layout query.now)) (path_of descent.old.path) left × HasHeap (said layout query.now) (path_of descent.old.path) × HasHeap (said layout query.now) (path_of descent.old.witness) × (look (said layout query.now) (order_of order.now) (path_of descent.old.path) ≡ applying (move_as m)) }
    ensures { FirstOpen (said layout query.now) (path_of descent.old.path) (move_as m) (path_of descent.new.path) × HasHeap (said layout query.now) (path_of descent.new.witness) }
{
    let n = layout.terms;
    let end = alternatives::count(m) - 1;
    for i in 0..end {
        let path = branch::branch(&descent.path, n, m, i).facts;
        if covering::covers(&descent.witness, &path) {
            descent.path = path;
            return;
        }
        let found = decide::has_heap(query, layout, order, left - 1, &path, &mut descent.last);
        if let Some(witness) = found {
            descent.path = path;
            descent.witness = witness;
            return;
        }
    }
    descent.path = branch::branch(&descent.path, n, m, end).facts;
}

// On to where our walk of the path ends. That a walk can reach it tells how many links it has.
pub fn descend(query: &[u8], layout: Layout, order: &[u8], left: usize, descent: &mut Descent)
    requires { Within layout query.now × Accepted (said layout query.now) × (is_order order.now ≡ true) × Reachable (said layout query.now) (path_of descent.old.path) × AtMost (term_count (said layout query.now)) (path_of descent.old.path) left × HasHeap (said layout query.now) (path_of descent.old.path) × HasHeap (said layout query.now) (path_of descent.old.witness) }
    ensures value { walk (said layout query.now) (order_of order.now) left (path_of descent.old.path) ≡ saturation (path_of descent.new.path) }
    ensures reachable { Reachable (said layout query.now) (path_of descent.new.path) }
{
    let mut steps = left;
    loop {
        match walk::look(query, layout, order, &descent.path) {
            Seen::Saturated => return,
            Seen::Clashing(_) => return,
            Seen::Applying(m) => {
                enter(query, layout, order, steps, m, descent);
                steps -= 1;
            }
        }
    }
}

// How our walk of a path ends: a few plain steps first, which is all that most queries need; where these run out, the path is decided, and
// where it has a heap the walk goes down to its end. Where the path is open, it is left where the walk ends.
pub fn settle(query: &[u8], layout: Layout, order: &[u8], left: usize, s: &mut Facts) -> Kind
    requires { Within layout query.now × Accepted (said layout query.now) × (is_order order.now ≡ true) × Reachable (said layout query.now) (path_of s.old) × AtMost (term_count (said layout query.now)) (path_of s.old) left }
    ensures { WalksTo (said layout query.now) order.now left (path_of s.old) false result (path_of s.new) }
{
    // Plain steps that run out leave another path; it is this one that is decided.
    let path = *s;
    let kind = plain_steps::plain(query, layout, order, left, s, &mut Some(40));
    if !kind.is_unknown() {
        return kind;
    }
    let mut last = Strategy::Picking(picking::Strategy::Gains);
    let found = decide::has_heap(query, layout, order, left, &path, &mut last);
    let Some(witness) = found else {
        return Kind::Refuted;
    };
    let mut descent = Descent {
        path,
        witness,
        last,
    };
    descend(query, layout, order, left, &mut descent);
    *s = descent.path;
    Kind::Open
}
