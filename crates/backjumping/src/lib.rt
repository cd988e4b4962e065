// Whether a path has a heap, by search with backjumping: a refuted branch hands back a nogood, and where the path itself holds it, the other
// branches need no look.
#![tactic(auto)]

ghost use Rattle.std.specs.Prelude.{◌≡◌, true, ℕ, ◌≤◌, IfOk};
ghost use Rattle.theory.proofs.Query.Tied.{Accepted};
ghost use Rattle.theory.proofs.Calls.Decision.{Known};
ghost use Rattle.facts.specs.Path.{path_of};
ghost use Rattle.link_query.specs.Said.{said, Within};
ghost use Rattle.backjumping.specs.Finds.{Finds, Sees, Carries, Tells};

use facts::Facts;
use nogoods::Branched;
use picking::Strategy;
use query::Layout;
use walk::Seen;

// What is found out of a path: that it is refuted, with a nogood that it holds; that it is open, with a path that has a heap; or nothing.
#[derive(Drop)]
pub enum Answer {
    Refuted(Facts),
    Open(Facts),
    Unknown,
}

// Nothing is found out of a path: the budget ran out.
#[derive(Clone, Copy)]
pub struct Undecided;

// What a strategy sees at a closed path: its clash, the rule that it picks, or neither.
pub fn sees(query: &[u8], layout: Layout, strategy: Strategy, s: &Facts) -> Seen
    requires { Within layout query.now }
    ensures { Sees (said layout query.now) (path_of s.now) result }
{
    if let Some(clash) = clash::find_clash(query, layout, s) {
        return Seen::Clashing(clash);
    }
    match picking::pick(query, layout, strategy, s) {
        Some(m) => Seen::Applying(m),
        None => Seen::Saturated,
    }
}

// The answer of a path, by a nogood of its closure, if one was found.
fn carried(n: usize, s: &Facts, nogood: Option<Facts>) -> Answer
    requires { n ≤ 16 }
    ensures { Carries (path_of s.now) nogood result }
{
    let Some(found) = nogood else {
        return Answer::Unknown;
    };
    match nogoods::before_closing(n, s, &found) {
        Some(back) => Answer::Refuted(back),
        None => Answer::Unknown,
    }
}

// The search: the path is closed, and then branches where a rule applies. A branch whose nogood the path holds settles it.
fn refute(query: &[u8], layout: Layout, left: usize, s: &Facts, budget: &mut usize) -> Answer
    requires { Within layout query.now × Accepted (said layout query.now) × Known (said layout query.now) (path_of s.now) }
    ensures { Finds (said layout query.now) (path_of s.now) result }
{
    let n = layout.terms;
    let mut closed = *s;
    closing::close(&mut closed, n);
    match sees(query, layout, Strategy::Gains, &closed) {
        Seen::Saturated => Answer::Open(closed),
        Seen::Clashing(clash) => carried(n, s, nogoods::of_clash(query, layout, &closed, clash)),
        Seen::Applying(m) => {
            if left == 0 {
                return Answer::Unknown;
            }
            let mut need = Facts::unjoined(s.single);
            for at in 0..alternatives::count(m) {
                if *budget == 0 {
                    return Answer::Unknown;
                }
                *budget -= 1;
                let mut path = closed;
                branch::take(&mut path, n, m, at);
                let nogood = match refute(query, layout, left - 1, &path, budget) {
                    Answer::Refuted(nogood) => nogood,
                    Answer::Open(end) => return Answer::Open(end),
                    Answer::Unknown => return Answer::Unknown,
                };
                if covering::covers(&closed, &nogood) {
                    return carried(n, s, Some(nogood));
                }
                let names = path.rep;
                let branched = Branched { names, nogood };
                let Some(grown) = nogoods::excluding(n, &need, &closed, &branched, m, at) else {
                    return Answer::Unknown;
                };
                need = grown;
            }
            carried(n, s, nogoods::of_rule(n, &need, &closed, m))
        }
    }
}

// Whether some finite heap meets the query and the facts of a path: where one does, a path with a heap.
pub fn search(
    query: &[u8],
    layout: Layout,
    left: usize,
    s: &Facts,
    budget: usize,
) -> Result<Option<Facts>, Undecided>
    requires { Within layout query.now × Accepted (said layout query.now) × Known (said layout query.now) (path_of s.now) }
    ensures { IfOk result (Tells (said layout query.now) (path_of s.now)) }
{
    if s.rep[0] != 0 {
        return Err(Undecided);
    }
    let mut steps = budget;
    match refute(query, layout, left, s, &mut steps) {
        Answer::Refuted(_) => Ok(None),
        Answer::Open(path) => Ok(Some(path)),
        Answer::Unknown => Err(Undecided),
    }
}
