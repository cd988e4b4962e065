// Derivations from elsewhere, of queries in the form of 01 or with three links (02, R-11): their lines are read in place, one after the other,
// each where it stands.
#![tactic(auto)]

ghost use Rattle.std.specs.Prelude.{◌≡◌, true, ◌≤◌, length};
ghost use Rattle.logic.specs.ThreeLinks.{three_link_form};
ghost use Rattle.theory.proofs.Query.Tied.{Accepted};
ghost use Rattle.facts.specs.Path.{path_of};
ghost use Rattle.joins.specs.Pairs.{pairs_of, joined_of, Fits};
ghost use Rattle.link_query.specs.Said.{said, Within};
ghost use Rattle.call_limits.specs.Forms.{form_of};
ghost use Rattle.logic.specs.Derivation.{lines_in};
ghost use Rattle.checking.specs.Fitting.{goal_of, wrong_line};
ghost use Rattle.checking.specs.CheckCall.{by_wrong, check_call, check_call_of};
ghost use Rattle.derivation_lines.specs.Lines.{line_at, shapely, Shaped};
ghost use Rattle.derivation_lines.specs.Judging.{JudgesHead, JudgesGoal};
ghost use Rattle.checker.specs.Reading.{read_at, reading_of};
ghost use Rattle.checker.specs.Ahead.{Ahead};
ghost use Rattle.checker.specs.Promise.{judged_as, meaning};

use clash::Clash;
use facts::Facts;
use joins::{Joined, Pairs};
use query::Layout;
use refusals::{Fault, Refusal};
use rows::Term;
use rules::{Move, Third};

// What a line is at a path: its end, a move that applies there, or wrong.
#[derive(Clone, Copy)]
pub enum Reading {
    Ends,
    Applies(Move),
    Wrong,
}

// The lines of the joins at the head of a branch: how many lines are read behind them, or the number of the first wrong one.
fn check_head(derivation: &[u8], count: usize, pairs: &Pairs, first: usize) -> Result<usize, usize>
    requires { Shaped derivation.now count × (length (pairs_of pairs.now) ≤ 17) × (first ≤ count) }
    ensures { JudgesHead derivation.now count (pairs_of pairs.now) first result }
{
    let mut at = first;
    for i in 0..pairs.count {
        let (kept, replaced) = pairs.entries[i];
        if !derivation_lines::is_join(derivation, count, at, kept, replaced) {
            return Err(at + 1);
        }
        at += 1;
    }
    Ok(at)
}

// What line `at` is at a path: "each path ends in a true clash .. as soon as a clash stands", and each rule line applies. Its frame is its own, and is gone
// when `check_goal` goes a step deeper.
#[inline(never)]
fn read_line(
    query: &[u8],
    layout: Layout,
    derivation: &[u8],
    count: usize,
    at: usize,
    s: &Facts,
) -> Reading
    requires { Within layout query.now × Shaped derivation.now count }
    ensures { reading_of result ≡ read_at (said layout query.now) (path_of s.now) (line_at derivation.now at) }
{
    if count <= at {
        return Reading::Wrong;
    }
    let place = 4 * at + 2;
    let number = derivation[place];
    let a = entries::byte_at(derivation, place + 1);
    let b = entries::byte_at(derivation, place + 2);
    let c = entries::byte_at(derivation, place + 3);
    if number == 9 {
        let told = Clash {
            section: a,
            place: b,
            partner: c,
        };
        if fitting::is_clash(query, layout, s, told) {
            return Reading::Ends;
        }
        return Reading::Wrong;
    }
    if let Some(_) = clash::find_clash(query, layout, s) {
        return Reading::Wrong;
    }
    let Some(m) = fitting::named(s, number, Term(a), Term(b), Third(c)) else {
        return Reading::Wrong;
    };
    if fitting::applies(s, layout.terms, m) {
        return Reading::Applies(m);
    }
    Reading::Wrong
}

// A branch: the lines of its joins, then its own, and then those of its branches in order, each checked by the same routine, one step
// deeper. `left` of the rule steps that a path can have are left, so that the routine is at most 272 deep, with three links 784. The
// answer is how many lines are read by then, or the number of the first wrong one.
pub fn check_goal(
    query: &[u8],
    layout: Layout,
    derivation: &[u8],
    count: usize,
    left: usize,
    goal: &Joined,
    first: usize,
) -> Result<usize, usize>
    requires { Within layout query.now × Accepted (said layout query.now) × Shaped derivation.now count × Ahead (said layout query.now) (path_of goal.now.facts) left × Fits (joined_of goal.now) × (first ≤ count) }
    ensures { JudgesGoal (said layout query.now) derivation.now count (goal_of (joined_of goal.now)) first result }
{
    let at = check_head(derivation, count, &goal.pairs, first)?;
    match read_line(query, layout, derivation, count, at, &goal.facts) {
        Reading::Wrong => Err(at + 1),
        Reading::Ends => Ok(at + 1),
        Reading::Applies(m) => {
            let mut to = at + 1;
            for i in 0..alternatives::count(m) {
                let mut made = *goal;
                branch::make(&mut made, layout.terms, m, i);
                to = check_goal(query, layout, derivation, count, left - 1, &made, to)?;
            }
            Ok(to)
        }
    }
}

// The first wrong line's number, of the lines of a query that passes its checks, from its start.
fn judge(query: &[u8], layout: Layout, derivation: &[u8]) -> Option<usize>
    requires { Within layout query.now × Accepted (said layout query.now) × (shapely derivation.now ≡ true) }
    ensures { judged_as result ≡ by_wrong (wrong_line (said layout query.now) (lines_in derivation.now)) }
{
    let count = derivation_lines::count_of(derivation);
    let goal = start::start(query, layout);
    let steps = call_limits::limit(layout.links, layout.terms);
    let judged = check_goal(query, layout, derivation, count, steps, &goal, 0);
    derivation_lines::first_wrong(count, judged)
}

// The checking call of either form: the first wrong line's number, none where all are right, or a refusal.
pub fn check_in(three: bool, query: &[u8], derivation: &[u8]) -> Result<Option<usize>, Refusal>
    ensures { meaning result ≡ check_call_of (form_of three) query.now derivation.now }
{
    let layout = form_checks::checked(three, query)?;
    if !derivation_lines::is_shaped(derivation) {
        return Err(Fault::DerivationLength.at(0));
    }
    Ok(judge(query, layout, derivation))
}

// The checking call: "accept exactly the full trees", else the first wrong line's number, or one of the refusals 2 to 8, 26 and 20.
pub fn check(query: &[u8], derivation: &[u8]) -> Result<Option<usize>, Refusal>
    ensures { meaning result ≡ check_call query.now derivation.now }
{
    check_in(false, query, derivation)
}

// The same of queries with three links, with refusal 22 besides.
pub fn links_check(query: &[u8], derivation: &[u8]) -> Result<Option<usize>, Refusal>
    ensures { meaning result ≡ check_call_of three_link_form query.now derivation.now }
{
    check_in(true, query, derivation)
}
