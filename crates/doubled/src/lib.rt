// Doubled successors: the two that are to be joined next.
#![tactic(auto)]

ghost use Rattle.std.specs.Prelude.{◌≡◌, ◌≤◌, ◌<◌};
ghost use Rattle.logic.specs.Facts.{doubled, first_two, successors};
ghost use Rattle.facts.specs.Path.{links_by, path_of};
ghost use Rattle.doubled.specs.Answers.{two_of};
ghost use Rattle.doubled.specs.Doubled.{two_in};

use facts::Facts;
use link_rows::Link;
use rows::Term;

// The two lowest successors of t by link k, where it has two.
fn first_two(link: &[u32; 51], n: usize, k: Link, t: Term) -> Option<(Term, Term)>
    requires { (n ≤ 16) × (0 < k.0) × (k.0 ≤ 3) × (t.0 ≤ 16) }
    ensures { two_of result ≡ first_two (successors n (links_by link.now k.0) t.0) }
{
    let row = link_rows::successor_row(link, n, k, t);
    let a = rows::first(row)?;
    let b = rows::first(row & (row - 1))?;
    Some((a, b))
}

// The two lowest successors of t by the lowest link that has two.
fn first_two_of(s: &Facts, n: usize, t: Term) -> Option<(Term, Term)>
    requires { (n ≤ 16) × (t.0 ≤ 16) }
    ensures { two_of result ≡ two_in n s.now.single s.now.link t.0 }
{
    for k in 1..=s.links() {
        if let Some(two) = first_two(&s.link, n, Link(k), t) {
            return Some(two);
        }
    }
    None
}

// "the two lowest successors of the lowest such term", "by lowest term, then link" (02, R-11). The path is lent, so that a join copies
// none for it.
pub fn lowest(s: &Facts, n: usize) -> Option<(Term, Term)>
    requires { n ≤ 16 }
    ensures { two_of result ≡ doubled n (path_of s.now) }
{
    for t in 1..=n {
        if let Some(two) = first_two_of(s, n, Term(t)) {
            return Some(two);
        }
    }
    None
}
