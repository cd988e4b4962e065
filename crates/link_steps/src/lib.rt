// Steps along the links: the successor of a term, and the steps round a cycle.
#![tactic(auto)]

ghost use Rattle.std.specs.Prelude.{◌≡◌, ltb, ℕ, ◌≤◌};
ghost use Rattle.facts.specs.Path.{links_in};
ghost use Rattle.rows.specs.Bits.{bit};
ghost use Rattle.link_steps.specs.Cycle.{steps_to};
ghost use Rattle.logic.specs.Heap.{iterate};
ghost use Rattle.logic.specs.Rules.{next};

use rows::Term;

// Where the links led, after how many steps, and the row of the terms from which a step was made.
#[derive(Drop)]
pub struct Followed {
    pub term: Term,
    pub steps: usize,
    pub passed: u32,
}

// The successor of c, or 0 where it has none: 0 is no term, and the logic's `next` counts on from it, so an Option would be turned back
// at each step.
pub fn next(link: &[u32; 17], n: usize, c: Term) -> Term
    requires { (n ≤ 16) × (c.0 ≤ 16) }
    ensures { result.0 ≡ next n (links_in link.now) c.0 }
{
    rows::successor(link, n, c).unwrap_or(Term(0))
}

// The steps round a cycle: the links from c are followed until they lead to `until`, or `left` of them are made.
pub fn follow(link: &[u32; 17], n: usize, c: Term, until: Term, left: usize) -> Followed
    requires { (n ≤ 16) × (c.0 ≤ 16) }
    ensures { (result.steps ≡ steps_to n (links_in link.now) until.0 left c.0) × (result.term.0 ≡ iterate (next n (links_in link.now)) result.steps c.0) × ((y : ℕ) → bit result.passed y ≡ ltb (steps_to n (links_in link.now) y result.steps c.0) result.steps) }
{
    let mut term = c;
    let mut passed: u32 = 0;
    for steps in 0..left {
        if term == until {
            return Followed {
                term,
                steps,
                passed,
            };
        }
        let d = next(link, n, term);
        passed |= rows::only(term.0);
        if d == term {
            break;
        }
        term = d;
    }
    Followed {
        term,
        steps: left,
        passed,
    }
}
