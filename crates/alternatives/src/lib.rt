// The alternatives of a rule, left to right, by a link.
#![tactic(auto)]

ghost use Rattle.std.specs.Prelude.{◌≡◌, ◌≤◌, ◌<◌};
ghost use Rattle.facts.specs.Path.{links_by};
ghost use Rattle.rules.specs.Answers.{kind_of, TripleInRange};
ghost use Rattle.alternatives.specs.Answers.{fact_of, InRange};
ghost use Rattle.alternatives.specs.Alternatives.{count_of, alternative_at};

use facts::Facts;
use rows::Term;
use rules::{Move, Rule};

// What a rule concludes, of its link.
#[derive(Clone, Copy)]
pub enum Fact {
    Equal(Term, Term),
    Reaches(Term, Term),
}

// How many alternatives the rule of a move has.
pub fn count(m: Move) -> usize
    ensures { result ≡ count_of (kind_of m.rule) m.z.0 }
{
    match m.rule {
        Rule::Reflex | Rule::Trans1 | Rule::Trans2 | Rule::Share => 1,
        Rule::Func | Rule::Scc | Rule::Total => 2,
        Rule::Cycle => m.z.0,
    }
}

// The alternative of a move at i, from 0. That of CYCLE is the term i links on from x: 17 is no term, so that all i are followed.
pub fn alternative(s: &Facts, n: usize, m: Move, i: usize) -> Fact
    requires { (n ≤ 16) × (0 < m.link.0) × (m.link.0 ≤ 3) × TripleInRange m }
    ensures { (fact_of m.link.0 result ≡ alternative_at m.link.0 n (links_by s.now.link m.link.0) (kind_of m.rule) m.x.0 m.y.0 m.z.0 i) × InRange result }
{
    let x = m.x;
    let y = m.y;
    let t = m.z.term();
    match m.rule {
        Rule::Reflex => Fact::Reaches(x, x),
        Rule::Trans1 => Fact::Reaches(x, y),
        Rule::Trans2 => Fact::Reaches(x, t),
        Rule::Func if i == 0 => Fact::Equal(x, t),
        Rule::Func => Fact::Reaches(y, t),
        Rule::Cycle => {
            let own = link_rows::rows_of(&s.link, m.link);
            Fact::Equal(y, link_steps::follow(&own, n, x, Term(17), i).term)
        }
        Rule::Scc if i == 0 => Fact::Equal(x, y),
        Rule::Scc => Fact::Reaches(t, x),
        Rule::Total if i == 0 => Fact::Reaches(y, t),
        Rule::Total => Fact::Reaches(t, y),
        Rule::Share => Fact::Equal(x, y),
    }
}
