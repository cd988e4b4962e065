// The branches of a rule: each of its alternatives, joined or added.
#![tactic(auto)]

ghost use Rattle.std.specs.Prelude.{◌≡◌, ◌≤◌};
ghost use Rattle.logic.specs.Rules.{branch};
ghost use Rattle.facts.specs.Path.{path_of, HasLink};
ghost use Rattle.joins.specs.Pairs.{joined_of};
ghost use Rattle.rules.specs.Answers.{kind_of, TripleInRange};
ghost use Rattle.alternatives.specs.Alternatives.{alternative_at};

use alternatives::Fact;
use facts::Facts;
use joins::{Joined, Pairs};
use rules::Move;

// The branch of a move at i, from 0, made of the path that branches, in place: the pairs that were joined to make it stand in place of those before.
// Routines that call themselves for each branch lend their own copy, so that a level of them holds one path and no more.
#[inline(never)]
pub fn make(goal: &mut Joined, n: usize, m: Move, i: usize)
    requires { (n ≤ 16) × HasLink (path_of goal.old.facts) m.link.0 × TripleInRange m }
    ensures { joined_of goal.new ≡ branch n (path_of goal.old.facts) (alternative_at m.link.0 n ((path_of goal.old.facts).graph m.link.0) (kind_of m.rule) m.x.0 m.y.0 m.z.0 i) }
{
    goal.pairs = Pairs::none();
    match alternatives::alternative(&goal.facts, n, m, i) {
        Fact::Equal(a, b) => goal.join(n, a, b),
        Fact::Reaches(a, b) => goal.facts.add_reach(m.link, a, b),
    }
}

// The same of a path without its pairs.
#[inline(never)]
pub fn take(s: &mut Facts, n: usize, m: Move, i: usize)
    requires { (n ≤ 16) × HasLink (path_of s.old) m.link.0 × TripleInRange m }
    ensures { path_of s.new ≡ (branch n (path_of s.old) (alternative_at m.link.0 n ((path_of s.old).graph m.link.0) (kind_of m.rule) m.x.0 m.y.0 m.z.0 i)).facts }
{
    match alternatives::alternative(s, n, m, i) {
        Fact::Equal(a, b) => {
            let mut made = Joined::of(*s);
            made.join(n, a, b);
            *s = made.facts;
        }
        Fact::Reaches(a, b) => s.add_reach(m.link, a, b),
    }
}

// The branch of a path that stays, by value.
pub fn branch(s: &Facts, n: usize, m: Move, i: usize) -> Joined
    requires { (n ≤ 16) × HasLink (path_of s.now) m.link.0 × TripleInRange m }
    ensures { joined_of result ≡ branch n (path_of s.now) (alternative_at m.link.0 n ((path_of s.now).graph m.link.0) (kind_of m.rule) m.x.0 m.y.0 m.z.0 i) }
{
    let mut made = Joined::of(*s);
    make(&mut made, n, m, i);
    made
}
