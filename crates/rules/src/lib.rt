// The eight rules, and the rows of the numbers that each asks for.
#![tactic(auto)]

ghost use Rattle.std.specs.Prelude.{◌≡◌, ℕ, ◌≤◌, ◌<◌};
ghost use Rattle.facts.specs.Path.{graph_of};
ghost use Rattle.rules.specs.Answers.{kind_of, numbered_of};
ghost use Rattle.rows.specs.Bits.{bit};
ghost use Rattle.rules.specs.Views.{Suits};
ghost use Rattle.rules.specs.Tests.{pair_test, third_test, is_not_cycle};
ghost use Rattle.logic.specs.Rules.{rule_of, rule_number};

use link_rows::Link;
use rows::Term;

#[derive(Clone, Copy)]
pub enum Rule {
    Reflex,
    Trans1,
    Trans2,
    Func,
    Cycle,
    Scc,
    Total,
    Share,
}

// The third number of a triple: a term's, or 0 where the rule has no third term, or the count of steps for CYCLE.
#[derive(Clone, Copy)]
pub struct Third(pub usize);

// A rule to apply, by which link, and its triple.
#[derive(Clone, Copy)]
pub struct Move {
    pub link: Link,
    pub rule: Rule,
    pub x: Term,
    pub y: Term,
    pub z: Third,
}

impl Third {
    // The term, where the third number is one.
    pub fn term(self) -> Term
        ensures { result.0 ≡ self.0 }
    {
        Term(self.0)
    }
}

impl Rule {
    // The rule that has this number.
    pub fn numbered(k: u8) -> Option<Rule>
        ensures { numbered_of result ≡ rule_of k }
    {
        match k {
            1 => Some(Rule::Reflex),
            2 => Some(Rule::Trans1),
            3 => Some(Rule::Trans2),
            4 => Some(Rule::Func),
            5 => Some(Rule::Cycle),
            6 => Some(Rule::Scc),
            7 => Some(Rule::Total),
            8 => Some(Rule::Share),
            _ => None,
        }
    }

    // The number of the rule.
    #[tactic(auto, unfolding(logic::specs::Rules::rule_number))]
    pub fn number(self) -> usize
        ensures { (result ≡ rule_number (kind_of self)) × (result < 9) }
    {
        match self {
            Rule::Reflex => 1,
            Rule::Trans1 => 2,
            Rule::Trans2 => 3,
            Rule::Func => 4,
            Rule::Cycle => 5,
            Rule::Scc => 6,
            Rule::Total => 7,
            Rule::Share => 8,
        }
    }

    // The rule is not CYCLE.
    #[tactic(auto, unfolding(crate::specs::Tests::is_not_cycle))]
    pub fn is_not_cycle(self) -> bool
        ensures { result ≡ is_not_cycle (kind_of self) }
    {
        !matches!(self, Rule::Cycle)
    }
}

// What rules read of a path of n terms by one of its links: the row of the terms that are not replaced, the rows of the link and of its
// reachability, and reachability turned round, which stands there once a rule that reads it so is tried.
#[derive(Drop)]
pub struct View {
    pub n: usize,
    pub alive: u32,
    pub link: [u32; 17],
    pub reach: [u32; 17],
    pub back: [u32; 17],
}

impl View {
    // The row of the second numbers that a rule asks for beside x.
    pub fn pair_row(&self, rule: Rule, x: Term) -> u32
        requires { (x.0 ≤ 16) × Suits self.now (kind_of rule) }
        ensures { (y : ℕ) → y ≤ 16 → bit result y ≡ pair_test (bit self.now.alive) (graph_of self.now.link self.now.reach) x.0 y (kind_of rule) }
    {
        let at = x.0;
        let near = self.link[at];
        let far = self.reach[at];
        let both = far & self.back[at];
        match rule {
            Rule::Reflex => (rows::without(self.alive, far) >> at) & 1,
            Rule::Trans1 => rows::without(near, far),
            Rule::Trans2 => far,
            Rule::Func => near,
            Rule::Cycle => far,
            Rule::Scc => rows::without(both, rows::only(at)),
            Rule::Total => far,
            Rule::Share => rows::without(both, rows::only(at)),
        }
    }

    // The row of the third numbers that a rule asks for, once its first two are as it asks.
    pub fn third_row(&self, rule: Rule, x: Term, y: Term) -> u32
        requires { (x.0 ≤ 16) × (y.0 ≤ 16) × Suits self.now (kind_of rule) }
        ensures { (z : ℕ) → z ≤ 16 → bit result z ≡ third_test (graph_of self.now.link self.now.reach) x.0 y.0 z (kind_of rule) }
    {
        let first = x.0;
        let second = y.0;
        let far = self.reach[first];
        let farther = self.reach[second];
        match rule {
            Rule::Reflex => 1,
            Rule::Trans1 => 1,
            Rule::Trans2 => rows::without(farther, far),
            Rule::Func => rows::without(rows::without(far, rows::only(first)), farther),
            Rule::Cycle => 0,
            Rule::Scc => rows::without(far, self.back[first]),
            Rule::Total => rows::without(rows::without(far, farther), self.back[second]),
            Rule::Share => self.link[first] & self.link[second],
        }
    }
}
