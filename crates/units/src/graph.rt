// The facts of one link of a path as rows, and the rows that the rules ask for.
ghost use Rattle.std.specs.Prelude.{◌≡◌, not, ℕ, ◌≤◌, eqb};
ghost use Rattle.logic.specs.Search.{◌and◌};
ghost use Rattle.rows.specs.Bits.{bit};
ghost use Rattle.rows.specs.Square.{square, Turned};
ghost use Rattle.facts.specs.Path.{graph_of, path_of, HasLink};

use facts::Facts;
use link_rows::Link;
use rows::Term;
use rules::{Move, Rule, Third};

// The links lead back to a term after `steps` steps, through the terms `on`; it reaches the terms `off`, which are none of these.
#[derive(Drop)]
pub struct Round {
    pub steps: usize,
    pub on: u32,
    pub off: u32,
}

// The links and the reachability by one link of a path, and the latter turned round.
#[derive(Drop)]
pub struct Graph {
    pub by: Link,
    pub link: [u32; 17],
    pub reach: [u32; 17],
    pub back: [u32; 17],
    pub ghost turned: { Turned back reach },
}

impl Graph {
    ghost use Rattle.units.specs.Rounds.{RoundFound};
    ghost use Rattle.units.specs.Graphs.{GraphOf};

    // The facts of link k.
    pub fn of(s: &Facts, k: Link) -> Graph
        requires { HasLink (path_of s.now) k.0 }
        ensures { GraphOf (path_of s.now) result × (result.by ≡ k) }
    {
        let link = link_rows::rows_of(&s.link, k);
        let reach = link_rows::rows_of(&s.reach, k);
        let back = rows::turned(&reach);
        Graph {
            by: k,
            link,
            reach,
            back,
        }
    }

    // The row of the other terms that x reaches and that reach it.
    pub fn both_ways(&self, x: usize) -> u32
        requires { x ≤ 16 }
        ensures { (y : ℕ) → y ≤ 16 → bit result y ≡ (square self.now.reach x y and square self.now.reach y x and not (eqb x y)) }
    {
        rows::without(self.reach[x] & self.back[x], rows::only(x))
    }

    // The row of the terms that x reaches and that do not reach it.
    pub fn ahead(&self, x: usize) -> u32
        requires { x ≤ 16 }
        ensures { (z : ℕ) → z ≤ 16 → bit result z ≡ (square self.now.reach x z and not (square self.now.reach z x)) }
    {
        rows::without(self.reach[x], self.back[x])
    }

    // The row of the other terms that x reaches and y does not.
    pub fn missed(&self, x: usize, y: usize) -> u32
        requires { (x ≤ 16) × (y ≤ 16) }
        ensures { (z : ℕ) → z ≤ 16 → bit result z ≡ (square self.now.reach x z and not (eqb x z) and not (square self.now.reach y z)) }
    {
        rows::without(rows::without(self.reach[x], rows::only(x)), self.reach[y])
    }

    // The row of the terms that x reaches, where neither y reaches them nor they y.
    pub fn unordered(&self, x: usize, y: usize) -> u32
        requires { (x ≤ 16) × (y ≤ 16) }
        ensures { (z : ℕ) → z ≤ 16 → bit result z ≡ (square self.now.reach x z and not (square self.now.reach y z) and not (square self.now.reach z y)) }
    {
        rows::without(rows::without(self.reach[x], self.reach[y]), self.back[y])
    }

    // A rule by this link at a triple.
    pub fn at(&self, rule: Rule, x: Term, y: Term, z: Third) -> Move
        ensures { result ≡ record { link = self.now.by; rule = rule; x = x; y = y; z = z } }
    {
        Move {
            link: self.by,
            rule,
            x,
            y,
            z,
        }
    }

    // The round of x, where the links lead back to it.
    pub fn around(&self, n: usize, x: usize) -> Option<Round>
        requires { (n ≤ 16) × (x ≤ 16) }
        ensures { RoundFound n (graph_of self.now.link self.now.reach) x result }
    {
        let first = link_steps::next(&self.link, n, Term(x));
        let back = link_steps::follow(&self.link, n, first, Term(x), n);
        let steps = back.steps + 1;
        if n < steps {
            return None;
        }
        let on = back.passed | rows::only(x);
        let off = rows::without(self.reach[x], on);
        Some(Round { steps, on, off })
    }
}
