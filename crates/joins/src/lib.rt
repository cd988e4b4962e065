// Joins of a path, in place: two terms, then doubled successors, with the pairs that were joined.
#![tactic(auto)]

ghost use Rattle.std.specs.Prelude.{◌≡◌, ◌≤◌, ◌<◌, [], ◌∷◌, ◌++◌};
ghost use Rattle.logic.specs.Facts.{unjoined, and_then, settle, join, replace};
ghost use Rattle.facts.specs.Path.{path_of};
ghost use Rattle.joins.specs.Pairs.{pairs_of, joined_of, Fits};

use facts::Facts;
use rows::{Pair, Term};

// The pairs that were joined, in order: the term that was kept, and the one that it replaced. One join of at most 16 terms makes no more
// than 17. The library has no heap memory, so an array holds them, the first `count` of its entries.
#[derive(Clone, Copy)]
pub struct Pairs {
    pub entries: [(u8, u8); 17],
    pub count: usize,
}

impl Pairs {
    // No pair.
    pub fn none() -> Pairs
        ensures { pairs_of result ≡ [] }
    {
        Pairs {
            entries: [(0, 0); 17],
            count: 0,
        }
    }

    // One pair more, behind the others.
    pub fn push(&mut self, pair: Pair)
        requires { self.old.count < 17 }
        ensures { pairs_of self.new ≡ pairs_of self.old ++ ((pair.lo.0, pair.hi.0) ∷ []) }
    {
        self.entries[self.count] = (pair.lo.0 as u8, pair.hi.0 as u8);
        self.count += 1;
    }
}

// What joining hands back: the pairs that were joined, and the facts then.
#[derive(Clone, Copy)]
pub struct Joined {
    pub pairs: Pairs,
    pub facts: Facts,
}

impl Joined {
    // Facts of which no two terms were joined.
    pub fn of(facts: Facts) -> Joined
        ensures { joined_of result ≡ unjoined (path_of facts) }
    {
        Joined {
            pairs: Pairs::none(),
            facts,
        }
    }

    // One pair more is joined: it stands behind the others, and the facts speak of the lower in place of the higher.
    fn unite(&mut self, pair: Pair)
        requires { self.old.pairs.count < 17 }
        ensures pairs { pairs_of self.new.pairs ≡ pairs_of self.old.pairs ++ ((pair.lo.0, pair.hi.0) ∷ []) }
        ensures facts { path_of self.new.facts ≡ replace pair.lo.0 pair.hi.0 (path_of self.old.facts) }
    {
        self.pairs.push(pair);
        self.facts.replace(pair);
    }

    // "While a term has two successors, the two lowest successors of the lowest such term are joined", after what was joined before
    pub fn settle(&mut self, n: usize)
        requires { (n ≤ 16) × Fits (and_then (joined_of self.old) (settle n n)) }
        ensures { joined_of self.new ≡ and_then (joined_of self.old) (settle n n) }
    {
        for _turn in 0..n {
            let Some((lo, hi)) = doubled::lowest(&self.facts, n) else {
                return;
            };
            self.unite(Pair { lo, hi });
        }
    }

    // "Joining a and b", after the pairs that were joined before. A term joined with itself is no pair.
    pub fn join(&mut self, n: usize, a: Term, b: Term)
        requires { (n ≤ 16) × (a.0 ≤ 16) × (b.0 ≤ 16) × Fits (and_then (joined_of self.old) (join n a.0 b.0)) }
        ensures { joined_of self.new ≡ and_then (joined_of self.old) (join n a.0 b.0) }
    {
        if a == b {
            return;
        }
        self.unite(Pair {
            lo: std::cmp::min(a, b),
            hi: std::cmp::max(a, b),
        });
        self.settle(n);
    }
}
