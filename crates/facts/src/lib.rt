// The facts of a path as the code holds them: what each term was replaced by, and the rows of each link and of its reachability.
#![tactic(auto)]

ghost use Rattle.std.specs.Prelude.{◌≡◌, ℕ, ◌≤◌, ◌<◌, false, length};
ghost use Rattle.logic.specs.Facts.{add_links, add_reach, replace, live};
ghost use Rattle.link_rows.specs.Cube.{cube};
ghost use Rattle.rows.specs.Bits.{bit};
ghost use Rattle.facts.specs.Path.{path_of, rep_of, replace_rep, HasLink};

use link_rows::Link;
use rows::{Pair, Term};

// What each term was replaced by, as a byte, and the facts of each link, 17 rows a link: f(a) = b, and "a reaches b", are bit b of row a.
// A path of a single link does not read the rows of the other two.
#[derive(Clone, Copy)]
pub struct Facts {
    pub rep: [u8; 17],
    pub single: bool,
    pub link: [u32; 51],
    pub reach: [u32; 51],
}

impl Facts {
    // No facts, and no term replaced.
    pub fn unjoined(single: bool) -> Facts
        ensures single { result.single ≡ single }
        ensures rep { rep_of result.rep ≡ (λ t. t) }
        ensures link { (k a b : ℕ) → cube result.link k a b ≡ false }
        ensures reach { (k a b : ℕ) → cube result.reach k a b ≡ false }
    {
        Facts {
            rep: unreplaced(),
            single,
            link: [0; 51],
            reach: [0; 51],
        }
    }

    // How many links the path has.
    pub fn links(&self) -> usize
        ensures { (result ≡ (path_of self.now).links) × (0 < result) × (result ≤ 3) }
    {
        if self.single { 1 } else { 3 }
    }

    // What the term t was replaced by; a number above 16 is no term, and is not replaced.
    pub fn representative(&self, t: Term) -> Term
        ensures { result.0 ≡ (path_of self.now).rep t.0 }
    {
        read_rep(&self.rep, t)
    }

    // The row of the terms that are not replaced.
    pub fn live(&self, n: usize) -> u32
        requires { n ≤ 16 }
        ensures { bit result ≡ live n (path_of self.now) }
    {
        let mut out: u32 = 0;
        for (t, to) in self.rep.iter().enumerate() {
            out = rows::with(out, t, usize::from(*to) == t);
        }
        out & rows::term_row(n)
    }

    // The reachability fact is added.
    pub fn add_reach(&mut self, k: Link, a: Term, b: Term)
        requires { HasLink (path_of self.old) k.0 × (a.0 ≤ 16) × (b.0 ≤ 16) }
        ensures { path_of self.new ≡ add_reach k.0 a.0 b.0 (path_of self.old) }
    {
        link_rows::add(&mut self.reach, k, a, b);
    }

    // The link fact is added for every link.
    pub fn add_links(&mut self, a: Term, b: Term)
        requires { (a.0 ≤ 16) × (b.0 ≤ 16) }
        ensures { path_of self.new ≡ add_links a.0 b.0 (path_of self.old) }
    {
        for k in 1..=self.links() {
            link_rows::add(&mut self.link, Link(k), a, b);
        }
    }

    // "replaces the higher number by the lower in every fact"
    pub fn replace(&mut self, pair: Pair)
        ensures { path_of self.new ≡ replace pair.lo.0 pair.hi.0 (path_of self.old) }
    {
        let count = self.links();
        replace_rep(&mut self.rep, pair);
        link_rows::replace(&mut self.link, count, pair);
        link_rows::replace(&mut self.reach, count, pair);
    }
}

// What the term t was replaced by; a number above 16 is no term, and is not replaced.
pub fn read_rep(rep: &[u8; 17], t: Term) -> Term
    ensures { result.0 ≡ rep_of rep.now t.0 }
{
    if t.0 < 17 {
        Term(usize::from(rep[t.0]))
    } else {
        t
    }
}

// No term is replaced.
pub fn unreplaced() -> [u8; 17]
    ensures { rep_of result ≡ (λ t. t) }
{
    let mut rep = [0u8; 17];
    for t in 0..17 {
        rep[t] = t as u8;
    }
    rep
}

// Whatever was replaced by the higher is now replaced by the lower.
fn replace_rep(rep: &mut [u8; 17], pair: Pair)
    requires { length rep.old ≡ 17 }
    ensures { (rep_of rep.new ≡ replace_rep pair.lo.0 pair.hi.0 (rep_of rep.old)) × (length rep.new ≡ 17) }
{
    let low = pair.lo.0 as u8;
    let high = pair.hi.0 as u8;
    for t in 0..17 {
        if rep[t] == high {
            rep[t] = low;
        }
    }
}
