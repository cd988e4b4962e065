// The links of the heap shown: "Known links stay. Each remaining term v, ascending, gets a link" (01; 000, Def. 4).
#![tactic(auto)]

ghost use Rattle.std.specs.Prelude.{◌≡◌, not, ℕ, ◌+◌, ◌-◌, ◌≤◌, eqb, ltb};
ghost use Rattle.rows.specs.Bits.{bit};
ghost use Rattle.rows.specs.Options.{found_of};
ghost use Rattle.facts.specs.Path.{path_of, rep_of, links_in, HasLink};
ghost use Rattle.logic.specs.Search.{◌and◌, from, any, find, select};
ghost use Rattle.logic.specs.Rules.{next};
ghost use Rattle.logic.specs.Shown.{reached, in_basin, on_path, basin_link, tree_link, new_link, link_each, shown_link};
ghost use Rattle.completion.specs.Links.{link_of, InRange, reach_in, leads_to, begins, covers_all};

use facts::Facts;
use link_rows::Link;
use rows::Term;

// "Known links stay." The link of each term is a byte, 0 where it has none.
fn known_links(link: &[u32; 17], n: usize) -> [u8; 17]
    requires { n ≤ 16 }
    ensures { link_of result ≡ next n (links_in link.now) }
{
    let mut links = [0u8; 17];
    for t in 0..17 {
        let to = rows::successor(link, n, Term(t)).unwrap_or(Term(0));
        links[t] = to.0 as u8;
    }
    links
}

// The heap shown so far: the links of the terms 1 to n, each as a byte, 0 where a term has none, and what the terms reach.
#[derive(Drop)]
struct Shown {
    n: usize,
    links: [u8; 17],
    reach: [u32; 17],
    ghost few: { n ≤ 16 },
    ghost in_range: { InRange links },
}

impl Shown {
    // "all that v reaches reaches v back"
    fn in_basin(&self, v: Term) -> bool
        requires { v.0 ≤ 16 }
        ensures { result ≡ in_basin self.now.n (reach_in self.now.reach) v.0 }
    {
        for u in 1..=self.n {
            let reached = rows::holds(&self.reach, v, Term(u));
            let back = rows::holds(&self.reach, Term(u), v);
            if reached & !back {
                return false;
            }
        }
        true
    }

    // Where the links from inside v's basin lead, as a row.
    fn led_to(&self, v: Term) -> u32
        requires { v.0 ≤ 16 }
        ensures { (b : ℕ) → bit result b ≡ any (leads_to self.now.reach (link_of self.now.links) v.0 b) (from (self.now.n + 1 - 1) 1) }
    {
        let mut row: u32 = 0;
        for u in 1..=self.n {
            let to = usize::from(self.links[u]);
            let inside = rows::holds(&self.reach, v, Term(u));
            row = rows::with(row, to, inside);
        }
        row
    }

    // The terms that v reaches and that no link from inside v's basin leads to: each begins a path there.
    fn heads(&self, v: Term) -> u32
        requires { v.0 ≤ 16 }
        ensures { (b : ℕ) → bit result b ≡ begins self.now.n (reach_in self.now.reach) (link_of self.now.links) v.0 b and (ltb 0 b and ltb b (self.now.n + 1)) }
    {
        let reached = rows::successor_row(&self.reach, self.n, v);
        rows::without(reached, self.led_to(v))
    }

    // v is on the path from b, which has at most n links.
    fn on_path(&self, v: Term, b: Term) -> bool
        requires { b.0 ≤ 16 }
        ensures { result ≡ on_path (link_of self.now.links) v.0 self.now.n b.0 }
    {
        let mut at = b.0;
        for _turn in 0..self.n {
            if at == v.0 {
                return true;
            }
            at = usize::from(self.links[at]);
        }
        at == v.0
    }

    // b is one of the terms that begin a path, and v is not on it.
    fn begins_without(&self, heads: u32, v: Term, b: Term) -> bool
        requires { b.0 ≤ 16 }
        ensures { result ≡ (bit heads b.0 and not (on_path (link_of self.now.links) v.0 self.now.n b.0)) }
    {
        if !rows::has(heads, b.0) {
            return false;
        }
        !self.on_path(v, b)
    }

    // The lowest term that begins a path without v.
    fn other_path(&self, heads: u32, v: Term) -> Option<Term>
        ensures { found_of result ≡ find (λ b. bit heads b and not (on_path (link_of self.now.links) v.0 self.now.n b)) (from (self.now.n + 1 - 1) 1) }
    {
        for b in 1..=self.n {
            if self.begins_without(heads, v, Term(b)) {
                return Some(Term(b));
            }
        }
        None
    }

    // "If they lie on one path of links, take its first term; else the lowest term that begins a path without v."
    fn basin_link(&self, v: Term) -> Term
        requires { v.0 ≤ 16 }
        ensures { result.0 ≡ basin_link self.now.n (link_of self.now.links) (reached self.now.n (reach_in self.now.reach) v.0) v.0 }
    {
        let row = self.heads(v);
        let Some(lowest) = rows::first(row) else {
            return Term(0);
        };
        let Some(_) = rows::first(row & (row - 1)) else {
            return lowest;
        };
        self.other_path(row, v).unwrap_or(Term(0))
    }

    // u reaches every term that v reaches, v alone excepted.
    fn covers_all(&self, v: Term, u: Term) -> bool
        requires { (v.0 ≤ 16) × (u.0 ≤ 16) }
        ensures { result ≡ covers_all self.now.n (reach_in self.now.reach) v.0 u.0 }
    {
        let reached = rows::successor_row(&self.reach, self.n, v);
        let covered = self.reach[u.0] | rows::only(v.0);
        rows::without(reached, covered) == 0
    }

    // "the lowest u other than v that v reaches and that reaches every term v reaches, v alone excepted"
    fn tree_link(&self, v: Term) -> Term
        requires { v.0 ≤ 16 }
        ensures { result.0 ≡ tree_link self.now.n (reach_in self.now.reach) v.0 }
    {
        for u in 1..=self.n {
            let reached = rows::holds(&self.reach, v, Term(u));
            let covers = self.covers_all(v, Term(u));
            if reached & ((u != v.0) & covers) {
                return Term(u);
            }
        }
        Term(0)
    }

    // The link of a remaining term v.
    fn new_link(&self, v: Term) -> Term
        requires { v.0 ≤ 16 }
        ensures { result.0 ≡ new_link self.now.n (reach_in self.now.reach) (link_of self.now.links) v.0 }
    {
        if self.in_basin(v) {
            return self.basin_link(v);
        }
        self.tree_link(v)
    }

    // "Each remaining term v, ascending, gets a link": one that is not replaced and has none.
    fn link_each(&mut self, rep: &[u8; 17])
        ensures { link_of self.new.links ≡ link_each self.old.n (reach_in self.old.reach) (link_of self.old.links) (select (λ v. eqb (rep_of rep.now v) v) (from (self.old.n + 1 - 1) 1)) }
    {
        for v in 1..=self.n {
            let stands = usize::from(rep[v]);
            let known = usize::from(self.links[v]);
            if (stands == v) & (known == 0) {
                let to = self.new_link(Term(v));
                self.links[v] = to.0 as u8;
            }
        }
    }
}

// The links of the heap shown, of link k, each as a byte.
pub fn shown_links(s: &Facts, n: usize, k: Link) -> [u8; 17]
    requires { (n ≤ 16) × HasLink (path_of s.now) k.0 }
    ensures { link_of result ≡ shown_link n (path_of s.now) k.0 }
{
    let link = link_rows::rows_of(&s.link, k);
    let reach = link_rows::rows_of(&s.reach, k);
    let mut shown = Shown {
        n,
        links: known_links(&link, n),
        reach,
    };
    shown.link_each(&s.rep);
    shown.links
}
