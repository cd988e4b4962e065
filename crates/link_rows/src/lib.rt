// Relations of up to three links in one array of rows, 17 a link: the link is one more index.
#![tactic(auto)]

ghost use Rattle.std.specs.Prelude.{◌≡◌, cond, ℕ, ◌+◌, ◌-◌, ◌*◌, ◌≤◌, ◌<◌, eqb, ltb, length};
ghost use Rattle.logic.specs.Search.{◌and◌, ◌or◌};
ghost use Rattle.logic.specs.Facts.{replace_in};
ghost use Rattle.rows.specs.Bits.{bit};
ghost use Rattle.rows.specs.Square.{square};
ghost use Rattle.link_rows.specs.Cube.{cube};

use rows::{Pair, Term};

// A link by its number, from 1.
#[derive(Clone, Copy, PartialEq, Eq, PartialOrd, Ord)]
pub struct Link(pub usize);

// The place of the first row of link k.
pub fn place(k: Link) -> usize
    requires { (0 < k.0) × (k.0 ≤ 3) }
    ensures { (result ≡ 17 * (k.0 - 1)) × (result ≤ 34) }
{
    17 * (k.0 - 1)
}

// The rows of link k alone.
pub fn rows_of(rows: &[u32; 51], k: Link) -> [u32; 17]
    requires { (0 < k.0) × (k.0 ≤ 3) }
    ensures { square result ≡ cube rows.now k.0 }
{
    let from = place(k);
    let mut own = [0u32; 17];
    own.copy_from_slice(&rows[from..from + 17]);
    own
}

// The fact about a and b by link k is held: above 16 there are no facts.
pub fn is_held(rows: &[u32; 51], k: Link, a: usize, b: usize) -> bool
    requires { (0 < k.0) × (k.0 ≤ 3) }
    ensures { result ≡ cube rows.now k.0 a b }
{
    if 16 < a || 16 < b {
        return false;
    }
    let at = place(k) + a;
    rows::has(rows[at], b)
}

// The row of the successors of t by link k.
pub fn successor_row(link: &[u32; 51], n: usize, k: Link, t: Term) -> u32
    requires { (n ≤ 16) × (0 < k.0) × (k.0 ≤ 3) × (t.0 ≤ 16) }
    ensures { (i : ℕ) → bit result i ≡ cube link.now k.0 t.0 i and (ltb 0 i and ltb i (n + 1)) }
{
    let at = place(k) + t.0;
    link[at] & rows::term_row(n)
}

// The fact about a and b by link k is added.
pub fn add(rows: &mut [u32; 51], k: Link, a: Term, b: Term)
    requires { (0 < k.0) × (k.0 ≤ 3) × (a.0 ≤ 16) × (b.0 ≤ 16) × (length rows.old ≡ 51) }
    ensures { (cube rows.new ≡ (λ j x y. cube rows.old j x y or (eqb j k.0 and eqb x a.0 and eqb y b.0))) × (length rows.new ≡ 51) }
{
    let at = place(k) + a.0;
    rows[at] |= rows::only(b.0);
}

// Link k gets these rows in place of its own.
pub fn put(rows: &mut [u32], k: Link, own: &[u32; 17])
    requires { (0 < k.0) × (k.0 ≤ 3) × (length rows.old ≡ 51) }
    ensures { (cube rows.new ≡ (λ j. cond (eqb j k.0) (square own.now) (cube rows.old j))) × (length rows.new ≡ 51) }
{
    let from = place(k);
    rows[from..from + 17].copy_from_slice(own);
}

// The higher of a pair is replaced by the lower in the relation of link k.
fn replace_by(rows: &mut [u32], k: Link, pair: Pair)
    requires { (0 < k.0) × (k.0 ≤ 3) × (length rows.old ≡ 51) }
    ensures { (cube rows.new ≡ (λ j. cond (eqb j k.0) (replace_in pair.lo.0 pair.hi.0 (cube rows.old j)) (cube rows.old j))) × (length rows.new ≡ 51) }
{
    let from = place(k);
    rows::replace_in(&mut rows[from..from + 17], pair);
}

// The same of links 1 to `links`.
pub fn replace(rows: &mut [u32; 51], links: usize, pair: Pair)
    requires { (links ≤ 3) × (length rows.old ≡ 51) }
    ensures { ((j : ℕ) → j ≤ links → cube rows.new j ≡ replace_in pair.lo.0 pair.hi.0 (cube rows.old j)) × (length rows.new ≡ 51) }
{
    for k in 1..=links {
        replace_by(rows, Link(k), pair);
    }
}
