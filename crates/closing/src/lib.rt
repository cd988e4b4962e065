// A path closed under the rules that neither branch nor join: REFLEX, TRANS1 and TRANS2, all at once.
#![tactic(auto)]

ghost use Rattle.std.specs.Prelude.{◌≡◌, Bool, ℕ, ◌≤◌, ◌<◌, length};
ghost use Rattle.logic.specs.Search.{◌and◌};
ghost use Rattle.logic.specs.Decision.{Closes};
ghost use Rattle.rows.specs.Bits.{bit};
ghost use Rattle.rows.specs.Square.{square};
ghost use Rattle.link_rows.specs.Cube.{cube};
ghost use Rattle.facts.specs.Path.{graph_of, graph_in, path_of};
ghost use Rattle.closing.specs.Rows.{Within, Above, Seeded, Passed, Onward, LinkClosed};
ghost use Rattle.closing.specs.Closed.{Closed, three_of, begins};

use facts::Facts;
use link_rows::Link;

// REFLEX and TRANS1: each row with its own term, where that is not replaced, and with what it is linked to.
fn seed(alive: u32, link: &[u32; 17], reach: &mut [u32])
    requires { length reach.old ≡ 17 }
    ensures { Within (bit alive) (square link.now) (square reach.old) reach.new × Above (square reach.old) reach.new × Seeded (bit alive) (square link.now) reach.new × (length reach.new ≡ 17) }
{
    for a in 0..17 {
        let own = rows::only(a) & alive;
        reach[a] |= link[a] | own;
    }
}

// What y reaches, for a row that has y.
fn passed_on(row: u32, y: usize, far: u32) -> u32
    requires { y ≤ 16 }
    ensures { (i : ℕ) → bit result i ≡ bit row y and bit far i }
{
    if rows::has(row, y) { far } else { 0 }
}

// TRANS2 through y: whoever reaches y reaches what y does.
fn through(rows: &mut [u32], y: usize)
    requires { (y ≤ 16) × (length rows.old ≡ 17) }
    ensures { Passed rows.new rows.old y × (length rows.new ≡ 17) }
{
    let far = rows[y];
    if far == 0 {
        return;
    }
    for row in rows.iter_mut() {
        *row |= passed_on(*row, y, far);
    }
}

// TRANS2 through each term.
fn pass_on(rows: &mut [u32])
    requires { length rows.old ≡ 17 }
    ensures { ((alive : ℕ → Bool) (link reach : ℕ → ℕ → Bool) → Within alive link reach rows.old → Within alive link reach rows.new) × Above (square rows.old) rows.new × Onward rows.new × (length rows.new ≡ 17) }
{
    for y in 0..17 {
        through(rows, y);
    }
}

// All the facts that REFLEX, TRANS1 and TRANS2 give of a link, in its rows.
pub fn close_link(alive: u32, link: &[u32; 17], reach: &mut [u32])
    requires { length reach.old ≡ 17 }
    ensures { LinkClosed (bit alive) (graph_of link.now reach.old) (graph_of link.now reach.new) × (length reach.new ≡ 17) }
{
    seed(alive, link, reach);
    pass_on(reach);
}

// The same of link k, in the rows of all links.
fn close_by(alive: u32, link: &[u32; 51], reach: &mut [u32], k: Link)
    requires { (0 < k.0) × (k.0 ≤ 3) × (length reach.old ≡ 51) }
    ensures { LinkClosed (bit alive) (graph_in link.now reach.old k.0) (graph_in link.now reach.new k.0) × ((j : ℕ) → (j ≡ k.0 → ⊥) → cube reach.new j ≡ cube reach.old j) × (length reach.new ≡ 51) }
{
    let own = link_rows::rows_of(link, k);
    let from = link_rows::place(k);
    close_link(alive, &own, &mut reach[from..from + 17]);
}

// The same of every link of a path.
pub fn close(s: &mut Facts, n: usize)
    requires { n ≤ 16 }
    ensures { Closes n (path_of s.old) (path_of s.new) × Closed n (path_of s.new) }
{
    let alive = s.live(n);
    for k in 1..=s.links() {
        close_by(alive, &s.link, &mut s.reach, Link(k));
    }
}

// Three numbers are those of REFLEX, TRANS1 and TRANS2, in whatever order.
fn three_of(a: u8, b: u8, c: u8) -> bool
    ensures { result ≡ three_of a b c }
{
    ((a == 1) | (b == 1) | (c == 1))
        & ((a == 2) | (b == 2) | (c == 2))
        & ((a == 3) | (b == 3) | (c == 3))
        & (a < 4)
        & (b < 4)
        & (c < 4)
}

// The order list begins with these rules.
pub fn begins(order: &[u8]) -> bool
    requires { 3 ≤ length order.now }
    ensures { result ≡ begins order.now }
{
    three_of(order[0], order[1], order[2])
}
