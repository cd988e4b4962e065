// A path whose facts another path holds, in the terms that stand for them there: whatever heap meets the other meets it too.
#![tactic(auto)]

ghost use Rattle.std.specs.Prelude.{◌≡◌, true, ℕ, ◌≤◌};
ghost use Rattle.rows.specs.Bits.{bit};
ghost use Rattle.rows.specs.Square.{row_of, square};
ghost use Rattle.facts.specs.Path.{path_of, rep_of, HasLink};
ghost use Rattle.covering.specs.Covers.{RowHeld, RowsHeld, GraphHeld, SameReps, Covers};

use facts::Facts;
use link_rows::Link;
use rows::Term;

// Where a row has b, another has what stands for b.
fn held_at(row: u32, b: usize, reps: &[u8; 17], far: u32) -> bool
    requires { b ≤ 16 }
    ensures { result ≡ true → bit row b ≡ true → row_of far (rep_of reps.now b) ≡ true }
{
    if !rows::has(row, b) {
        return true;
    }
    let to = facts::read_rep(reps, Term(b));
    to.0 <= 16 && rows::has(far, to.0)
}

// The same of every b.
fn row_held(row: u32, reps: &[u8; 17], far: u32) -> bool
    ensures { result ≡ true → RowHeld row (rep_of reps.now) far }
{
    for b in 0..17 {
        if !held_at(row, b, reps, far) {
            return false;
        }
    }
    true
}

// The facts about a that some rows hold, others hold about what stands for a.
fn facts_held(rows: &[u32; 17], a: usize, reps: &[u8; 17], others: &[u32; 17]) -> bool
    requires { a ≤ 16 }
    ensures { result ≡ true → (b : ℕ) → square rows.now a b ≡ true → square others.now (rep_of reps.now a) (rep_of reps.now b) ≡ true }
{
    let row = rows[a];
    if row == 0 {
        return true;
    }
    let to = facts::read_rep(reps, Term(a));
    to.0 <= 16 && row_held(row, reps, others[to.0])
}

// The same of every a.
fn rows_held(rows: &[u32; 17], reps: &[u8; 17], others: &[u32; 17]) -> bool
    ensures { result ≡ true → RowsHeld (square rows.now) (rep_of reps.now) (square others.now) }
{
    for a in 0..17 {
        if !facts_held(rows, a, reps, others) {
            return false;
        }
    }
    true
}

// What stands for t stands for what t was replaced by.
fn same_rep(reps: &[u8; 17], olds: &[u8; 17], t: usize) -> bool
    ensures { result ≡ true → rep_of reps.now (rep_of olds.now t) ≡ rep_of reps.now t }
{
    let old = facts::read_rep(olds, Term(t));
    let there = facts::read_rep(reps, old);
    let here = facts::read_rep(reps, Term(t));
    there == here
}

// The same of every t.
fn same_reps(reps: &[u8; 17], olds: &[u8; 17]) -> bool
    ensures { result ≡ true → SameReps (rep_of reps.now) (rep_of olds.now) }
{
    for t in 0..17 {
        if !same_rep(reps, olds, t) {
            return false;
        }
    }
    true
}

// The facts of link k of s, w holds.
fn graph_held(w: &Facts, s: &Facts, k: Link) -> bool
    requires { HasLink (path_of w.now) k.0 × HasLink (path_of s.now) k.0 }
    ensures { result ≡ true → GraphHeld ((path_of s.now).graph k.0) (path_of w.now).rep ((path_of w.now).graph k.0) }
{
    let link = link_rows::rows_of(&s.link, k);
    let other_link = link_rows::rows_of(&w.link, k);
    if !rows_held(&link, &w.rep, &other_link) {
        return false;
    }
    let reach = link_rows::rows_of(&s.reach, k);
    let other_reach = link_rows::rows_of(&w.reach, k);
    rows_held(&reach, &w.rep, &other_reach)
}

// The path w holds the facts of s: a path of one link holds none about another.
pub fn covers(w: &Facts, s: &Facts) -> bool
    ensures { result ≡ true → Covers (path_of w.now) (path_of s.now) }
{
    if !same_reps(&w.rep, &s.rep) {
        return false;
    }
    let count = s.links();
    if w.links() < count {
        return false;
    }
    for k in 1..=count {
        if !graph_held(w, s, Link(k)) {
            return false;
        }
    }
    true
}
