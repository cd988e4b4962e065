// Random queries and orders. Each draw is a step of a linear congruential generator, which tests/enumerate.rs follows.
ghost use Rattle.std.specs.Prelude.{◌≤◌, ◌<◌, ◌*◌};

use crate::room::{Room, add, put};

// A query's bytes and how many there are.
#[derive(Drop)]
pub struct Query {
    pub bytes: Room,
    pub length: usize,
}

// A number below the bound.
fn pick(seed: &mut u64, below: usize) -> usize
    requires { 0 < below }
    ensures { result < below }
{
    let next = (*seed % 2147483648 * 1103515245 + 12345) % 2147483648;
    *seed = next;
    (next / 65536) as usize % below
}

// A permutation of 1 to 8.
pub fn random_order(seed: &mut u64) -> [u8; 8] {
    let mut order: [u8; 8] = [1, 2, 3, 4, 5, 6, 7, 8];
    for i in 0..8 {
        let j = pick(seed, i + 1);
        order.swap(i, j);
    }
    order
}

// The section of n terms. Each is 0 for a variable, f of an earlier term, or 255, which names nil.
fn add_terms(seed: &mut u64, query: &mut Room, n: usize) -> usize
    requires { n < 10 }
{
    let mut at = add(query, 0, n);
    for t in 0..n {
        let drawn = pick(seed, t + 2);
        let term = if drawn == t + 1 { 255 } else { drawn };
        at = add(query, at, term);
    }
    at
}

// Two signs of three are plain.
fn sign(seed: &mut u64) -> usize {
    if pick(seed, 3) == 0 { 0 } else { 1 }
}

// A section of fewer than `below` literals, none if there are no terms: a sign, a number up to `first`, and one of n terms.
fn add_section(
    seed: &mut u64,
    query: &mut Room,
    from: usize,
    below: usize,
    first: usize,
    n: usize,
) -> usize
    requires { (0 < below) × (first < 10) × (n < 10) × (n ≤ 2 * first) }
{
    let count = pick(seed, below);
    if n == 0 {
        return add(query, from, 0);
    }
    let mut at = add(query, from, count);
    for _ in 0..count {
        at = add(query, at, sign(seed));
        at = add(query, at, pick(seed, first) + 1);
        at = add(query, at, pick(seed, n) + 1);
    }
    at
}

// A random query with up to 4 terms, 2 equalities, 4 reachability literals and 2 data literals.
fn random_query(seed: &mut u64) -> Query {
    let mut bytes: Room = [0; 64];
    let n = (pick(seed, 16) + 3) / 4;
    let terms_end = add_terms(seed, &mut bytes, n);
    let equalities_end = add_section(seed, &mut bytes, terms_end, 3, n, n);
    let reachability_end = add_section(seed, &mut bytes, equalities_end, 5, n, n);
    let data_end = add_section(seed, &mut bytes, reachability_end, 3, 2, n);
    let length = add(&mut bytes, data_end, 0);
    Query { bytes, length }
}

// Example E9 (01): of the terms 1, 2, f(1), f(2), f(1) = f(2), not 1 = 2, 1 > 2 and 2 > 1. Up to three bytes of its literals are drawn anew:
// few queries at random need SHARE.
fn near_share(seed: &mut u64) -> Query {
    let mut query: Room = [0; 64];
    query[..19].copy_from_slice(&[4, 0, 0, 1, 2, 2, 1, 3, 4, 0, 1, 2, 2, 1, 1, 2, 1, 2, 1]);
    let changes = pick(seed, 4);
    for _ in 0..changes {
        let literal = pick(seed, 4);
        let at = 6 + 3 * literal + literal / 2;
        let part = pick(seed, 3);
        if part == 0 {
            put(&mut query, at, sign(seed));
        } else {
            put(&mut query, at + part, pick(seed, 4) + 1);
        }
    }
    Query {
        bytes: query,
        length: 21,
    }
}

// The next query: one in eight is near E9.
pub fn next_query(seed: &mut u64) -> Query {
    if pick(seed, 8) == 0 {
        return near_share(seed);
    }
    random_query(seed)
}
