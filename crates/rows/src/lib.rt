// Rows of bits over the numbers 0 to 16, of which 1 to 16 are terms, and relations held as 17 rows.
#![tactic(auto)]

ghost use Rattle.std.specs.Prelude.{◌≡◌, ℕ, ◌+◌, ◌≤◌, ◌<◌, not, eqb, ltb, ◌∷◌, length};
ghost use Rattle.std.proofs.Math.Option.{some};
ghost use Rattle.logic.specs.Search.{◌and◌, ◌or◌, from, find, select};
ghost use Rattle.logic.specs.Facts.{terms, replace_in};
ghost use Rattle.rows.specs.Bits.{bit};
ghost use Rattle.rows.specs.Square.{square, Turned, renamed_row, columns, rows};
ghost use Rattle.rows.specs.Options.{found_of};

// A term by its number.
#[derive(Clone, Copy, PartialEq, Eq, PartialOrd, Ord)]
pub struct Term(pub usize);

// Two terms that are joined: the lower is kept, and stands for the higher.
#[derive(Clone, Copy)]
pub struct Pair {
    pub lo: Term,
    pub hi: Term,
    pub ghost lower: { lo.0 < hi.0 },
    pub ghost few: { hi.0 ≤ 16 },
}

// Bit b of a row.
pub fn has(row: u32, b: usize) -> bool
    requires { b ≤ 16 }
    ensures { result ≡ bit row b }
{
    (row >> b) & 1 == 1
}

// The row of b alone.
pub fn only(b: usize) -> u32
    requires { b ≤ 16 }
    ensures { (i : ℕ) → bit result i ≡ eqb i b }
{
    1u32 << b
}

// What one row has and the other has not.
pub fn without(row: u32, other: u32) -> u32
    ensures { (i : ℕ) → bit result i ≡ bit row i and not (bit other i) }
{
    (row | other) ^ other
}

// The row of the numbers 0 to n.
pub fn up_to(n: usize) -> u32
    requires { n ≤ 16 }
    ensures { (i : ℕ) → bit result i ≡ ltb i (n + 1) }
{
    (2u32 << n) - 1
}

// The row of the terms 1 to n.
pub fn term_row(n: usize) -> u32
    requires { n ≤ 16 }
    ensures { (i : ℕ) → bit result i ≡ ltb 0 i and ltb i (n + 1) }
{
    without(up_to(n), 1)
}

// A row with t, where it is to have it.
pub fn with(row: u32, t: usize, wanted: bool) -> u32
    requires { t ≤ 16 }
    ensures { (i : ℕ) → bit result i ≡ bit row i or (eqb i t and wanted) }
{
    if wanted { row | only(t) } else { row }
}

// The smallest number of a row.
pub fn first(row: u32) -> Option<Term>
    ensures { found_of result ≡ find (bit row) (from 32 0) }
{
    if row == 0 {
        return None;
    }
    Some(Term(row.trailing_zeros() as usize))
}

// The row without its smallest number.
pub fn rest(row: u32) -> u32
    requires { 0 < row }
    ensures { (result < row) × ((a : ℕ) → find (bit row) (from 32 0) ≡ some a → select (bit row) (from 32 0) ≡ (a ∷ select (bit result) (from 32 0))) }
{
    row & (row - 1)
}

// The fact about a and b is held.
pub fn holds(rows: &[u32; 17], a: Term, b: Term) -> bool
    requires { (a.0 ≤ 16) × (b.0 ≤ 16) }
    ensures { result ≡ square rows.now a.0 b.0 }
{
    has(rows[a.0], b.0)
}

// The same of any numbers: above 16 there are no facts.
pub fn is_held(rows: &[u32; 17], a: usize, b: usize) -> bool
    ensures { result ≡ square rows.now a b }
{
    if 16 < a || 16 < b {
        return false;
    }
    holds(rows, Term(a), Term(b))
}

// Column y of a relation, as a row.
fn column(rows: &[u32; 17], y: usize) -> u32
    requires { y ≤ 16 }
    ensures { (z : ℕ) → bit result z ≡ square rows.now z y }
{
    let mut out: u32 = 0;
    for (z, row) in rows.iter().enumerate() {
        out = with(out, z, has(*row, y));
    }
    out
}

// The relation turned round: its columns as rows.
pub fn turned(rows: &[u32; 17]) -> [u32; 17]
    ensures { Turned result rows.now }
{
    let mut out = [0u32; 17];
    for y in 0..17 {
        out[y] = column(rows, y);
    }
    out
}

// A row in which the higher is replaced by the lower.
fn renamed_row(row: u32, pair: Pair) -> u32
    ensures { bit result ≡ renamed_row pair.lo.0 pair.hi.0 (bit row) }
{
    let lo = pair.lo.0;
    let hi = pair.hi.0;
    let moved = ((row >> hi) & 1) << lo;
    without(row, only(hi)) | moved
}

// In every row, the lower number stands where the higher did.
fn merge_columns(rows: &mut [u32], pair: Pair)
    requires { length rows.old ≡ 17 }
    ensures { (square rows.new ≡ columns pair.lo.0 pair.hi.0 (square rows.old)) × (length rows.new ≡ 17) }
{
    for a in 0..17 {
        rows[a] = renamed_row(rows[a], pair);
    }
}

// The lower row gets what the higher holds, and the higher is cleared.
fn merge_rows(cells: &mut [u32], pair: Pair)
    requires { length cells.old ≡ 17 }
    ensures { (square cells.new ≡ rows pair.lo.0 pair.hi.0 (square cells.old)) × (length cells.new ≡ 17) }
{
    cells[pair.lo.0] |= cells[pair.hi.0];
    cells[pair.hi.0] = 0;
}

// The higher is replaced by the lower in a relation.
pub fn replace_in(rows: &mut [u32], pair: Pair)
    requires { length rows.old ≡ 17 }
    ensures { (square rows.new ≡ replace_in pair.lo.0 pair.hi.0 (square rows.old)) × (length rows.new ≡ 17) }
{
    merge_columns(rows, pair);
    merge_rows(rows, pair);
}

// The row of the successors of t.
pub fn successor_row(link: &[u32; 17], n: usize, t: Term) -> u32
    requires { (n ≤ 16) × (t.0 ≤ 16) }
    ensures { (i : ℕ) → bit result i ≡ square link.now t.0 i and (ltb 0 i and ltb i (n + 1)) }
{
    link[t.0] & term_row(n)
}

// The lowest successor of t.
pub fn successor(link: &[u32; 17], n: usize, t: Term) -> Option<Term>
    requires { (n ≤ 16) × (t.0 ≤ 16) }
    ensures { found_of result ≡ find (square link.now t.0) (terms n) }
{
    first(successor_row(link, n, t))
}
