// The shortest ring of a sheet's pairs.
#![tactic(auto)]

ghost use Rattle.std.specs.Prelude.{◌≡◌, true, false, ◌∷◌, ℕ, ◌-◌, ◌≤◌, ◌<◌, length, get_or, eqb};
ghost use Rattle.logic.specs.Search.{◌and◌, any};
ghost use Rattle.logic.specs.Calls.{padded};
ghost use Rattle.ordering.specs.Sheet.{pairs, laid_out, rules_only, paired};
ghost use Rattle.ordering.specs.Finding.{leads, onward, next_on, follow, ring_start, shown_ring};
ghost use Rattle.pair_rings.specs.Answers.{found_of};

// A pair leads from a to b.
fn is_paired(sheet: &[u8], a: u8, b: u8) -> bool
    requires { laid_out sheet.now ≡ true }
    ensures { result ≡ paired (pairs sheet.now) a b }
{
    let end = sheet_reader::count(sheet);
    for i in 0..end {
        let from = sheet_reader::earlier(sheet, i) == a;
        let to = sheet_reader::later(sheet, i) == b;
        if from & to {
            return true;
        }
    }
    false
}

// The numbers from which a pair leads to a marked one.
fn step_back(sheet: &[u8], row: [bool; 9]) -> [bool; 9]
    requires { (laid_out sheet.now ≡ true) × (rules_only sheet.now ≡ true) }
    ensures { (a : ℕ) → a < 9 → get_or result a false ≡ any (λ p. eqb p.earlier a and get_or row p.later false) (pairs sheet.now) }
{
    let end = sheet_reader::count(sheet);
    let mut out = [false; 9];
    for i in 0..end {
        let from = sheet_reader::earlier(sheet, i) as usize;
        let to = sheet_reader::later(sheet, i) as usize;
        out[from] |= row[to];
    }
    out
}

// The numbers from which k pairs lead to z.
fn row_to(sheet: &[u8], k: usize, z: u8) -> [bool; 9]
    requires { (laid_out sheet.now ≡ true) × (rules_only sheet.now ≡ true) × (z ≤ 8) }
    ensures { (a : ℕ) → a < 9 → get_or result a false ≡ leads (pairs sheet.now) k a z }
{
    let at = z as usize;
    let mut row = [false; 9];
    row[at] = true;
    for _j in 0..k {
        row = step_back(sheet, row);
    }
    row
}

// k pairs lead from a to z.
fn is_led(sheet: &[u8], k: usize, a: u8, z: u8) -> bool
    requires { (laid_out sheet.now ≡ true) × (rules_only sheet.now ≡ true) × (a ≤ 8) × (z ≤ 8) }
    ensures { result ≡ leads (pairs sheet.now) k a z }
{
    let row = row_to(sheet, k, z);
    let at = a as usize;
    row[at]
}

// A pair leads from a to r, and k pairs from there to z.
fn is_onward(sheet: &[u8], z: u8, k: usize, a: u8, r: u8) -> bool
    requires { (laid_out sheet.now ≡ true) × (rules_only sheet.now ≡ true) × (z ≤ 8) × (r ≤ 8) }
    ensures { result ≡ onward (pairs sheet.now) z k a r }
{
    if !is_paired(sheet, a, r) {
        return false;
    }
    is_led(sheet, k, r, z)
}

// The lowest number after a from which the rest of the way leads to z.
fn next_on(sheet: &[u8], z: u8, k: usize, a: u8) -> u8
    requires { (laid_out sheet.now ≡ true) × (rules_only sheet.now ≡ true) × (z ≤ 8) }
    ensures { result ≡ next_on (pairs sheet.now) z k a }
{
    for r in 1..9 {
        if is_onward(sheet, z, k, a, r) {
            return r;
        }
    }
    0
}

// The ring of k numbers that is followed from s.
fn follow_ring(sheet: &[u8], k: usize, s: u8) -> [u8; 8]
    requires { (laid_out sheet.now ≡ true) × (rules_only sheet.now ≡ true) × (1 ≤ k) × (k ≤ 8) × (s ≤ 8) }
    ensures { (length result ≡ 8) × (result ≡ padded 8 (s ∷ follow (pairs sheet.now) s (k - 1) s)) }
{
    let mut ring = [0u8; 8];
    ring[0] = s;
    let mut a = s;
    for n in 1..k {
        a = next_on(sheet, s, k - n, a);
        ring[n] = a;
    }
    ring
}

// The lowest number from which k pairs lead back to it.
fn ring_start(sheet: &[u8], k: usize) -> Option<u8>
    requires { (laid_out sheet.now ≡ true) × (rules_only sheet.now ≡ true) }
    ensures { found_of result ≡ ring_start (pairs sheet.now) k }
{
    for s in 1..9 {
        if is_led(sheet, k, s, s) {
            return Some(s);
        }
    }
    None
}

// The shortest ring, "zeros to eight".
pub fn shown_ring(sheet: &[u8]) -> [u8; 8]
    requires { (laid_out sheet.now ≡ true) × (rules_only sheet.now ≡ true) }
    ensures { (length result ≡ 8) × (result ≡ padded 8 (shown_ring (pairs sheet.now))) }
{
    for k in 1..9 {
        if let Some(s) = ring_start(sheet, k) {
            return follow_ring(sheet, k, s);
        }
    }
    [0; 8]
}
