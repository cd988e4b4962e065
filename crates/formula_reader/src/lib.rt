// Reading a formula's text: readers for or, and, item that call each other and leave the formula as nodes in an array.
#![tactic(auto)]

ghost use Rattle.std.specs.Prelude.{◌≡◌, true, ◌+◌, ◌*◌, ◌-◌, ◌≤◌, ◌<◌, length, get_or, drop};
ghost use Rattle.formula.specs.Grammar.{is_place, shown, disjunction, conjunction, item};
ghost use Rattle.formula.specs.Places.{digits_at, past_digits};
ghost use Rattle.formula.specs.Reader.{mark, past_blanks, read_text};
ghost use Rattle.formula_reader.specs.Tree.{capped, put_node, has};
ghost use Rattle.formula_reader.specs.Answers.{stands, StartsAs, saturated, Ranged, FoundAs, ReadAs, Counts, NamedAs, ClosedAs};
ghost use Rattle.formula_reader.specs.Marked.{Pickable, Picked};

use refusals::{Fault, Refusal};

// A formula that was read: the place behind it, and the number of nodes up to its own.
#[derive(Clone, Copy)]
pub struct Parsed {
    pub next: usize,
    pub used: usize,
}

// What begins an item.
#[derive(Drop)]
enum Start {
    Opening,
    Name(usize),
}

fn start_of(b: u8) -> Option<Start>
    ensures { StartsAs result (mark b) }
{
    match b {
        40 => Some(Start::Opening),
        69 => Some(Start::Name(0)),
        82 => Some(Start::Name(1)),
        68 => Some(Start::Name(2)),
        66 => Some(Start::Name(3)),
        _ => None,
    }
}

// The byte b stands at a place.
fn stands(text: &[u8], at: usize, b: u8) -> bool
    ensures { result ≡ stands text.now at b }
{
    if at < text.len() {
        return text[at] == b;
    }
    false
}

// The place behind blanks, and behind digits: two loops, since each is held to a definition of its own, and one loop with the test as a
// closure would need a law of each test besides.
fn past_blanks(text: &[u8], at: usize) -> usize
    requires { at ≤ length text.now }
    ensures { (at ≤ result) × (result ≤ length text.now) × (drop result text.now ≡ past_blanks (drop at text.now)) }
{
    for i in at..text.len() {
        let b = text[i];
        if b != 32 {
            return i;
        }
    }
    text.len()
}

fn past_digits(text: &[u8], at: usize) -> usize
    requires { at ≤ length text.now }
    ensures { (at ≤ result) × (result ≤ length text.now) × (drop result text.now ≡ past_digits (drop at text.now)) }
{
    for i in at..text.len() {
        let b = text[i];
        if b < 48 {
            return i;
        }
        if 57 < b {
            return i;
        }
    }
    text.len()
}

// The digits at a place are a literal's place: "from 1, no leading zero".
fn is_place(text: &[u8], at: usize) -> bool
    requires { at ≤ length text.now }
    ensures { result ≡ is_place (digits_at (drop at text.now)) }
{
    if at < text.len() {
        let b = text[at];
        return (49 <= b) & (b <= 57);
    }
    false
}

// A digit behind a number.
fn with_digit(v: usize, b: u8) -> usize
    requires { (v ≤ 100) × (48 ≤ b) × (b ≤ 57) }
    ensures { result ≡ saturated (10 * v + (b - 48)) }
{
    let w = 10 * v + (b - 48) as usize;
    if 99 < w {
        return 100;
    }
    w
}

// The number that the digits at a place show.
fn place_at(text: &[u8], at: usize) -> usize
    requires { at ≤ length text.now }
    ensures { result ≡ saturated (shown 0 (digits_at (drop at text.now))) }
{
    let mut v: usize = 0;
    for i in at..text.len() {
        let b = text[i];
        if b < 48 {
            return v;
        }
        if 57 < b {
            return v;
        }
        v = with_digit(v, b);
    }
    v
}

// "more than 64 conjunctions" are not told apart.
fn capped(n: usize) -> usize
    ensures { (result ≡ capped n) × (result ≤ 65) }
{
    if 64 < n {
        return 65;
    }
    n
}

fn put_node(nodes: &mut [usize; 2048], i: usize, kind: usize, a: usize, b: usize, count: usize)
    requires { i < 512 }
    ensures { nodes.new ≡ put_node nodes.old i kind a b count }
{
    nodes[4 * i] = kind;
    nodes[4 * i + 1] = a;
    nodes[4 * i + 2] = b;
    nodes[4 * i + 3] = count;
}

// How many conjunctions a node has.
pub fn count_at(nodes: &[usize; 2048], i: usize) -> usize
    requires { i < 512 }
    ensures { result ≡ get_or nodes.now (4 * i + 3) 0 }
{
    nodes[4 * i + 3]
}

// The node of an and, or of an or, behind the nodes of its two sides: two functions, since one would take the kind and the count that goes
// with it as parameters, which reads no plainer.
fn put_both(nodes: &mut [usize; 2048], a: usize, b: usize)
    requires { (a < 511) × (b < 511) }
    ensures { nodes.new ≡ put_node nodes.old (b + 1) 4 a b (capped (capped (get_or nodes.old (4 * a + 3) 0) * capped (get_or nodes.old (4 * b + 3) 0))) }
{
    let count = capped(capped(count_at(nodes, a)) * capped(count_at(nodes, b)));
    put_node(nodes, b + 1, 4, a, b, count);
}

fn put_either(nodes: &mut [usize; 2048], a: usize, b: usize)
    requires { (a < 511) × (b < 511) }
    ensures { nodes.new ≡ put_node nodes.old (b + 1) 5 a b (capped (capped (get_or nodes.old (4 * a + 3) 0) + capped (get_or nodes.old (4 * b + 3) 0))) }
{
    let count = capped(capped(count_at(nodes, a)) + capped(count_at(nodes, b)));
    put_node(nodes, b + 1, 5, a, b, count);
}

// A name, from its letter on.
fn read_name(
    text: &[u8],
    at: usize,
    code: usize,
    counts: &[usize; 4],
    nodes: &mut [usize; 2048],
    used: usize,
) -> Result<Parsed, Refusal>
    requires { (at < length text.now) × (length text.now ≤ 512) × (used ≤ at) × (code < 4) × Counts counts.now × (length nodes.old ≡ 2048) }
    ensures ranged { Ranged result text.now at used nodes.old nodes.new }
    ensures named_as { NamedAs result code text.now at counts.now nodes.new }
{
    let first = at + 1;
    if !is_place(text, first) {
        return Err(Fault::FormulaText.at(first));
    }
    let n = place_at(text, first);
    if counts[code] < n {
        return Err(Fault::FormulaText.at(at));
    }
    let digits_end = past_digits(text, first);
    let next = past_blanks(text, digits_end);
    put_node(nodes, used, code, n, 0, 1);
    Ok(Parsed {
        next,
        used: used + 1,
    })
}

// What stands behind an or in parentheses.
fn close_item(text: &[u8], at: usize, used: usize) -> Result<Parsed, Refusal>
    requires { at ≤ length text.now }
    ensures { ClosedAs result text.now at used }
{
    if !stands(text, at, 41) {
        return Err(Fault::FormulaText.at(at));
    }
    let next = past_blanks(text, at + 1);
    Ok(Parsed { next, used })
}

// "An or is read as ands, an and as items, and an item in parentheses is an or again": at most `left` parentheses deep.
#[cycle(read_and_read_item_read_or)]
fn read_or(
    text: &[u8],
    at: usize,
    left: usize,
    counts: &[usize; 4],
    nodes: &mut [usize; 2048],
    used: usize,
) -> Result<Parsed, Refusal>
    requires { (at ≤ length text.now) × (length text.now ≤ 512) × (used ≤ at) × Counts counts.now × (length nodes.old ≡ 2048) }
    ensures ranged { Ranged result text.now at used nodes.old nodes.new }
    ensures read_as { ReadAs result disjunction text.now at left counts.now nodes.new }
{
    let first = read_and(text, at, left, counts, nodes, used)?;
    if !stands(text, first.next, 124) {
        return Ok(first);
    }
    let second = read_or(text, first.next + 1, left, counts, nodes, first.used)?;
    put_either(nodes, first.used - 1, second.used - 1);
    Ok(Parsed {
        next: second.next,
        used: second.used + 1,
    })
}

#[cycle(read_and_read_item_read_or)]
fn read_and(
    text: &[u8],
    at: usize,
    left: usize,
    counts: &[usize; 4],
    nodes: &mut [usize; 2048],
    used: usize,
) -> Result<Parsed, Refusal>
    requires { (at ≤ length text.now) × (length text.now ≤ 512) × (used ≤ at) × Counts counts.now × (length nodes.old ≡ 2048) }
    ensures ranged { Ranged result text.now at used nodes.old nodes.new }
    ensures read_as { ReadAs result conjunction text.now at left counts.now nodes.new }
{
    let first = read_item(text, at, left, counts, nodes, used)?;
    if !stands(text, first.next, 38) {
        return Ok(first);
    }
    let second = read_and(text, first.next + 1, left, counts, nodes, first.used)?;
    put_both(nodes, first.used - 1, second.used - 1);
    Ok(Parsed {
        next: second.next,
        used: second.used + 1,
    })
}

#[cycle(read_and_read_item_read_or)]
fn read_item(
    text: &[u8],
    at: usize,
    left: usize,
    counts: &[usize; 4],
    nodes: &mut [usize; 2048],
    used: usize,
) -> Result<Parsed, Refusal>
    requires { (at ≤ length text.now) × (length text.now ≤ 512) × (used ≤ at) × Counts counts.now × (length nodes.old ≡ 2048) }
    ensures ranged { Ranged result text.now at used nodes.old nodes.new }
    ensures read_as { ReadAs result item text.now at left counts.now nodes.new }
{
    let from = past_blanks(text, at);
    if from == text.len() {
        return Err(Fault::FormulaText.at(from));
    }
    match start_of(text[from]) {
        None => Err(Fault::FormulaText.at(from)),
        Some(Start::Name(code)) => read_name(text, from, code, counts, nodes, used),
        Some(Start::Opening) => {
            if left == 0 {
                return Err(Fault::FormulaDepth.at(from));
            }
            let inner = read_or(text, from + 1, left - 1, counts, nodes, used)?;
            close_item(text, inner.next, inner.used)
        }
    }
}

// The formula of a text of at most 512 bytes over a query with so many literals of each section, or the text's first fault.
pub fn read_text(
    text: &[u8],
    counts: &[usize; 4],
    nodes: &mut [usize; 2048],
) -> Result<Parsed, Refusal>
    requires { (length text.now ≤ 512) × Counts counts.now × (length nodes.old ≡ 2048) }
    ensures ranged { Ranged result text.now 0 0 nodes.old nodes.new }
    ensures found_as { FoundAs result text.now nodes.new (read_text (has counts.now) 32 text.now) }
{
    let parsed = read_or(text, 0, 32, counts, nodes, 0)?;
    if parsed.next < text.len() {
        return Err(Fault::FormulaText.at(parsed.next));
    }
    Ok(parsed)
}

// The literals of conjunction k, counted from 0, of the formula at node i: "an and varies its right side fastest".
pub fn mark_literals(nodes: &[usize; 2048], i: usize, k: usize, marks: &mut [bool; 256])
    requires { Pickable nodes.now i k × (length marks.old ≡ 256) }
    ensures { Picked nodes.now i k marks.old marks.new }
{
    let kind = nodes[4 * i];
    let a = nodes[4 * i + 1];
    if kind < 4 {
        marks[64 * kind + a] = true;
        return;
    }
    let b = nodes[4 * i + 2];
    if kind == 4 {
        let fast = count_at(nodes, b);
        mark_literals(nodes, a, k / fast, marks);
        mark_literals(nodes, b, k % fast, marks);
        return;
    }
    let first = count_at(nodes, a);
    if k < first {
        mark_literals(nodes, a, k, marks);
        return;
    }
    mark_literals(nodes, b, k - first, marks);
}
