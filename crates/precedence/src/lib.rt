// Order lists from a precedence sheet: the smallest order list that keeps every pair, or the shortest ring of pairs.
#![tactic(auto)]

ghost use Rattle.std.specs.Prelude.{◌≡◌, true, [], ◌++◌, ◌-◌, ◌≤◌, length, replicate};
ghost use Rattle.logic.specs.Search.{all};
ghost use Rattle.ordering.specs.Sheet.{pairs, laid_out, rules_only};
ghost use Rattle.ordering.specs.Finding.{free, ready, next_rule, grow};
ghost use Rattle.ordering.specs.Calls.{answered, order_call};
ghost use Rattle.pair_rings.specs.Answers.{found_of};
ghost use Rattle.precedence.specs.Answers.{Does, DoesAnswer};

use refusals::{Fault, Refusal};

// What the call answers for a sheet: an order, or none and its ring.
#[derive(Clone, Copy, PartialEq, Eq)]
pub enum OrderAnswer {
    Order,
    Ring,
}

// Whatever is earlier than r is placed.
fn is_free(sheet: &[u8], placed: &[u8], r: u8) -> bool
    requires { laid_out sheet.now ≡ true }
    ensures { result ≡ all (free placed.now r) (pairs sheet.now) }
{
    let end = sheet_reader::count(sheet);
    for i in 0..end {
        let here = sheet_reader::later(sheet, i) == r;
        let earlier = sheet_reader::earlier(sheet, i);
        let before = placed.contains(&earlier);
        if here & !before {
            return false;
        }
    }
    true
}

// r can stand next after the numbers placed.
fn is_ready(sheet: &[u8], placed: &[u8], r: u8) -> bool
    requires { laid_out sheet.now ≡ true }
    ensures { result ≡ ready (pairs sheet.now) placed.now r }
{
    if placed.contains(&r) {
        return false;
    }
    is_free(sheet, placed, r)
}

// The lowest rule that can stand next.
fn next_rule(sheet: &[u8], placed: &[u8]) -> Option<u8>
    requires { laid_out sheet.now ≡ true }
    ensures { found_of result ≡ next_rule (pairs sheet.now) placed.now }
{
    for r in 1..9 {
        if is_ready(sheet, placed, r) {
            return Some(r);
        }
    }
    None
}

// The order list, where all rules can be placed one by one.
fn place_all(sheet: &[u8]) -> Option<[u8; 8]>
    requires { laid_out sheet.now ≡ true }
    ensures { found_of result ≡ grow (pairs sheet.now) 8 [] }
{
    let mut list = [0u8; 8];
    for n in 0..8 {
        let r = next_rule(sheet, &list[..n])?;
        list[n] = r;
    }
    Some(list)
}

// The eight numbers, at the front of a blank buffer.
fn write(out: &mut [u8], list: &[u8; 8])
    requires { (8 ≤ length out.old) × (length list.now ≡ 8) × (out.old ≡ replicate (length out.old) 0) }
    ensures { out.new ≡ list.now ++ replicate (length out.old - 8) 0 }
{
    out[..8].copy_from_slice(list);
}

// The answer for a sheet that passes its checks, in a blank buffer.
fn answer(sheet: &[u8], out: &mut [u8]) -> OrderAnswer
    requires { (laid_out sheet.now ≡ true) × (rules_only sheet.now ≡ true) × (8 ≤ length out.old) × (out.old ≡ replicate (length out.old) 0) }
    ensures { DoesAnswer (answered (pairs sheet.now) (length out.old)) result out.new }
{
    match place_all(sheet) {
        Some(list) => {
            write(out, &list);
            OrderAnswer::Order
        }
        None => {
            let ring = pair_rings::shown_ring(sheet);
            write(out, &ring);
            OrderAnswer::Ring
        }
    }
}

// The order list of a sheet, or none and its ring: "Checks: 15 wrong length or count, then 16 a rule number not 1 to 8", and 14 where
// fewer than eight bytes are lent.
pub fn order_of(sheet: &[u8], out: &mut [u8]) -> Result<OrderAnswer, Refusal>
    ensures { Does (order_call sheet.now (length out.old)) result out.new }
{
    lent::clear(out);
    if !sheet_reader::laid_out(sheet) {
        return Err(Fault::SheetLength.at(0));
    }
    if !sheet_reader::rules_only(sheet) {
        return Err(Fault::SheetRule.at(0));
    }
    if out.len() < 8 {
        return Err(Fault::TextBuffer.at(0));
    }
    Ok(answer(sheet, out))
}
