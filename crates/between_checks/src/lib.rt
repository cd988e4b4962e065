// Refusals 2 to 8 and 26 over six sections: the five of a query, and one of between literals.
#![tactic(auto)]

ghost use Rattle.std.specs.Prelude.{◌≡◌, [], ◌∷◌, ◌+◌, ◌*◌, ◌≤◌, ◌<◌, length, drop};
ghost use Rattle.logic.specs.Query.{sign_role, term_role, role_fault, faulty, layout_of};
ghost use Rattle.refusals.specs.Numbers.{number_of};
ghost use Rattle.entries.specs.Entries.{found_of};
ghost use Rattle.between_checks.specs.Answers.{sixth_fault, SixthBelow, SixthRead, Sixth, SixCheckedAs};

use query::Layout;
use refusals::{Fault, Refusal};

// Where six sections stand: the first five, which end at `at`, and how many between literals follow the count that stands there.
#[derive(Drop)]
pub struct SixLayout {
    pub base: Layout,
    pub at: usize,
    pub count: usize,
}

// The lowest byte of a between literal that meets a refusal: "7 in the sixth too".
fn triple_fault(fault: Fault, n: usize, query: &[u8], at: usize) -> Option<usize>
    requires { at + 4 ≤ length query.now }
    ensures { found_of result ≡ role_fault (number_of fault) at (sign_role ∷ term_role n ∷ term_role n ∷ term_role n ∷ []) (drop at query.now) }
{
    if byte_tests::sign_refused(fault, entries::byte_at(query, at)) {
        return Some(at);
    }
    for place in at + 1..at + 4 {
        if byte_tests::number_refused(fault, Fault::TermNumber, n, entries::byte_at(query, place)) {
            return Some(place);
        }
    }
    None
}

// The lowest byte that meets a refusal, among `count` between literals at `at`.
fn sixth_fault(fault: Fault, n: usize, query: &[u8], at: usize, count: usize) -> Option<usize>
    requires { at + count * 4 ≤ length query.now }
    ensures { found_of result ≡ sixth_fault (number_of fault) n at count query.now }
{
    let mut place = at;
    for _ in 0..count {
        if let Some(found) = triple_fault(fault, n, query, place) {
            return Some(found);
        }
        place += 4;
    }
    None
}

// The refusals numbered below `limit` that the sixth section meets: 6, then 7.
fn sixth_below(n: usize, query: &[u8], at: usize, count: usize, limit: usize) -> Result<(), Refusal>
    requires { at + count * 4 ≤ length query.now }
    ensures { SixthBelow result n at count query.now limit }
{
    if limit < 7 {
        return Ok(());
    }
    if let Some(place) = sixth_fault(Fault::Sign, n, query, at, count) {
        return Err(Fault::Sign.at(place));
    }
    if limit < 8 {
        return Ok(());
    }
    if let Some(place) = sixth_fault(Fault::TermNumber, n, query, at, count) {
        return Err(Fault::TermNumber.at(place));
    }
    Ok(())
}

// How many literals the sixth section has, whose count stands at `at`: refusals 2 to 4.
fn read_sixth(query: &[u8], at: usize) -> Result<usize, Refusal>
    requires { at < length query.now }
    ensures { SixthRead result query.now at }
{
    let len = query.len();
    let count = query[at] as usize;
    if 60 < count {
        return Err(Fault::CountAboveLimit.at(at));
    }
    let size = count * 4;
    let left = len - at - 1;
    if left < size {
        return Err(Fault::QueryEnds.at(len));
    }
    let end = at + 1 + size;
    if end < len {
        return Err(Fault::TrailingBytes.at(end));
    }
    Ok(count)
}

// "The whole query is searched for one fault before the next": refusals 5 to 8 of six sections that are laid out.
fn check_bytes(query: &[u8], at: usize, count: usize) -> Result<SixLayout, Refusal>
    requires { Sixth query.now at count }
    ensures { SixCheckedAs result query.now }
{
    let n = entries::byte_at(query, 0);
    match query_checks::check(&query[..at]) {
        Err(refusal) => {
            sixth_below(n, query, at + 1, count, refusal.fault.number())?;
            Err(refusal)
        }
        Ok(base) => {
            sixth_below(n, query, at + 1, count, 9)?;
            Ok(SixLayout { base, at, count })
        }
    }
}

// Six sections, of which the first five end at `at`.
fn check_sixth(query: &[u8], at: usize) -> Result<SixLayout, Refusal>
    requires { layout_of query.now ≡ faulty 4 at }
    ensures { SixCheckedAs result query.now }
{
    let count = read_sixth(query, at)?;
    check_bytes(query, at, count)
}

// Refusals 2 to 8 and 26. Bytes that follow five sections are the sixth; where none do, the query ends before the sixth's count.
pub fn check(query: &[u8]) -> Result<SixLayout, Refusal>
    ensures { SixCheckedAs result query.now }
{
    match query_checks::check(query) {
        Ok(_) => Err(Fault::QueryEnds.at(query.len())),
        Err(refusal) => match refusal.fault {
            Fault::QueryEnds | Fault::CountAboveLimit | Fault::BooleanCount => Err(refusal),
            Fault::TrailingBytes => check_sixth(query, refusal.place),
            _ => Err(Fault::QueryEnds.at(query.len())),
        },
    }
}
