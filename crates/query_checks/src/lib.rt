// Refusals 5 to 8 of the bytes of a query that is laid out, and the checks of a query in the form of 01: refusals 2 to 8 and 26.
#![tactic(auto)]

ghost use Rattle.refusals.specs.Numbers.{number_of};
ghost use Rattle.query.specs.Sections.{Sections};
ghost use Rattle.query_checks.specs.Answers.{FoundIn, PassesIn, BytesChecked, StandsFor, FullCheckedAs, CheckedAs};

use query::{FullLayout, Layout};
use refusals::{Fault, Refusal};

// "For 5 to 8 the whole query is searched for one fault before the next, and the place is the lowest such byte."
fn byte_fault(fault: Fault, query: &[u8], full: FullLayout) -> Option<usize>
    requires { Sections full query.now }
    ensures { FoundIn result (number_of fault) full.layout.links query.now }
{
    let l = full.layout;
    let n = l.terms;
    if let Some(place) = entries::section_fault(fault, query::entry_kind(l.links), n, query, 1, n) {
        return Some(place);
    }
    if let Some(place) = entries::section_fault(
        fault,
        entries::Kind::Pairs,
        n,
        query,
        l.equal_at,
        l.equal_count,
    ) {
        return Some(place);
    }
    if let Some(place) = entries::section_fault(
        fault,
        query::reach_kind(l.links),
        n,
        query,
        l.reach_at,
        l.reach_count,
    ) {
        return Some(place);
    }
    if let Some(place) = entries::section_fault(
        fault,
        entries::Kind::Fields,
        n,
        query,
        l.field_at,
        l.field_count,
    ) {
        return Some(place);
    }
    entries::section_fault(
        fault,
        entries::Kind::Booleans,
        n,
        query,
        full.boolean_at,
        full.boolean_count,
    )
}

// No byte meets a refusal 5 to 8.
fn bytes_pass(query: &[u8], full: FullLayout) -> bool
    requires { Sections full query.now }
    ensures { PassesIn result full.layout.links query.now }
{
    let l = full.layout;
    let n = l.terms;
    let terms = entries::section_passes(query::entry_kind(l.links), n, query, 1, n);
    let equal = entries::section_passes(entries::Kind::Pairs, n, query, l.equal_at, l.equal_count);
    let reach = entries::section_passes(
        query::reach_kind(l.links),
        n,
        query,
        l.reach_at,
        l.reach_count,
    );
    let field = entries::section_passes(entries::Kind::Fields, n, query, l.field_at, l.field_count);
    let boolean = entries::section_passes(
        entries::Kind::Booleans,
        n,
        query,
        full.boolean_at,
        full.boolean_count,
    );
    terms & equal & reach & field & boolean
}

// Refusals 5 to 8, of a query that is laid out. Most queries pass, which one look at each byte tells: only the others are searched.
pub fn check_bytes(query: &[u8], full: FullLayout) -> Result<FullLayout, Refusal>
    requires { Sections full query.now }
    ensures { BytesChecked result full query.now }
{
    if bytes_pass(query, full) {
        return Ok(full);
    }
    for fault in [
        Fault::TermByte,
        Fault::Sign,
        Fault::TermNumber,
        Fault::FieldNumber,
    ] {
        if let Some(place) = byte_fault(fault, query, full) {
            return Err(fault.at(place));
        }
    }
    Ok(full)
}

// What more booleans than pass are refused with, by its number. Of any other number than these four the refusal is left free.
fn excess_fault(number: usize) -> Fault
    ensures { StandsFor result number }
{
    if number == 2 {
        return Fault::QueryEnds;
    }
    if number == 4 {
        return Fault::TrailingBytes;
    }
    if number == 26 {
        return Fault::BooleanCount;
    }
    Fault::CountAboveLimit
}

// "Refusals, in checking order", of a query in the form where `most` booleans pass and more are refused `excess`: 2 to 8, and `excess`
// before 4.
pub fn check_with(query: &[u8], most: usize, excess: usize) -> Result<FullLayout, Refusal>
    ensures { FullCheckedAs result query.now most excess }
{
    let full = query::lay_out(query, 1, most, excess_fault(excess))?;
    check_bytes(query, full)
}

// The same of a query as it is now: "Its count must now be 0", and 26 "instead of 3" (02, R-13).
pub fn check(query: &[u8]) -> Result<Layout, Refusal>
    ensures { CheckedAs result query.now }
{
    let full = check_with(query, 0, Fault::BooleanCount.number())?;
    Ok(full.layout)
}
