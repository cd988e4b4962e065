// Queries with three links (02, R-11): refusals 2, 3, 26, 4, 22 and 5 to 8, and the bytes of a query of either form read in place.
#![tactic(auto)]

ghost use Rattle.std.specs.Prelude.{◌≡◌, ◌+◌, ◌*◌, ◌≤◌, ◌<◌, length, get_or};
ghost use Rattle.logic.specs.ThreeLinks.{three_link_form};
ghost use Rattle.query.specs.Sections.{Sections};
ghost use Rattle.link_query.specs.Said.{entry_width, reach_width, entry_in, link_in, reach_in};
ghost use Rattle.link_query.specs.Answers.{LinksChecked, CheckedBy};

use query::{FullLayout, Layout};
use refusals::{Fault, Refusal};
use rows::Term;

// "22 (the lowest such link byte)", of a query that is laid out: first of the terms, then of the reachability literals.
fn check_link_bytes(query: &[u8], full: FullLayout) -> Result<(), Refusal>
    requires { Sections full query.now × (full.boolean_count ≤ 0) × (full.layout.links ≡ 3) }
    ensures { LinksChecked result query.now }
{
    let l = full.layout;
    if let Some(place) = entries::link_fault(entries::Linked::Terms, query, 1, l.terms) {
        return Err(Fault::LinkByte.at(place));
    }
    if let Some(place) = entries::link_fault(
        entries::Linked::Pairs,
        query,
        l.reach_at,
        l.reach_count,
    ) {
        return Err(Fault::LinkByte.at(place));
    }
    Ok(())
}

// The walk from the front answers first, and then 22 "stands between 4 and 5".
pub fn check_links(query: &[u8]) -> Result<Layout, Refusal>
    ensures { CheckedBy three_link_form result query.now }
{
    let full = query::lay_out(query, 3, 0, Fault::BooleanCount)?;
    check_link_bytes(query, full)?;
    let checked = query_checks::check_bytes(query, full)?;
    Ok(checked.layout)
}

// Term t of a query of so many links: the byte of its entry.
pub fn entry(query: &[u8], links: usize, t: Term) -> usize
    requires { entry_width links * t.0 < length query.now }
    ensures { result ≡ entry_in links query.now t.0 }
{
    if links == 1 {
        return entries::byte_at(query, t.0);
    }
    entries::byte_at(query, 2 * t.0)
}

// The link that it follows, where it is f of a term.
pub fn entry_link(query: &[u8], links: usize, t: Term) -> usize
    requires { (1 ≤ t.0) × (entry_width links * t.0 < length query.now) }
    ensures { result ≡ link_in links query.now t.0 }
{
    if links == 1 {
        return 1;
    }
    entries::byte_at(query, 2 * t.0 - 1)
}

// Byte j of reachability literal i with three links, whose literals stand at `at`.
fn linked_byte(query: &[u8], at: usize, i: usize, j: usize) -> usize
    requires { (at + 4 * i + 4 ≤ length query.now) × (j < 4) }
    ensures { result ≡ get_or query.now (at + 4 * i + j) 0 }
{
    entries::byte_at(query, at + 4 * i + j)
}

// Reachability literal i of a query of so many links: whether it is plain, its link, and its two terms.
pub fn reach_sign(query: &[u8], links: usize, at: usize, i: usize) -> bool
    requires { at + reach_width links * i + reach_width links ≤ length query.now }
    ensures { result ≡ (reach_in links query.now at i).plain }
{
    if links == 1 {
        return query::sign(query, at, i);
    }
    linked_byte(query, at, i, 0) == 1
}

pub fn reach_link(query: &[u8], links: usize, at: usize, i: usize) -> usize
    requires { at + reach_width links * i + reach_width links ≤ length query.now }
    ensures { result ≡ (reach_in links query.now at i).link }
{
    if links == 1 {
        return 1;
    }
    linked_byte(query, at, i, 1)
}

pub fn reach_left(query: &[u8], links: usize, at: usize, i: usize) -> Term
    requires { at + reach_width links * i + reach_width links ≤ length query.now }
    ensures { result.0 ≡ (reach_in links query.now at i).left }
{
    if links == 1 {
        return query::left(query, at, i);
    }
    Term(linked_byte(query, at, i, 2))
}

pub fn reach_right(query: &[u8], links: usize, at: usize, i: usize) -> Term
    requires { at + reach_width links * i + reach_width links ≤ length query.now }
    ensures { result.0 ≡ (reach_in links query.now at i).right }
{
    if links == 1 {
        return query::right(query, at, i);
    }
    Term(linked_byte(query, at, i, 3))
}
