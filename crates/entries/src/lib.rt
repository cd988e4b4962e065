// One entry of a query's sections: what its bytes are held to, and the lowest byte that meets a refusal 5 to 8.
#![tactic(auto)]

ghost use Rattle.std.specs.Prelude.{◌≡◌, ◌+◌, ◌*◌, ◌≤◌, ◌<◌, length, get_or, drop};
ghost use Rattle.logic.specs.Search.{or_else};
ghost use Rattle.logic.specs.Query.{entry_role, sign_role, term_role, role_fault};
ghost use Rattle.refusals.specs.Numbers.{number_of};
ghost use Rattle.byte_tests.specs.Meets.{counted_role};
ghost use Rattle.entries.specs.Entries.{width_of, roles_at, fault_at, section_fault, found_of, concerned, flag_allowed, literal_allowed, Passes};
ghost use Rattle.entries.specs.Links.{linked_terms, linked_pairs, linked_width, link_at, links_from};

use refusals::Fault;
use rows::Term;

// What the bytes of a section's entries are held to: equalities and reachability literals are pairs of terms. With three links (02, R-11) a
// link stands before the byte of a term, and before the terms of a reachability literal.
#[derive(Clone, Copy)]
pub enum Kind {
    Terms,
    Pairs,
    Fields,
    Booleans,
    LinkedTerms,
    LinkedPairs,
}

// The entries that hold a link.
#[derive(Clone, Copy)]
pub enum Linked {
    Terms,
    Pairs,
}

// The byte at a place of the query.
pub fn byte_at(query: &[u8], place: usize) -> usize
    requires { place < length query.now }
    ensures { result ≡ get_or query.now place 0 }
{
    query[place] as usize
}

// A number from 1 to `most`, and what is wrong with any other.
#[derive(Clone, Copy)]
struct Numbers {
    own: Fault,
    most: usize,
}

// The lowest byte of an entry that meets a refusal: of a term, of a boolean literal with its number at `left`, and of a literal with two
// numbers from `left` on.
fn term_fault(fault: Fault, t: Term, query: &[u8], at: usize) -> Option<usize>
    requires { at + 1 ≤ length query.now }
    ensures { found_of result ≡ fault_at (entry_role t.0) (number_of fault) query.now at }
{
    if byte_tests::entry_refused(fault.number(), t.0, byte_at(query, at)) {
        return Some(at);
    }
    None
}

fn flag_fault(fault: Fault, numbers: Numbers, query: &[u8], at: usize, left: usize) -> Option<usize>
    requires { (at < left) × (left + 1 ≤ length query.now) }
    ensures { found_of result ≡ or_else (fault_at sign_role (number_of fault) query.now at) (fault_at (counted_role (number_of numbers.own) numbers.most) (number_of fault) query.now left) }
{
    if byte_tests::sign_refused(fault, byte_at(query, at)) {
        return Some(at);
    }
    if byte_tests::number_refused(fault, numbers.own, numbers.most, byte_at(query, left)) {
        return Some(left);
    }
    None
}

fn literal_fault(
    fault: Fault,
    numbers: Numbers,
    n: usize,
    query: &[u8],
    at: usize,
    left: usize,
) -> Option<usize>
    requires { (at < left) × (left + 2 ≤ length query.now) }
    ensures { found_of result ≡ or_else (or_else (fault_at sign_role (number_of fault) query.now at) (fault_at (counted_role (number_of numbers.own) numbers.most) (number_of fault) query.now left)) (fault_at (term_role n) (number_of fault) query.now (left + 1)) }
{
    if let Some(place) = flag_fault(fault, numbers, query, at, left) {
        return Some(place);
    }
    let right = left + 1;
    if byte_tests::number_refused(fault, Fault::TermNumber, n, byte_at(query, right)) {
        return Some(right);
    }
    None
}

// Entry i, by the kind of its section.
fn entry_fault(
    fault: Fault,
    kind: Kind,
    n: usize,
    i: usize,
    query: &[u8],
    at: usize,
) -> Option<usize>
    requires { at + width_of kind ≤ length query.now }
    ensures { found_of result ≡ role_fault (number_of fault) at (roles_at kind n i) (drop at query.now) }
{
    let terms = Numbers {
        own: Fault::TermNumber,
        most: n,
    };
    let fields = Numbers {
        own: Fault::FieldNumber,
        most: 8,
    };
    match kind {
        Kind::Terms => term_fault(fault, Term(i), query, at),
        Kind::Pairs => literal_fault(fault, terms, n, query, at, at + 1),
        Kind::Fields => literal_fault(fault, fields, n, query, at, at + 1),
        Kind::Booleans => flag_fault(fault, fields, query, at, at + 1),
        Kind::LinkedTerms => term_fault(fault, Term(i), query, at + 1),
        Kind::LinkedPairs => literal_fault(fault, terms, n, query, at, at + 2),
    }
}

// The bytes of an entry.
pub fn width(kind: Kind) -> usize
    ensures { result ≡ width_of kind }
{
    match kind {
        Kind::Terms => 1,
        Kind::Pairs => 3,
        Kind::Fields => 3,
        Kind::Booleans => 2,
        Kind::LinkedTerms => 2,
        Kind::LinkedPairs => 4,
    }
}

// Some byte of an entry is held to a refusal: where none is, a section need not be searched.
fn concerned(kind: Kind, fault: Fault) -> bool
    ensures { result ≡ concerned kind (number_of fault) }
{
    match kind {
        Kind::Terms | Kind::LinkedTerms => fault == Fault::TermByte,
        Kind::Pairs | Kind::LinkedPairs => (fault == Fault::Sign) | (fault == Fault::TermNumber),
        Kind::Fields => (fault == Fault::Sign)
            | (fault == Fault::TermNumber)
            | (fault == Fault::FieldNumber),
        Kind::Booleans => (fault == Fault::Sign) | (fault == Fault::FieldNumber),
    }
}

// The lowest byte that meets a refusal, among `count` entries at `at`.
pub fn section_fault(
    fault: Fault,
    kind: Kind,
    n: usize,
    query: &[u8],
    at: usize,
    count: usize,
) -> Option<usize>
    requires { at + count * width_of kind ≤ length query.now }
    ensures { found_of result ≡ section_fault (number_of fault) kind n at count query.now }
{
    if !concerned(kind, fault) {
        return None;
    }
    let step = width(kind);
    let mut place = at;
    for i in 0..count {
        if let Some(found) = entry_fault(fault, kind, n, i + 1, query, place) {
            return Some(found);
        }
        place += step;
    }
    None
}

// Every byte of an entry is allowed: of a boolean literal, of a literal with two numbers, and of any entry, by the kind of its section.
fn flag_passes(most: usize, query: &[u8], at: usize, left: usize) -> bool
    requires { (at < left) × (left + 1 ≤ length query.now) }
    ensures { result ≡ flag_allowed most query.now at left }
{
    let sign = byte_tests::sign_allowed(byte_at(query, at));
    let number = byte_tests::number_allowed(most, byte_at(query, left));
    sign & number
}

fn literal_passes(most: usize, n: usize, query: &[u8], at: usize, left: usize) -> bool
    requires { (at < left) × (left + 2 ≤ length query.now) }
    ensures { result ≡ literal_allowed most n query.now at left }
{
    let flag = flag_passes(most, query, at, left);
    let right = byte_tests::number_allowed(n, byte_at(query, left + 1));
    flag & right
}

fn entry_passes(kind: Kind, n: usize, i: usize, query: &[u8], at: usize) -> bool
    requires { at + width_of kind ≤ length query.now }
    ensures { Passes result (λ k. role_fault k at (roles_at kind n i) (drop at query.now)) }
{
    match kind {
        Kind::Terms => byte_tests::entry_allowed(i, byte_at(query, at)),
        Kind::Pairs => literal_passes(n, n, query, at, at + 1),
        Kind::Fields => literal_passes(8, n, query, at, at + 1),
        Kind::Booleans => flag_passes(8, query, at, at + 1),
        Kind::LinkedTerms => byte_tests::entry_allowed(i, byte_at(query, at + 1)),
        Kind::LinkedPairs => literal_passes(n, n, query, at, at + 2),
    }
}

// No byte meets a refusal 5 to 8, among `count` entries at `at`. Most queries pass, and this looks at each byte once, where the places of
// four refusals are searched one after the other.
pub fn section_passes(kind: Kind, n: usize, query: &[u8], at: usize, count: usize) -> bool
    requires { at + count * width_of kind ≤ length query.now }
    ensures { Passes result (λ k. section_fault k kind n at count query.now) }
{
    let step = width(kind);
    let mut place = at;
    for i in 0..count {
        if !entry_passes(kind, n, i + 1, query, place) {
            return false;
        }
        place += step;
    }
    true
}

// The link byte of an entry, where it may not stand there: of a term, and of a reachability literal.
fn term_link_fault(query: &[u8], at: usize) -> Option<usize>
    requires { at + 2 ≤ length query.now }
    ensures { found_of result ≡ link_at linked_terms query.now at }
{
    let link = byte_at(query, at);
    if byte_tests::may_precede(link, byte_at(query, at + 1)) {
        return None;
    }
    Some(at)
}

fn pair_link_fault(query: &[u8], at: usize) -> Option<usize>
    requires { at + 4 ≤ length query.now }
    ensures { found_of result ≡ link_at linked_pairs query.now at }
{
    let place = at + 1;
    if byte_tests::is_link(byte_at(query, place)) {
        return None;
    }
    Some(place)
}

fn entry_link_fault(linked: Linked, query: &[u8], at: usize) -> Option<usize>
    requires { at + linked_width linked ≤ length query.now }
    ensures { found_of result ≡ link_at linked query.now at }
{
    match linked {
        Linked::Terms => term_link_fault(query, at),
        Linked::Pairs => pair_link_fault(query, at),
    }
}

fn linked_width(linked: Linked) -> usize
    ensures { result ≡ linked_width linked }
{
    match linked {
        Linked::Terms => 2,
        Linked::Pairs => 4,
    }
}

// "22 (the lowest such link byte)", among `count` entries at `at`.
pub fn link_fault(linked: Linked, query: &[u8], at: usize, count: usize) -> Option<usize>
    requires { at + count * linked_width linked ≤ length query.now }
    ensures { found_of result ≡ links_from linked query.now count at }
{
    let step = linked_width(linked);
    let mut place = at;
    for _ in 0..count {
        if let Some(found) = entry_link_fault(linked, query, place) {
            return Some(found);
        }
        place += step;
    }
    None
}
