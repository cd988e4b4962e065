// Every export of the library, called as a C program calls it: the number that it answers, on a line. Lent bytes are full of 255.
#![tactic(auto)]

use lemitsaka::between_export::lemitsaka_between;
use lemitsaka::check_export::{lemitsaka_check, lemitsaka_links_check};
use lemitsaka::dot_export::lemitsaka_dot;
use lemitsaka::formula_export::lemitsaka_formula;
use lemitsaka::join_export::{lemitsaka_hand_back, lemitsaka_join};
use lemitsaka::links_rewrite_export::lemitsaka_links_rewrite;
use lemitsaka::precedence_export::lemitsaka_order;
use lemitsaka::rewrite_export::lemitsaka_rewrite;
use lemitsaka::verdict_export::{
    lemitsaka_derivation, lemitsaka_links_derivation, lemitsaka_links_verdict, lemitsaka_verdict,
};

fn print(rt: &impl Print, number: u64) {
    streams::print_decimal(rt, number);
    streams::write_all(rt, b"\n");
}

// The calls of 01, in the form of 01 and with three links.
fn verdict(rt: &impl Print, order: &[u8], query: &[u8]) {
    let mut report = [255u8; 53];
    print(rt, lemitsaka_verdict(order, query, &mut report));
}

fn derivation(rt: &impl Print, order: &[u8], query: &[u8]) {
    let mut buffer = [255u8; 16];
    print(rt, lemitsaka_derivation(order, query, &mut buffer));
}

fn links_verdict(rt: &impl Print, order: &[u8], query: &[u8]) {
    let mut report = [255u8; 85];
    print(rt, lemitsaka_links_verdict(order, query, &mut report));
}

fn links_derivation(rt: &impl Print, order: &[u8], query: &[u8]) {
    let mut buffer = [255u8; 16];
    print(rt, lemitsaka_links_derivation(order, query, &mut buffer));
}

// Those of 02.
fn order_list(rt: &impl Print, sheet: &[u8]) {
    let mut list = [255u8; 8];
    print(rt, lemitsaka_order(sheet, &mut list));
}

fn formula(rt: &impl Print, order: &[u8], query: &[u8], text: &[u8]) {
    let mut report = [255u8; 53];
    print(rt, lemitsaka_formula(order, query, text, &mut report));
}

fn check(rt: &impl Print, query: &[u8], derivation: &[u8]) {
    print(rt, lemitsaka_check(query, derivation));
}

fn links_check(rt: &impl Print, query: &[u8], derivation: &[u8]) {
    print(rt, lemitsaka_links_check(query, derivation));
}

fn between(rt: &impl Print, query: &[u8]) {
    let mut report = [255u8; 53];
    print(rt, lemitsaka_between(query, &mut report));
}

fn dot(rt: &impl Print, report: &[u8]) {
    let mut text = [255u8; 508];
    print(rt, lemitsaka_dot(report, &mut text));
}

fn rewrite(rt: &impl Print, old: &[u8]) {
    let mut query = [255u8; 9];
    print(rt, lemitsaka_rewrite(old, &mut query));
}

fn links_rewrite(rt: &impl Print, old: &[u8]) {
    let mut query = [255u8; 7];
    print(rt, lemitsaka_links_rewrite(old, &mut query));
}

fn join(rt: &impl Print, first: &[u8], second: &[u8], pairs: &[u8]) {
    let mut query = [255u8; 6];
    print(rt, lemitsaka_join(first, second, pairs, &mut query));
}

fn hand_back(rt: &impl Print, first: &[u8], second: &[u8], line: &[u8]) {
    print(rt, lemitsaka_hand_back(first, second, line));
}

// A query that says nothing; one of which a variable is not itself; one whose second section has 61 entries: 3 at 1. 11: there is a heap.
fn run_verdicts(rt: &impl Print, order: &[u8]) {
    verdict(rt, order, b"\0\0\0\0\0");
    verdict(rt, order, b"\x01\0\x01\0\x01\x01\0\0\0");
    verdict(rt, order, b"\0\x3d");
    derivation(rt, order, b"\x01\0\x01\0\x01\x01\0\0\0");
    derivation(rt, order, b"\0\0\0\0\0");
}

// The same with three links. A link stands before a variable: 22 at 1. The count of booleans is 1: 26 at 4.
fn run_links(rt: &impl Print, order: &[u8]) {
    links_verdict(rt, order, b"\0\0\0\0\0");
    links_verdict(rt, order, b"\x01\0\0\x01\0\x01\x01\0\0\0");
    links_verdict(rt, order, b"\x01\x01\0\0\0\0\0");
    links_derivation(rt, order, b"\x01\0\0\x01\0\x01\x01\0\0\0");
    links_derivation(rt, order, b"\0\0\0\0\x01");
}

// Of two equalities the first says that a variable is not itself. The third is not there: 17 at its letter, 3.
fn run_formulas(rt: &impl Print, order: &[u8], query: &[u8]) {
    formula(rt, order, query, b"E1");
    formula(rt, order, query, b"E1|E2");
    formula(rt, order, query, b"E1|E3");
}

// The clash of the first equality; that of a second, which is not there; no derivation: 20.
fn run_checks(rt: &impl Print, query: &[u8]) {
    check(rt, query, b"\0\x01\x09\x02\x01\0");
    check(rt, query, b"\0\x01\x09\x02\x02\0");
    check(rt, query, b"");
}

// The same with three links; a link stands before a variable: 22 at 1.
fn run_link_checks(rt: &impl Print, query: &[u8]) {
    links_check(rt, query, b"\0\x01\x09\x02\x01\0");
    links_check(rt, query, b"\0\x01\x09\x02\x02\0");
    links_check(rt, b"\x01\x01\0\0\0\0\0", b"");
}

// Rule 1 before 2; 1 before 2 and 2 before 1; no sheet: 15. Six sections as the first two of run_verdicts, and six terms: 21. E2's report; no
// report: 13.
fn run_sheets(rt: &impl Print) {
    order_list(rt, b"\x01\x01\x02");
    order_list(rt, b"\x02\x01\x02\x02\x01");
    order_list(rt, b"");
    between(rt, b"\0\0\0\0\0\0");
    between(rt, b"\x01\0\x01\0\x01\x01\0\0\0\0");
    between(rt, b"\x06\0\0\0\0\0\0\0\0\0\0\0");
    dot(rt, b"\x01\x01\x01\x01\x01\0\x01\0");
    dot(rt, b"");
}

// An old query with a boolean; with two, for which the lent bytes are too few: 27. A variable for three links; a term that is not below
// itself: 5 at 1.
fn run_rewritings(rt: &impl Print) {
    rewrite(rt, b"\0\0\0\0\x01\x01\x01");
    rewrite(rt, b"\0\0\0\0\x02\x01\x01\x01\x02");
    links_rewrite(rt, b"\x01\0\0\0\0\0");
    links_rewrite(rt, b"\x01\x01\0\0\0\0");
}

// Two queries that say nothing; the first, and then the second, ends inside its third section: 2 at 5. 61 pairs: 23; a query of two variables, for
// which the lent bytes are too few: 24.
fn run_joins(rt: &impl Print, empty: &[u8], cut: &[u8]) {
    join(rt, empty, empty, b"\0");
    join(rt, cut, empty, b"\0");
    join(rt, empty, cut, b"\0");
    join(rt, empty, empty, b"\x3d");
    join(rt, b"\x02\0\0\0\0\0\0", empty, b"\0");
}

// An equality in either query: the line names that of the first, that of the second, and none: 25.
fn run_hand_backs(rt: &impl Print, first: &[u8], second: &[u8]) {
    hand_back(rt, first, second, b"\x09\x02\x01\0");
    hand_back(rt, first, second, b"\x09\x02\x02\0");
    hand_back(rt, first, second, b"\x09\x02\x03\0");
}

fn run_all(rt: &impl Print, order: &[u8]) {
    run_verdicts(rt, order);
    run_links(rt, order);
    run_formulas(rt, order, b"\x01\0\x02\0\x01\x01\x01\x01\x01\0\0\0");
    run_checks(rt, b"\x01\0\x01\0\x01\x01\0\0\0");
    run_link_checks(rt, b"\x01\0\0\x01\0\x01\x01\0\0\0");
    run_sheets(rt);
    run_rewritings(rt);
}

// At first an order list that has 8 twice: 1. At last the two queries of run_joins that end too soon.
fn main(rt: HostRuntime) {
    verdict(&rt, b"\x01\x02\x03\x08\x04\x05\x06\x08", b"\0\0\0\0\0");
    run_all(&rt, b"\x01\x02\x03\x08\x04\x05\x06\x07");
    run_joins(&rt, b"\0\0\0\0\0", b"\0\0\x01\0\0");
    run_hand_backs(
        &rt,
        b"\x02\0\xff\x01\x01\x01\x02\0\0\0",
        b"\x02\0\x01\x01\0\x02\x01\0\0\0",
    );
    hand_back(&rt, b"\0\0\x01\0\0", b"\0\0\0\0\0", b"\x09\x02\x01\0");
    hand_back(&rt, b"\0\0\0\0\0", b"\0\0\x01\0\0", b"\x09\x02\x01\0");
}
