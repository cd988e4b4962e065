// Runs a row of cases, each of a call or of what a program prints, and prints a line for each: what the call answers, and every byte that was
// lent; or the program's text. A case is a byte that names the call, three parts, each after its length in two bytes, high byte first (a call that
// takes fewer has empty ones), and in two bytes how many bytes are lent. They are lent full of 255.
#![tactic(auto)]

ghost use Rattle.std.specs.Prelude.{◌≤◌, ◌<◌, length};

use between_call::BetweenAnswer;
use formula_call::FormulaAnswer;
use joiner::{HandBack, JoinRefusal};
use precedence::OrderAnswer;
use prover::Answer;
use refusals::Refusal;

fn wide(x: u8) -> usize
    ensures { result < 256 }
{
    x as usize
}

fn print_word(rt: &impl Print, word: &[u8]) {
    streams::write_all(rt, word);
}

fn print_number(rt: &impl Print, number: usize) {
    streams::print_decimal(rt, number as u64);
}

// The bytes in hex.
fn print_bytes(rt: &impl Print, bytes: &[u8]) {
    for b in bytes {
        streams::print_hex(rt, *b);
    }
}

// How many bytes there are without the zeros at the end.
fn used(bytes: &[u8]) -> usize
    ensures { result ≤ length bytes.now }
{
    let mut n = bytes.len();
    while n > 0 {
        if bytes[n - 1] != 0 {
            return n;
        }
        n -= 1;
    }
    0
}

// All bytes: in hex as far as the last one that is not zero, and how many zeros follow.
fn print_lent(rt: &impl Print, out: &[u8]) {
    print_word(rt, b" ");
    let n = used(out);
    print_bytes(rt, &out[..n]);
    print_word(rt, b"+");
    print_number(rt, out.len() - n);
}

fn print_refusal(rt: &impl Print, k: usize, place: usize) {
    print_word(rt, b"refused ");
    print_number(rt, k);
    print_word(rt, b" at ");
    print_number(rt, place);
}

fn print_fault(rt: &impl Print, refusal: Refusal) {
    print_refusal(rt, refusal.fault.number(), refusal.place);
}

// A refusal of two queries, and which of them it is about.
fn print_join_refusal(rt: &impl Print, refusal: JoinRefusal) {
    match refusal {
        JoinRefusal::First(e) => {
            print_fault(rt, e);
            print_word(rt, b" of the first query");
        }
        JoinRefusal::Second(e) => {
            print_fault(rt, e);
            print_word(rt, b" of the second query");
        }
        JoinRefusal::Neither(e) => print_fault(rt, e),
    }
}

// What was written, and how long it is.
fn print_written(rt: &impl Print, word: &[u8], length: usize) {
    print_word(rt, word);
    print_number(rt, length);
}

// 01's calls, and R-11's
fn print_answer(rt: &impl Print, answer: Answer) {
    match answer {
        Answer::Satisfiable => print_word(rt, b"sat"),
        Answer::Refuted => print_word(rt, b"refuted"),
        Answer::Refused(k, place) => print_refusal(rt, k, place),
    }
}

// R-2
fn run_dot(rt: &impl Print, report: &[u8], out: &mut [u8]) {
    match dot::dot(report, out) {
        Ok(length) => print_written(rt, b"text ", length),
        Err(refusal) => print_fault(rt, refusal),
    }
}

// R-6
fn run_order(rt: &impl Print, sheet: &[u8], out: &mut [u8]) {
    match precedence::order_of(sheet, out) {
        Ok(OrderAnswer::Order) => print_word(rt, b"order"),
        Ok(OrderAnswer::Ring) => print_word(rt, b"none"),
        Err(refusal) => print_fault(rt, refusal),
    }
}

// R-7
fn run_formula(rt: &impl Print, order: &[u8], query: &[u8], formula: &[u8], out: &mut [u8]) {
    match formula_call::formula(order, query, formula, out) {
        FormulaAnswer::Conjunction(n) => print_written(rt, b"sat ", n),
        FormulaAnswer::Refuted => print_word(rt, b"refuted"),
        FormulaAnswer::Refused(k, place) => print_refusal(rt, k, place),
    }
}

// R-8
fn print_check(rt: &impl Print, answer: Result<Option<usize>, Refusal>) {
    match answer {
        Ok(None) => print_word(rt, b"accepted"),
        Ok(Some(line)) => print_written(rt, b"wrong ", line),
        Err(refusal) => print_fault(rt, refusal),
    }
}

// R-10
fn run_between(rt: &impl Print, query: &[u8], out: &mut [u8]) {
    match between_call::between(query, out) {
        Ok(BetweenAnswer::Heap) => print_word(rt, b"heap"),
        Ok(BetweenAnswer::Nothing) => print_word(rt, b"none"),
        Err(refusal) => print_fault(rt, refusal),
    }
}

// R-12
fn run_join(rt: &impl Print, first: &[u8], second: &[u8], pairs: &[u8], out: &mut [u8]) {
    match joiner::join(first, second, pairs, out) {
        Ok(length) => print_written(rt, b"query ", length),
        Err(refusal) => print_join_refusal(rt, refusal),
    }
}

// From which query a literal is handed back, where it stands there, and how long it is.
fn print_place(rt: &impl Print, query: usize, at: usize, size: usize) {
    print_word(rt, b"part ");
    print_number(rt, query);
    print_word(rt, b" ");
    print_number(rt, at);
    print_word(rt, b" ");
    print_number(rt, size);
}

// "a call beside it gives number and place"
fn print_hand_back(rt: &impl Print, first: &[u8], second: &[u8], line: &[u8]) {
    match joiner::find_named(first, second, line) {
        Ok(HandBack::InFirst(at, size)) => print_place(rt, 1, at, size),
        Ok(HandBack::InSecond(at, size)) => print_place(rt, 2, at, size),
        Err(refusal) => print_join_refusal(rt, refusal),
    }
}

// R-13, and R-11's rewriting with link 1
fn print_rewritten(rt: &impl Print, answer: Result<usize, Refusal>) {
    match answer {
        Ok(length) => print_written(rt, b"query ", length),
        Err(refusal) => print_fault(rt, refusal),
    }
}

// A call with lent bytes: those of 01 and R-11 are named by a letter, another by its request's number.
fn print_call(rt: &impl Print, call: u8, a: &[u8], b: &[u8], c: &[u8], out: &mut [u8]) {
    match call {
        b'v' => print_answer(rt, prover::verdict(a, b, out)),
        b'd' => print_answer(rt, prover::derivation(a, b, out)),
        b'V' => print_answer(rt, prover::links_verdict(a, b, out)),
        b'D' => print_answer(rt, prover::links_derivation(a, b, out)),
        2 => run_dot(rt, a, out),
        6 => run_order(rt, a, out),
        7 => run_formula(rt, a, b, c, out),
        10 => run_between(rt, a, out),
        11 => print_rewritten(rt, link_rewriter::rewrite(a, out)),
        12 => run_join(rt, a, b, c, out),
        _ => print_rewritten(rt, rewriter::rewrite(a, out)),
    }
}

// Its answer, and all that was lent.
fn run_call(rt: &impl Print, call: u8, a: &[u8], b: &[u8], c: &[u8], out: &mut [u8]) {
    print_call(rt, call, a, b, c, out);
    print_lent(rt, out);
    print_word(rt, b"\n");
}

fn run_check(rt: &impl Print, answer: Result<Option<usize>, Refusal>) {
    print_check(rt, answer);
    print_word(rt, b"\n");
}

// "hand back that literal's own bytes", none where it is refused
fn run_hand_back<'a>(rt: &impl Print, first: &'a [u8], second: &'a [u8], line: &[u8]) {
    print_hand_back(rt, first, second, line);
    print_lent(rt, joiner::hand_back(first, second, line));
    print_word(rt, b"\n");
}

// What a program makes of its input, named by a letter: the length of its text.
fn program_text(program: u8, input: &[u8], out: &mut [u8]) -> usize {
    match program {
        b'f' => formula_printing::put_text(out, input),
        b'b' => between_printing::put_text(out, input),
        b'c' => check_printing::put_text(out, input),
        b'k' => check_printing::put_links_text(out, input),
        b'j' => join_printing::put_text(out, input),
        b'r' => rewrite_printing::put_text(out, input),
        _ => link_printing::put_text(out, input),
    }
}

// The text, which ends its lines itself.
fn run_program(rt: &impl Print, program: u8, input: &[u8], out: &mut [u8]) {
    let n = program_text(program, input, out);
    if out.len() < n {
        return;
    }
    print_word(rt, &out[..n]);
}

fn run_case<'a>(rt: &impl Print, call: u8, a: &'a [u8], b: &'a [u8], c: &[u8], out: &mut [u8]) {
    match call {
        0 => run_hand_back(rt, a, b, c),
        8 => run_check(rt, checker::check(a, b)),
        b'C' => run_check(rt, checker::links_check(a, b)),
        b'b' | b'c' | b'f' | b'j' | b'k' | b'l' | b'r' => run_program(rt, call, a, out),
        _ => run_call(rt, call, a, b, c, out),
    }
}

// A number of two bytes, or 65536 where they are not there.
fn read_number(rt: &impl Input) -> usize
    ensures { result ≤ 65536 }
{
    let mut head = [0u8; 2];
    if streams::read_full(rt, &mut head) < 2 {
        return 65536;
    }
    wide(head[0]) * 256 + wide(head[1])
}

// A part of this size: whether it was there.
fn read_part(rt: &impl Input, part: &mut [u8], size: usize) -> bool {
    if part.len() < size {
        return false;
    }
    let got = streams::read_full(rt, &mut part[..size]);
    size <= got
}

// The sizes of the parts, and how many bytes are lent.
#[derive(Drop)]
struct Sizes {
    first: usize,
    second: usize,
    third: usize,
    room: usize,
}

// Parts of these sizes: whether there is room for them.
fn run_sized<'a>(
    rt: &impl Print,
    call: u8,
    sizes: Sizes,
    a: &'a [u8],
    b: &'a [u8],
    c: &[u8],
    out: &mut [u8],
) -> bool {
    let i = sizes.first;
    let j = sizes.second;
    let k = sizes.third;
    let room = sizes.room;
    if a.len() < i {
        return false;
    }
    if b.len() < j {
        return false;
    }
    if c.len() < k {
        return false;
    }
    if out.len() < room {
        return false;
    }
    run_case(rt, call, &a[..i], &b[..j], &c[..k], &mut out[..room]);
    true
}

// One case: whether there was one.
fn run_one(rt: &(impl Input + Print)) -> bool {
    let mut call = [0u8; 1];
    if streams::read_full(rt, &mut call) < 1 {
        return false;
    }
    let mut first = [0u8; 65535];
    let i = read_number(rt);
    if !read_part(rt, &mut first, i) {
        return false;
    }
    let mut second = [0u8; 65535];
    let j = read_number(rt);
    if !read_part(rt, &mut second, j) {
        return false;
    }
    let mut third = [0u8; 1024];
    let k = read_number(rt);
    if !read_part(rt, &mut third, k) {
        return false;
    }
    let mut out = [255u8; 64002];
    let room = read_number(rt);
    let sizes = Sizes {
        first: i,
        second: j,
        third: k,
        room: room,
    };
    run_sized(rt, call[0], sizes, &first, &second, &third, &mut out)
}

// A proved loop has to end, so it counts down from a number that no run uses up.
fn main(rt: HostRuntime) {
    let mut turns: u64 = 1000000;
    while turns > 0 && run_one(&rt) {
        turns -= 1;
    }
}
