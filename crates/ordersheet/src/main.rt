// Reads a precedence sheet as text from standard input, a pair a line, and prints the order list, or the ring in words.
#![tactic(auto)]

ghost use Rattle.std.specs.Prelude.{◌*◌, ◌+◌, ◌≤◌, ◌<◌, ◌≡◌, length, IfOk};

use precedence::OrderAnswer;

// Why a line stops the reading of a sheet.
#[derive(Clone, Copy)]
enum Fault {
    NoPair,
    TooManyPairs,
}

// The line at which reading stopped, and why.
#[derive(Clone, Copy)]
struct Stop {
    fault: Fault,
    line: usize,
}

// Two rules, the earlier first.
#[derive(Clone, Copy)]
struct Pair {
    earlier: u8,
    later: u8,
}

fn is_blank(b: u8) -> bool {
    matches!(b, b' ' | b'\t' | b'\r')
}

// The number of a rule, by its number or its name.
fn rule_of(word: &[u8]) -> Option<u8> {
    match word {
        b"1" | b"REFLEX" => Some(1),
        b"2" | b"TRANS1" => Some(2),
        b"3" | b"TRANS2" => Some(3),
        b"4" | b"FUNC" => Some(4),
        b"5" | b"CYCLE" => Some(5),
        b"6" | b"SCC" => Some(6),
        b"7" | b"TOTAL" => Some(7),
        b"8" | b"SHARE" => Some(8),
        _ => None,
    }
}

// Two words of a line, past a `before` between them, where no third follows.
fn two_words(line: &[u8]) -> Option<(&[u8], &[u8])> {
    let mut words = line.split(|b| is_blank(*b)).filter(|word| !word.is_empty());
    let first = words.next()?;
    let mut second = words.next()?;
    if second == b"before".as_slice() {
        second = words.next()?;
    }
    match words.next() {
        None => Some((first, second)),
        Some(_) => None,
    }
}

// A line: `SHARE before TOTAL`, `8 7`, nothing, or a comment after `#`.
fn read_line(line: &[u8]) -> Result<Option<Pair>, Fault> {
    match line.iter().find(|b| !is_blank(**b)) {
        None | Some(b'#') => return Ok(None),
        Some(_) => {}
    }
    let (first, second) = two_words(line).ok_or(Fault::NoPair)?;
    let earlier = rule_of(first).ok_or(Fault::NoPair)?;
    let later = rule_of(second).ok_or(Fault::NoPair)?;
    Ok(Some(Pair { earlier, later }))
}

// A line is added to the pairs of a sheet: how many there are then.
fn add_line(sheet: &mut [u8; 57], count: usize, line: &[u8]) -> Result<usize, Fault>
    requires { count ≤ 28 }
    ensures { IfOk result (λ n. n ≤ 28) }
{
    let Some(pair) = read_line(line)? else {
        return Ok(count);
    };
    if 28 <= count {
        return Err(Fault::TooManyPairs);
    }
    sheet[2 * count + 1] = pair.earlier;
    sheet[2 * count + 2] = pair.later;
    Ok(count + 1)
}

// The sheet of a text, line by line: how many pairs it has.
fn read_sheet(text: &[u8], sheet: &mut [u8; 57]) -> Result<usize, Stop>
    ensures { IfOk result (λ n. n ≤ 28) }
{
    let mut count: usize = 0;
    for (i, line) in text.split(|b| *b == b'\n').enumerate() {
        count = add_line(sheet, count, line).map_err(|fault| Stop { fault, line: i + 1 })?;
    }
    sheet[0] = count as u8;
    Ok(count)
}

// Bytes, to standard output.
fn put(rt: &impl Print, bytes: &[u8]) {
    streams::write_all(rt, bytes);
}

fn print_line_number(rt: &impl Print, line: usize) {
    put(rt, b"line ");
    streams::print_decimal(rt, line as u64);
}

// A rule's name.
fn print_name(rt: &impl Print, r: u8) {
    match r {
        1 => put(rt, b"REFLEX"),
        2 => put(rt, b"TRANS1"),
        3 => put(rt, b"TRANS2"),
        4 => put(rt, b"FUNC"),
        5 => put(rt, b"CYCLE"),
        6 => put(rt, b"SCC"),
        7 => put(rt, b"TOTAL"),
        _ => put(rt, b"SHARE"),
    }
}

// The order list: numbers, blanks between.
fn print_order(rt: &impl Print, order: &[u8; 8]) {
    for (i, rule) in order.iter().enumerate() {
        if 0 < i {
            put(rt, b" ");
        }
        streams::print_decimal(rt, u64::from(*rule));
    }
    put(rt, b"\n");
}

// The ring in words, back to its first rule.
fn print_ring(rt: &impl Print, ring: &[u8; 8]) {
    put(rt, b"none: ");
    for rule in ring {
        if *rule != 0 {
            print_name(rt, *rule);
            put(rt, b" before ");
        }
    }
    print_name(rt, ring[0]);
    put(rt, b"\n");
}

// The answer for a sheet.
fn print_answer(rt: &impl Print, sheet: &[u8]) {
    let mut bytes = [0u8; 8];
    match precedence::order_of(sheet, &mut bytes) {
        Ok(OrderAnswer::Order) => print_order(rt, &bytes),
        Ok(OrderAnswer::Ring) => print_ring(rt, &bytes),
        Err(_) => put(rt, b"refused\n"),
    }
}

// Why no sheet was read.
fn print_stop(rt: &impl Print, stop: Stop) {
    print_line_number(rt, stop.line);
    match stop.fault {
        Fault::NoPair => put(
            rt,
            b": expected two rules, as `SHARE before TOTAL` or `8 7`\n",
        ),
        Fault::TooManyPairs => put(rt, b": more than 28 pairs\n"),
    }
}

// The answer for a text.
fn print_text(rt: &impl Print, text: &[u8]) {
    let mut sheet = [0u8; 57];
    match read_sheet(text, &mut sheet) {
        Ok(count) => print_answer(rt, &sheet[..2 * count + 1]),
        Err(stop) => print_stop(rt, stop),
    }
}

fn main(rt: HostRuntime) {
    let mut text = [0u8; 8192];
    let n = streams::read_full(&rt, &mut text);
    if n < 8192 {
        print_text(&rt, &text[..n]);
    } else {
        put(&rt, b"more than 8191 bytes\n");
    }
}
