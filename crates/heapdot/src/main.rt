// Reads what heapverdict prints, or a heap report's bytes, from standard input, and prints the heap's picture in Graphviz's DOT
// language: `heapverdict <query | heapdot | dot -Tpng`. Where there is no heap, a line on standard error says why, and nothing else is
// printed.
#![tactic(auto)]

ghost use Rattle.std.specs.Prelude.{◌≤◌, ◌<◌, length, IfSome};

// The value of a hex digit, in small letters.
fn hex_value(b: u8) -> Option<u8>
    ensures { IfSome result (λ v. v < 16) }
{
    match b {
        b'0'..=b'9' => Some(b - b'0'),
        b'a'..=b'f' => Some(b - b'a' + 10),
        _ => None,
    }
}

fn is_blank(b: u8) -> bool {
    matches!(b, b' ' | b'\n' | b'\r')
}

// The bytes that the hex digits show, in pairs with blanks between: how many, or none where something else stands there.
fn decode(digits: &[u8], report: &mut [u8]) -> Option<usize>
    ensures { IfSome result (λ count. count ≤ length report.old) }
{
    let mut count: usize = 0;
    let mut i: usize = 0;
    while i < digits.len() {
        if is_blank(digits[i]) {
            i += 1;
            continue;
        }
        if (digits.len() - i < 2) | (report.len() <= count) {
            return None;
        }
        let high = hex_value(digits[i])?;
        let low = hex_value(digits[i + 1])?;
        report[count] = high * 16 + low;
        count += 1;
        i += 2;
    }
    Some(count)
}

fn print_text(rt: &impl Print, text: &[u8], length: usize) {
    if text.len() < length {
        return;
    }
    streams::write_all(rt, &text[..length]);
}

// The picture of a report.
fn print_dot(rt: &(impl Print + Eprint), report: &[u8]) {
    let mut text = [0u8; 508];
    match dot::dot(report, &mut text) {
        Ok(length) => print_text(rt, &text, length),
        Err(_) => {
            streams::print_error(rt, "heapdot: this is no well-formed heap report\n");
        }
    }
}

// The picture of a report in hex digits, with a buffer for its bytes.
fn print_decoded(rt: &(impl Print + Eprint), digits: &[u8], report: &mut [u8]) {
    let Some(count) = decode(digits, report) else {
        streams::print_error(
            rt,
            "heapdot: after sat, two hex digits for each byte are wanted\n",
        );
        return;
    };
    print_dot(rt, &report[..count]);
}

fn print_hex_dot(rt: &(impl Print + Eprint), digits: &[u8]) {
    let mut report = [0u8; 4096];
    print_decoded(rt, digits, &mut report);
}

fn print_picture(rt: &(impl Print + Eprint), input: &[u8]) {
    if let Some(digits) = input.strip_prefix(b"sat\n") {
        print_hex_dot(rt, digits);
        return;
    }
    if input.starts_with(b"unsat\n") {
        streams::print_error(rt, "heapdot: the query is refuted, so no heap meets it\n");
        return;
    }
    if input.starts_with(b"refused ") {
        streams::print_error(
            rt,
            "heapdot: heapverdict refused the query, so there is no heap\n",
        );
        return;
    }
    print_dot(rt, input);
}

fn main(rt: HostRuntime) {
    let mut input = [0u8; 4096];
    let n = streams::read_full(&rt, &mut input);
    if 4095 < n {
        streams::print_error(&rt, "heapdot: the input is longer than a report\n");
        return;
    }
    print_picture(&rt, &input[..n]);
}
