// Reads an old query from standard input and prints the query that it becomes, as two hex digits a byte: 1,683 bytes hold the longest.
#![tactic(auto)]

fn main(rt: HostRuntime) {
    let mut input = [0u8; 1024];
    let mut text = [0u8; 1683];
    let read = streams::read_full(&rt, &mut input);
    let made = rewrite_printing::put_text(&mut text, &input[..read]);
    let end = made.min(1683);
    streams::write_all(&rt, &text[..end]);
}
