// Reads a query in the old layout from standard input and prints the query with three links that it becomes, as two hex digits a byte: 1,911
// bytes hold the longest.
#![tactic(auto)]

fn main(rt: HostRuntime) {
    let mut input = [0u8; 1024];
    let mut text = [0u8; 1911];
    let read = streams::read_full(&rt, &mut input);
    let made = link_printing::put_text(&mut text, &input[..read]);
    let end = made.min(1911);
    streams::write_all(&rt, &text[..end]);
}
