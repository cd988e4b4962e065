// Reads a query with three links (02, R-11) and a derivation by anyone from standard input, and prints whether the derivation refutes the
// query. 321,544 bytes hold the length of a query, the longest query of that length, and the longest text of 16,000 lines and a byte more.
#![tactic(auto)]

fn main(rt: HostRuntime) {
    let mut input = [0u8; 321544];
    let mut text = [0u8; 64];
    let read = streams::read_full(&rt, &mut input);
    let made = check_printing::put_links_text(&mut text, &input[..read]);
    streams::write_all(&rt, &text[..made]);
}
