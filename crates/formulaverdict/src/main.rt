// Reads an order list, a query after its length, and a formula's text from standard input, and prints the answer.
#![tactic(auto)]

fn main(rt: HostRuntime) {
    let mut input = [0u8; 2048];
    let mut text = [0u8; 250];
    let read = streams::read_full(&rt, &mut input);
    let made = formula_printing::put_text(&mut text, &input[..read]);
    streams::write_all(&rt, &text[..made]);
}
