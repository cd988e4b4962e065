// Reads an order list and a query from standard input, and prints the verdict and its evidence.
#![tactic(auto)]

fn main(rt: HostRuntime) {
    let mut input = [0u8; 1024];
    let mut text = [0u8; 256006];
    let read = streams::read_full(&rt, &mut input);
    let made = printing::put_text(&mut text, &input[..read]);
    streams::write_all(&rt, &text[..made]);
}
