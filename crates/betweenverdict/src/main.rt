// Reads a query of six sections from standard input, and prints the first small heap that meets it, if there is one.
#![tactic(auto)]

fn main(rt: HostRuntime) {
    let mut input = [0u8; 1024];
    let mut text = [0u8; 163];
    let read = streams::read_full(&rt, &mut input);
    let made = between_printing::put_text(&mut text, &input[..read]);
    streams::write_all(&rt, &text[..made]);
}
