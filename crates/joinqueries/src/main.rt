// Reads two teams' queries and a pair list, or a clash line, from standard input, and prints both as one query, or the literal that the line
// names. 131,214 bytes hold two queries of any length that two bytes give, and a pair list longer than any that passes.
#![tactic(auto)]

fn main(rt: HostRuntime) {
    let mut input = [0u8; 131214];
    let mut text = [0u8; 2200];
    let read = streams::read_full(&rt, &mut input);
    let made = join_printing::put_text(&mut text, &input[..read]);
    let end = made.min(2200);
    streams::write_all(&rt, &text[..end]);
}
