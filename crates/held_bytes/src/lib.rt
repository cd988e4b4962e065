// The bytes that are held of a stream: whether more are waited for, and those that are kept for the next piece.
#![tactic(auto)]

ghost use Rattle.std.specs.Prelude.{◌≡◌, ◌++◌, ◌+◌, ◌-◌, ◌≤◌, min, length, take, drop};
ghost use Rattle.held_bytes.specs.Waiting.{must_wait};

// Whether more bytes may come, and fewer have come than a turn can take: a length is two bytes, and a query 681 at most.
pub fn must_wait(n: usize, ended: bool) -> bool
    ensures { result ≡ must_wait n 683 ended }
{
    !ended && n < 683
}

// Leaves the bytes from a place on behind the order list. How many bytes are kept with it is the answer.
pub fn keep(held: &mut [u8], at: usize) -> usize
    requires { (min (length held.old) 8 ≤ at) × (at ≤ length held.old) }
    ensures { (result ≤ length held.old) × (take result held.new ≡ take 8 held.old ++ drop at held.old) }
{
    let n = held.len();
    let ordered = n.min(8);
    held.copy_within(at.., ordered);
    ordered + (n - at)
}
