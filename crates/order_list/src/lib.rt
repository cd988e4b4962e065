// The order list: which lists of bytes are one.
#![tactic(auto)]

ghost use Rattle.std.specs.Prelude.{◌≡◌};
ghost use Rattle.logic.specs.Query.{is_order};

// "The order list is eight bytes holding 1 to 8 once each." An iterator's `all` was tried in place of the loop, and the proof didn't close.
pub fn is_order(order: &[u8]) -> bool
    ensures { result ≡ is_order order.now }
{
    if order.len() != 8 {
        return false;
    }
    for r in 1..9 {
        if !order.contains(&r) {
            return false;
        }
    }
    true
}
