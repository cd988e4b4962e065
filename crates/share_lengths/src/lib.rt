// The length of a query, in the bytes that were read for it (02, R-14).
#![tactic(auto)]

ghost use Rattle.std.specs.Prelude.{◌≡◌, ◌≤◌};
ghost use Rattle.sharing.specs.Output.{is_bad, wanted};

// "a length above 681 or cut short"
pub fn bad_length(head: &[u8]) -> bool
    ensures { result ≡ is_bad head.now }
{
    if head.len() < 2 {
        return true;
    }
    681 < 256 * tally::byte_at(head, 0) + tally::byte_at(head, 1)
}

// How many bytes are to be read behind a length.
pub fn query_length(head: &[u8]) -> usize
    ensures { (result ≡ wanted head.now) × (result ≤ 681) }
{
    if bad_length(head) {
        return 0;
    }
    256 * tally::byte_at(head, 0) + tally::byte_at(head, 1)
}
