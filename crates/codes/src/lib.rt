// How an answer is one number for C (include/lemitsaka.h).
#![tactic(auto)]

ghost use Rattle.std.specs.Prelude.{◌≡◌};
ghost use Rattle.codes.specs.Codes.{own, refusal, with_high, code};

// A number of three digits: the upper one times 4,294,967,296, the middle one times 65,536, and the low one.
pub fn digits(high: u16, middle: usize, low: usize) -> u64
    ensures { result ≡ code (with_high high middle low) }
{
    (high as u64) * 4294967296 + ((middle % 65536) as u64) * 65536 + ((low % 65536) as u64)
}

// A call's own answer, which is below 65,536.
pub fn own_answer(n: usize) -> u64
    ensures { result ≡ code (own n) }
{
    digits(0, 0, n)
}

// A refusal: its number times 65,536, and its place.
pub fn numbered(k: usize, place: usize) -> u64
    ensures { result ≡ code (refusal k place) }
{
    digits(0, k, place)
}
