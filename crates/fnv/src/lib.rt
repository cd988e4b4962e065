// The FNV-1a 32-bit mark of bytes (02, R-14).
#![tactic(auto)]

ghost use Rattle.std.specs.Prelude.{◌≡◌};
ghost use Rattle.fnv.specs.Mark.{wrapping_product, marked, mark_of};

// Wrapping multiplication: the product modulo 2 to the 32.
pub fn wrapping_mul(a: u32, b: u32) -> u32
    ensures { result ≡ wrapping_product a b }
{
    a.wrapping_mul(b)
}

// One octet more.
fn step(hash: u32, octet: u8) -> u32
    ensures { result ≡ marked hash octet }
{
    wrapping_mul(u32::from(octet) ^ hash, 16777619)
}

// The mark of bytes.
pub fn mark(octets: &[u8]) -> u32
    ensures { result ≡ mark_of octets.now }
{
    octets
        .iter()
        .fold(2166136261, |hash, octet| step(hash, *octet))
}
