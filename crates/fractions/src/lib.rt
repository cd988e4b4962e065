// Shares of a total as fractions in lowest terms (02, R-14).
#![tactic(auto)]

ghost use Rattle.std.specs.Prelude.{◌≡◌, ◌+◌, ◌≤◌, ◌<◌, length};
ghost use Rattle.text.specs.Text.{Writes};
ghost use Rattle.fractions.specs.Fractions.{gcd, share, total_of, fraction_text, shares_text};

// The greatest common divisor, by Euclid.
pub fn gcd_of(first: usize, second: usize) -> usize
    ensures { result ≡ gcd first second }
{
    let mut a = first;
    let mut b = second;
    while b > 0 {
        let rest = a % b;
        a = b;
        b = rest;
    }
    a
}

// A share on a line. "0/1 where there are none".
fn put_share(buffer: &mut [u8], at: usize, count: usize, total: usize) -> usize
    requires { (at ≤ 1000) × (count ≤ total) }
    ensures { Writes buffer.old at (fraction_text (share count total)) buffer.new result × (result ≤ at + 42) }
{
    if count == 0 {
        return text::put_bytes(buffer, at, b"0/1\n");
    }
    let divisor = gcd_of(count, total);
    let top = count / divisor;
    let bottom = total / divisor;
    let slash = text::put_decimal(buffer, at, top);
    let below = text::put_byte(buffer, slash, b'/');
    let end = text::put_decimal(buffer, below, bottom);
    text::put_byte(buffer, end, b'\n')
}

// "all tallied rule lines"
fn total_of(counts: [u32; 8]) -> usize
    ensures { (result ≡ total_of counts) × (length counts ≡ 8) }
{
    let mut sum: usize = 0;
    for count in &counts {
        sum += *count as usize;
    }
    sum
}

// Eight shares, rule 1 first, one a line. It answers the text's length, which 336 bytes always hold.
pub fn put_shares(buffer: &mut [u8], counts: [u32; 8]) -> usize
    ensures { Writes buffer.old 0 (shares_text counts) buffer.new result × (result ≤ 336) }
{
    let total = total_of(counts);
    let mut to: usize = 0;
    for count in &counts {
        to = put_share(buffer, to, *count as usize, total);
    }
    to
}
