// The limits of the calls: the rule steps of a walk, the bytes that a report needs, and the lines of a derivation.
#![tactic(auto)]

ghost use Rattle.std.specs.Prelude.{◌≡◌, ◌⊎◌, ◌+◌, ◌*◌, ◌≤◌, ◌<◌, ltb};
ghost use Rattle.call_limits.specs.Forms.{form_of};

// "n times n plus n rule steps", and with three links "3 times n times n, plus n" (02, R-11)
pub fn limit(links: usize, n: usize) -> usize
    requires { (links ≤ 3) × (n ≤ 16) }
    ensures { result ≡ links * (n * n) + n }
{
    links * (n * n) + n
}

// The bytes that a report needs: "9 reads 85" with three links.
pub fn room(three: bool) -> usize
    ensures { result ≡ (form_of three).room }
{
    if three {
        return 85;
    }
    53
}

// A report of this length is too short, which is refusal 9.
pub fn lacks_room(length: usize, three: bool) -> bool
    ensures { result ≡ ltb length (form_of three).room }
{
    length < room(three)
}

// The most lines that a derivation in a buffer of this length may have.
pub fn most_lines(length: usize) -> usize
    requires { 2 ≤ length }
    ensures { (result ≤ 16000) × (2 + 4 * result ≤ length) × ((result ≡ 16000) ⊎ (length < 2 + 4 * (result + 1))) }
{
    if 64002 <= length {
        return 16000;
    }
    (length - 2) / 4
}
