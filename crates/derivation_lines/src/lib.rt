// The bytes of a derivation, and what is told of its lines: their count and shape, a line held to that of a join, and the first wrong one.
#![tactic(auto)]

ghost use Rattle.std.specs.Prelude.{◌≡◌, ◌≤◌, ◌<◌, length};
ghost use Rattle.logic.specs.Facts.{line};
ghost use Rattle.checking.specs.CheckCall.{count_in};
ghost use Rattle.derivation_lines.specs.Lines.{line_at, is_line, shapely, Shaped};
ghost use Rattle.derivation_lines.specs.Judging.{Concludes};

// Line `at`, from 0, is there and is the join line 10, kept, replaced, 0.
pub fn is_join(derivation: &[u8], count: usize, at: usize, kept: u8, replaced: u8) -> bool
    requires { Shaped derivation.now count }
    ensures { result ≡ is_line (line_at derivation.now at) (line 10 kept replaced 0) }
{
    if count <= at {
        return false;
    }
    let place = 4 * at + 2;
    derivation[place..place + 4] == [10, kept, replaced, 0]
}

// "Line count in two bytes, high byte first"
pub fn count_of(derivation: &[u8]) -> usize
    requires { 2 ≤ length derivation.now }
    ensures { (result ≡ count_in derivation.now) × (result < 65536) }
{
    let high = entries::byte_at(derivation, 0);
    let low = entries::byte_at(derivation, 1);
    256 * high + low
}

// The length is 2 plus 4 times the count, and the count is at most 16,000.
pub fn is_shaped(derivation: &[u8]) -> bool
    ensures { result ≡ shapely derivation.now }
{
    let length = derivation.len();
    if length < 2 {
        return false;
    }
    let count = count_of(derivation);
    length == 2 + 4 * count && count <= 16000
}

// The first wrong line's number, by how far the lines fit the goal of the start: so many were read and all fit, and none may follow them, or
// the one of this number is wrong.
pub fn first_wrong(count: usize, judged: Result<usize, usize>) -> Option<usize>
    requires { count ≤ 16000 }
    ensures { Concludes count judged result }
{
    match judged {
        Err(wrong) => Some(wrong),
        Ok(read) if read < count => Some(read + 1),
        Ok(_) => None,
    }
}
