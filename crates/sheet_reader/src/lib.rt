// The bytes of a precedence sheet: what is refused of them, and its pairs.
#![tactic(auto)]

ghost use Rattle.std.specs.Prelude.{◌≡◌, true, ◌+◌, ◌*◌, ◌<◌, length, get_or};
ghost use Rattle.ordering.specs.Sheet.{pair_at, laid_out, is_rule, rules_only};

// "wrong length or count"
pub fn laid_out(sheet: &[u8]) -> bool
    ensures { result ≡ laid_out sheet.now }
{
    let n = sheet.len();
    if n == 0 {
        return false;
    }
    let count = sheet[0] as usize;
    (count <= 28) & (n == 2 * count + 1)
}

// 1 to 8
fn is_rule(r: u8) -> bool
    ensures { result ≡ is_rule r }
{
    (0 < r) & (r <= 8)
}

// "a rule number not 1 to 8"
pub fn rules_only(sheet: &[u8]) -> bool
    ensures { result ≡ rules_only sheet.now }
{
    for i in 1..sheet.len() {
        if !is_rule(sheet[i]) {
            return false;
        }
    }
    true
}

// How many pairs the sheet has, and the earlier and the later rule of pair i.
pub fn count(sheet: &[u8]) -> usize
    requires { laid_out sheet.now ≡ true }
    ensures { (result ≡ get_or sheet.now 0 0) × (2 * result + 1 ≡ length sheet.now) }
{
    sheet[0] as usize
}

pub fn earlier(sheet: &[u8], i: usize) -> u8
    requires { 2 * i + 2 < length sheet.now }
    ensures { result ≡ (pair_at sheet.now i).earlier }
{
    sheet[2 * i + 1]
}

pub fn later(sheet: &[u8], i: usize) -> u8
    requires { 2 * i + 2 < length sheet.now }
    ensures { result ≡ (pair_at sheet.now i).later }
{
    sheet[2 * i + 2]
}
