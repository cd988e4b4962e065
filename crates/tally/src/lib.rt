// A tally of rule lines: eight counts, lent to a call for each derivation and changed there (02, R-14).
#![tactic(auto)]

ghost use Rattle.std.specs.Prelude.{◌≡◌, true, false, [], ◌∷◌, ◌+◌, ◌<◌, length, get_or, MatchOption};
ghost use Rattle.logic.specs.Facts.{line};
ghost use Rattle.logic.specs.Derivation.{lines_in};
ghost use Rattle.tally.specs.Counting.{raised, plus, fits, no_lines, Below, Adds};
ghost use Rattle.tally.specs.Answers.{number_of};

// Why a derivation was not added.
#[derive(Clone, Copy, Debug, PartialEq, Eq, Drop)]
pub enum Refusal {
    // "a count would pass 4,294,967,295"
    CountTooLarge,
}

impl Refusal {
    // The refusal's number.
    pub fn number(self) -> usize
        ensures { result ≡ 28 }
    {
        match self {
            Refusal::CountTooLarge => 28,
        }
    }
}

// The counts of rules 1 to 8.
#[derive(Clone, Copy)]
pub struct Tally {
    pub counts: [u32; 8],
}

impl Tally {
    // No lines yet.
    pub fn new() -> Tally
        ensures { result.counts ≡ no_lines }
    {
        Tally { counts: [0; 8] }
    }

    // "A tally of eight 32-bit counts is lent to the call for each result and changed there"; where a count would pass the limit it stays as it was.
    pub fn add(&mut self, derivation: &[u8]) -> Result<(), Refusal>
        ensures { Adds self.old.counts (lines_in derivation.now) self.new.counts (number_of result) }
    {
        let counts = self.counts;
        let more = rule_lines(derivation);
        let Some(next) = sums(counts, more) else {
            return Err(Refusal::CountTooLarge);
        };
        self.counts = next;
        Ok(())
    }
}

// The byte at a place, and 0 behind the end, as the definitions read a derivation.
pub fn byte_at(bytes: &[u8], at: usize) -> usize
    ensures { (result ≡ get_or bytes.now at 0) × (result < 256) }
{
    match bytes.get(at) {
        Some(byte) => usize::from(*byte),
        None => 0,
    }
}

// One line more of the rule that it begins with, if it is of a rule.
fn count_line(counts: &mut [u32; 8], kind: usize)
    requires { Below 65535 counts.old × (length counts.old ≡ 8) }
    ensures { counts.new ≡ raised counts.old (line kind 0 0 0 ∷ []) }
{
    if 1 <= kind && kind <= 8 {
        counts[kind - 1] += 1;
    }
}

// The lines of each rule in a derivation.
fn rule_lines(derivation: &[u8]) -> [u32; 8]
    ensures { result ≡ raised no_lines (lines_in derivation.now) }
{
    let count = 256 * byte_at(derivation, 0) + byte_at(derivation, 1);
    let mut counts = [0u32; 8];
    for i in 0..count {
        let kind = byte_at(derivation, 2 + 4 * i);
        count_line(&mut counts, kind);
    }
    counts
}

// The sums of the counts, where none would pass the limit.
fn sums(counts: [u32; 8], more: [u32; 8]) -> Option<[u32; 8]>
    ensures { MatchOption result (fits (plus counts more) ≡ false) (λ next. (fits (plus counts more) ≡ true) × (next ≡ plus counts more)) }
{
    let mut next = counts;
    for k in 0..8 {
        next[k] = counts[k].checked_add(more[k])?;
    }
    Some(next)
}
