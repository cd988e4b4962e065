// The tests of single bytes of a query: what the byte of a term, a sign, a number and a link are held to, and whether one meets a refusal.
#![tactic(auto)]

ghost use Rattle.std.specs.Prelude.{◌≡◌};
ghost use Rattle.logic.specs.Query.{entry_role, sign_role};
ghost use Rattle.logic.specs.ThreeLinks.{is_link, may_precede};
ghost use Rattle.refusals.specs.Numbers.{number_of};
ghost use Rattle.byte_tests.specs.Meets.{counted, counted_role, meets};

use refusals::Fault;

// "A term byte is not below its own term's number." 255 names nil (02, R-3).
pub fn entry_allowed(term: usize, byte: usize) -> bool
    ensures { result ≡ (entry_role term).allows byte }
{
    (byte < term) | (byte == 255)
}

pub fn entry_refused(k: usize, term: usize, byte: usize) -> bool
    ensures { result ≡ meets (entry_role term) k byte }
{
    let allowed = entry_allowed(term, byte);
    (5 == k) & !allowed
}

// "A sign is neither 0 nor 1."
pub fn sign_allowed(byte: usize) -> bool
    ensures { result ≡ sign_role.allows byte }
{
    byte < 2
}

pub fn sign_refused(fault: Fault, byte: usize) -> bool
    ensures { result ≡ meets sign_role (number_of fault) byte }
{
    let allowed = sign_allowed(byte);
    (fault == Fault::Sign) & !allowed
}

// A number is 1 to `most`, or meets its refusal, `own`.
pub fn number_allowed(most: usize, byte: usize) -> bool
    ensures { result ≡ counted most byte }
{
    (0 < byte) & (byte <= most)
}

pub fn number_refused(fault: Fault, own: Fault, most: usize, byte: usize) -> bool
    ensures { result ≡ meets (counted_role (number_of own) most) (number_of fault) byte }
{
    let allowed = number_allowed(most, byte);
    (own == fault) & !allowed
}

// "a reachability link not 1 to 3"
pub fn is_link(byte: usize) -> bool
    ensures { result ≡ is_link byte }
{
    (0 < byte) & (byte <= 3)
}

// "a term's link not 0 before 0 or 255, or not 1 to 3 before another byte"
pub fn may_precede(link: usize, byte: usize) -> bool
    ensures { result ≡ may_precede link byte }
{
    if (byte == 0) | (byte == 255) {
        return link == 0;
    }
    is_link(link)
}
