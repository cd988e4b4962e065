// Derivations from elsewhere, for C.
ghost use Rattle.std.specs.Prelude.{◌≡◌};
ghost use Rattle.logic.specs.ThreeLinks.{three_link_form};
ghost use Rattle.checking.specs.CheckCall.{check_call, check_call_of};
ghost use Rattle.codes.specs.Codes.{code};
ghost use Rattle.answer_codes.specs.Numbers.{check_digits};

// The checking call for C.
pub fn lemitsaka_check(query: &[u8], derivation: &[u8]) -> u64
    ensures { result ≡ code (check_digits (check_call query.now derivation.now)) }
{
    answer_codes::check_number(checker::check(query, derivation))
}

// The checking call for C, of a query with three links.
pub fn lemitsaka_links_check(query: &[u8], derivation: &[u8]) -> u64
    ensures { result ≡ code (check_digits (check_call_of three_link_form query.now derivation.now)) }
{
    answer_codes::check_number(checker::links_check(query, derivation))
}
