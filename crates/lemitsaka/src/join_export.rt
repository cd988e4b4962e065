// Two queries joined into one, and the hand-back, for C.
ghost use Rattle.std.specs.Prelude.{◌≡◌, length};
ghost use Rattle.joining.specs.Call.{join_call};
ghost use Rattle.joining.specs.HandBack.{hand_back_call};
ghost use Rattle.codes.specs.Codes.{code};
ghost use Rattle.answer_codes.specs.Numbers.{hand_digits};
ghost use Rattle.lemitsaka.specs.JoinPromise.{JoinCodes};

// The joining call for C.
pub fn lemitsaka_join(first: &[u8], second: &[u8], pairs: &[u8], query: &mut [u8]) -> u64
    ensures { JoinCodes (join_call first.now second.now pairs.now (length query.old)) result query.new }
{
    answer_codes::join_number(joiner::join(first, second, pairs, query))
}

// The hand-back for C, which cannot take a part of a slice.
pub fn lemitsaka_hand_back(first: &[u8], second: &[u8], line: &[u8]) -> u64
    ensures { result ≡ code (hand_digits (hand_back_call first.now second.now line.now)) }
{
    answer_codes::part_number(joiner::find_named(first, second, line))
}
