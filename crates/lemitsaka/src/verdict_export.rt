// A verdict with its heap, and a derivation, for C.
ghost use Rattle.logic.specs.Calls.{verdict_call, verdict_call_of, derivation_call, derivation_call_of};
ghost use Rattle.logic.specs.ThreeLinks.{three_link_form};
ghost use Rattle.prover.specs.Promise.{input_of};
ghost use Rattle.lemitsaka.specs.VerdictPromise.{Codes};

// The verdict call for C.
pub fn lemitsaka_verdict(order: &[u8], query: &[u8], report: &mut [u8]) -> u64
    ensures { Codes (verdict_call (input_of order.now query.now report.old)) result report.new }
{
    answer_codes::verdict_number(prover::verdict(order, query, report))
}

// The derivation call for C.
pub fn lemitsaka_derivation(order: &[u8], query: &[u8], buffer: &mut [u8]) -> u64
    ensures { Codes (derivation_call (input_of order.now query.now buffer.old)) result buffer.new }
{
    answer_codes::verdict_number(prover::derivation(order, query, buffer))
}

// The verdict call for C, of a query with three links.
pub fn lemitsaka_links_verdict(order: &[u8], query: &[u8], report: &mut [u8]) -> u64
    ensures { Codes (verdict_call_of three_link_form (input_of order.now query.now report.old)) result report.new }
{
    answer_codes::verdict_number(prover::links_verdict(order, query, report))
}

// The derivation call for C, of a query with three links.
pub fn lemitsaka_links_derivation(order: &[u8], query: &[u8], buffer: &mut [u8]) -> u64
    ensures { Codes (derivation_call_of three_link_form (input_of order.now query.now buffer.old)) result buffer.new }
{
    answer_codes::verdict_number(prover::links_derivation(order, query, buffer))
}
