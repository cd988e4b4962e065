// Queries with between literals, for C.
ghost use Rattle.std.specs.Prelude.{length};
ghost use Rattle.between_search.specs.Calls.{between_call};
ghost use Rattle.lemitsaka.specs.VerdictPromise.{Codes};

// The between call for C.
pub fn lemitsaka_between(query: &[u8], report: &mut [u8]) -> u64
    ensures { Codes (between_call query.now (length report.old)) result report.new }
{
    answer_codes::between_number(between_call::between(query, report))
}
