// The text of a heap report, for C.
ghost use Rattle.std.specs.Prelude.{length};
ghost use Rattle.drawing.specs.Call.{dot_call};
ghost use Rattle.lemitsaka.specs.DotPromise.{DotCodes};

// The dot call for C.
pub fn lemitsaka_dot(report: &[u8], text: &mut [u8]) -> u64
    ensures { DotCodes (dot_call report.now (length text.old)) result text.new }
{
    answer_codes::dot_number(dot::dot(report, text))
}
