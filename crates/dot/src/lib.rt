// The text of a heap report for Graphviz. The call asks nothing of its caller.
#![tactic(auto)]

ghost use Rattle.std.specs.Prelude.{◌≤◌, length};
ghost use Rattle.text.specs.Text.{Writes};
ghost use Rattle.drawing.specs.Text as drawing;
ghost use Rattle.drawing.specs.Call.{dot_call};
ghost use Rattle.dot.specs.Promise.{Does};

use refusals::{Fault, Refusal};

// The whole text, with its closing line.
fn draw(report: &[u8], out: &mut [u8]) -> usize
    requires { length (drawing.text report.now) ≤ 1000 }
    ensures { Writes out.old 0 (drawing.text report.now) out.new result }
{
    dot_text::draw(out, report, b"}\n")
}

// The text of a report, its length and zeros past it; or a refusal, and zeros: "13 a report not well formed, then 14 buffer too short"
pub fn dot(report: &[u8], text: &mut [u8]) -> Result<usize, Refusal>
    ensures { Does (dot_call report.now (length text.old)) result text.new }
{
    lent::clear(text);
    if !report_reader::is_well_formed(report) {
        return Err(Fault::HeapReport.at(0));
    }
    let length = draw(report, text);
    if text.len() < length {
        lent::clear(text);
        return Err(Fault::TextBuffer.at(0));
    }
    Ok(length)
}
