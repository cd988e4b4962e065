// The whole text of a report through one writer: it is made over the caller's buffer, lent to part after part and dropped at the end
// (02, R-2). A part with a loop lends the writer's buffer on to a function on the slice and the fill (`dot_lines`), and sets the fill to
// what that function answers.
#![tactic(auto)]

ghost use Rattle.std.specs.Prelude.{◌≡◌, ◌++◌, ◌+◌, ◌≤◌, length};
ghost use Rattle.text.specs.Text.{Writes};
ghost use Rattle.dot_writer.specs.Written.{written};
ghost use Rattle.dot_text.specs.Parts.{head, nodes, arrows};

use dot_writer::Writer;

// "digraph heap {", and "The boolean byte stands in a comment line"
fn put_head<'a, 'b>(w: &mut Writer<'a>, report: &'b [u8])
    requires { w.old.fill ≤ 1000 }
    ensures { w.new ≡ written w.old (head report.now) }
{
    let fill = w.fill;
    w.fill = dot_lines::draw_head(&mut *w.out, fill, report);
}

// "a line per node .. ascending"
fn put_nodes<'a, 'b>(w: &mut Writer<'a>, report: &'b [u8])
    requires { w.old.fill + length (nodes report.now) ≤ 1000 }
    ensures { w.new ≡ written w.old (nodes report.now) }
{
    let fill = w.fill;
    w.fill = dot_lines::draw_nodes(&mut *w.out, fill, report);
}

// "then an arrow per link .. ascending"
fn put_arrows<'a, 'b>(w: &mut Writer<'a>, report: &'b [u8])
    requires { w.old.fill + length (arrows report.now) ≤ 1000 }
    ensures { w.new ≡ written w.old (arrows report.now) }
{
    let fill = w.fill;
    w.fill = dot_lines::draw_arrows(&mut *w.out, fill, report);
}

// The parts, and the bytes that end the text.
pub fn draw<'a, 'b>(out: &'a mut [u8], report: &'b [u8], end: &'b [u8]) -> usize
    requires { length (head report.now) + length (nodes report.now) + length (arrows report.now) + length end.now ≤ 1000 }
    ensures { Writes out.old 0 (head report.now ++ (nodes report.now ++ (arrows report.now ++ end.now))) out.new result }
{
    let mut w = Writer::new(out, 0);
    put_head(&mut w, report);
    put_nodes(&mut w, report);
    put_arrows(&mut w, report);
    w.append_bytes(end);
    w.filled()
}
