// The lines of a report's text for Graphviz: its head, a line per node and an arrow per link, each behind the first `fill` bytes.
#![tactic(auto)]

ghost use Rattle.std.specs.Prelude.{true, ◌++◌, ◌+◌, ◌≤◌, ◌<◌, length};
ghost use Rattle.logic.specs.Search.{from, flat_map};
ghost use Rattle.logic.specs.Shown.{size_in};
ghost use Rattle.text.specs.Text.{Writes, decimal};
ghost use Rattle.drawing.specs.Text.{opening, comment_line, listed, blank, terms_at, node_line, arrow_line};

use heap_nodes::Node;
use rows::Term;

// "digraph heap {", and "The boolean byte stands in a comment line"
pub fn draw_head(out: &mut [u8], fill: usize, report: &[u8]) -> usize
    requires { fill ≤ 1000 }
    ensures { Writes out.old fill (opening ++ comment_line report.now) out.new result }
{
    dot_writer::add(
        out,
        fill,
        b"digraph heap {\n// ",
        report_reader::booleans_in(report),
        b"\n",
    )
}

// "blanks between"
fn draw_term(out: &mut [u8], fill: usize, first: bool, t: Term) -> usize
    requires { fill ≤ 1000 }
    ensures { Writes out.old fill (blank first ++ decimal t.0) out.new result }
{
    if first {
        return dot_writer::add(out, fill, b"", t.0, b"");
    }
    dot_writer::add(out, fill, b" ", t.0, b"")
}

// "the node's term numbers ascending"
fn draw_terms(out: &mut [u8], fill: usize, report: &[u8], v: Node) -> usize
    requires { fill + length (listed true (terms_at report.now v.0)) ≤ 1000 }
    ensures { Writes out.old fill (listed true (terms_at report.now v.0)) out.new result }
{
    let n = report_reader::count_in(report);
    let mut to = fill;
    let mut first = true;
    let end = n + 1;
    for t in 1..end {
        if report_reader::node_in(report, Term(t)).0 != v.0 {
            continue;
        }
        to = draw_term(out, to, first, Term(t));
        first = false;
    }
    to
}

// "A label is the node's term numbers ascending, blanks between, a slash and the data byte, all decimal."
fn draw_node(out: &mut [u8], fill: usize, report: &[u8], v: Node) -> usize
    requires { (v.0 < 256) × (fill + length (node_line report.now v.0) ≤ 1000) }
    ensures { Writes out.old fill (node_line report.now v.0) out.new result }
{
    let datum = report_reader::datum_in(report, v);
    let label = dot_writer::add(out, fill, b"", v.0, b" [label=\"");
    let slash = draw_terms(out, label, report, v);
    dot_writer::add(out, slash, b"/", datum, b"\"];\n")
}

// "an arrow per link"
fn draw_arrow(out: &mut [u8], fill: usize, report: &[u8], v: Node) -> usize
    requires { fill + length (arrow_line report.now v.0) ≤ 1000 }
    ensures { Writes out.old fill (arrow_line report.now v.0) out.new result }
{
    let link = report_reader::link_in(report, v);
    dot_writer::add_two(out, fill, v.0, b" -> ", link.0, b";\n")
}

// "a line per node .. ascending"
pub fn draw_nodes(out: &mut [u8], fill: usize, report: &[u8]) -> usize
    requires { fill + length (flat_map (node_line report.now) (from (size_in report.now) 1)) ≤ 1000 }
    ensures { Writes out.old fill (flat_map (node_line report.now) (from (size_in report.now) 1)) out.new result }
{
    let m = report_reader::size_in(report);
    let mut to = fill;
    for v in 1..m + 1 {
        to = draw_node(out, to, report, Node(v));
    }
    to
}

// "then an arrow per link .. ascending" (One loop over a closure for both would state each line's clause again, and is no plainer.)
pub fn draw_arrows(out: &mut [u8], fill: usize, report: &[u8]) -> usize
    requires { fill + length (flat_map (arrow_line report.now) (from (size_in report.now) 1)) ≤ 1000 }
    ensures { Writes out.old fill (flat_map (arrow_line report.now) (from (size_in report.now) 1)) out.new result }
{
    let m = report_reader::size_in(report);
    let mut to = fill;
    for v in 1..m + 1 {
        to = draw_arrow(out, to, report, Node(v));
    }
    to
}
