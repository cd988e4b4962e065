// A heap report's bytes: what stands where, and the checked test that it is well formed.
#![tactic(auto)]

ghost use Rattle.std.specs.Prelude.{◌≡◌, ◌+◌, ◌-◌, ◌<◌, length, get_or, eqb};
ghost use Rattle.logic.specs.Search.{from, all};
ghost use Rattle.logic.specs.Shown.{size_in, node_in, is_node, well_formed};
ghost use Rattle.drawing.specs.Text.{booleans_in, datum_in, count_in, link_in};

use heap_nodes::Node;
use rows::Term;

// The byte at a place, and 0 past the end.
pub fn byte_at(report: &[u8], at: usize) -> usize
    ensures { (result ≡ get_or report.now at 0) × (result < 256) }
{
    if at < report.len() {
        return report[at] as usize;
    }
    0
}

// What stands where in a report.
pub fn size_in(report: &[u8]) -> usize
    ensures { (result ≡ size_in report.now) × (result < 256) }
{
    byte_at(report, 0)
}

pub fn count_in(report: &[u8]) -> usize
    ensures { (result ≡ count_in report.now) × (result < 256) }
{
    byte_at(report, size_in(report) + 1)
}

// The node of a term, by the term-to-node section: a term's number becomes a node's in no other way.
pub fn node_in(report: &[u8], t: Term) -> Node
    requires { t.0 < 256 }
    ensures { result.0 ≡ node_in report.now t.0 }
{
    Node(byte_at(report, size_in(report) + 1 + t.0))
}

// The node that a node links to, and its data byte.
pub fn link_in(report: &[u8], v: Node) -> Node
    ensures { result.0 ≡ link_in report.now v.0 }
{
    Node(byte_at(report, v.0))
}

pub fn datum_in(report: &[u8], v: Node) -> usize
    requires { v.0 < 256 }
    ensures { result ≡ datum_in report.now v.0 }
{
    byte_at(report, size_in(report) + count_in(report) + 2 + v.0)
}

pub fn booleans_in(report: &[u8]) -> usize
    ensures { result ≡ booleans_in report.now }
{
    let m = size_in(report);
    byte_at(report, m + count_in(report) + m + 4)
}

// "every successor and node 1 to m": the bytes from a place on, below another.
fn all_nodes(report: &[u8], m: usize, at: usize, end: usize) -> bool
    ensures { result ≡ all (λ i. is_node m (get_or report.now i 0)) (from (end - at) at) }
{
    for i in at..end {
        let v = byte_at(report, i);
        if (v == 0) | (m < v) {
            return false;
        }
    }
    true
}

// "each byte past it zero"
fn all_zero(report: &[u8], at: usize) -> bool
    ensures { result ≡ all (λ i. eqb (get_or report.now i 0) 0) (from (length report.now - at) at) }
{
    for i in at..report.len() {
        if report[i] != 0 {
            return false;
        }
    }
    true
}

// "A report is well formed if m is 1 to 16, n at most 16, the third count m, the fourth 1, every successor and node 1 to m, and each
// byte past it zero"
pub fn is_well_formed(report: &[u8]) -> bool
    ensures { result ≡ well_formed 1 report.now }
{
    let m = size_in(report);
    let n = count_in(report);
    let size = m + n + m + 5;
    let third = byte_at(report, m + n + 2);
    let fourth = byte_at(report, m + n + m + 3);
    let counts = (0 < m) & (m <= 16) & (n <= 16) & (size <= report.len());
    let linked = all_nodes(report, m, 1, m + 1);
    let named = all_nodes(report, m, m + 2, m + n + 2);
    let blank = all_zero(report, size);
    counts & (third == m) & (fourth == 1) & linked & named & blank
}
