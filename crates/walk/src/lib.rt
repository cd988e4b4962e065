// One look of the branch walk, and the lines that it writes.
#![tactic(auto)]

ghost use Rattle.std.specs.Prelude.{◌≡◌, ◌+◌, ◌*◌, ◌≤◌, ◌<◌, length};
ghost use Rattle.logic.specs.Facts.{line, join_lines};
ghost use Rattle.logic.specs.Rules.{move_number};
ghost use Rattle.logic.specs.Walk.{look, order_of};
ghost use Rattle.facts.specs.Path.{path_of};
ghost use Rattle.joins.specs.Pairs.{pairs_of};
ghost use Rattle.link_query.specs.Said.{said, Within};
ghost use Rattle.rules.specs.Answers.{kind_of};
ghost use Rattle.walk.specs.Lines.{counted, count_all, put_line, put_all};
ghost use Rattle.walk.specs.Looks.{look_of};

use clash::Clash;
use facts::Facts;
use joins::Pairs;
use query::Layout;
use rules::Move;

// One line more, up to one above 16,000.
pub fn counted(count: usize) -> usize
    ensures { result ≡ counted count }
{
    if count <= 16000 {
        return count + 1;
    }
    count
}

// A line at its place, where there is room for it.
pub fn put_line(lines: &mut [u8], count: usize, a: usize, b: usize, c: usize, d: usize)
    requires { (count ≤ 16001) × (a < 256) × (b < 256) × (c < 256) × (d < 256) }
    ensures { lines.new ≡ put_line lines.old count (line a b c d) }
{
    let at = 4 * count + 2;
    if lines.len() < at + 4 {
        return;
    }
    lines[at] = a as u8;
    lines[at + 1] = b as u8;
    lines[at + 2] = c as u8;
    lines[at + 3] = d as u8;
}

// "A line 10, kept term, replaced term, 0 for each" pair; the count of lines then. Where there is no room only the count moves.
pub fn put_joins(lines: &mut [u8], first: usize, pairs: &Pairs) -> usize
    requires { (length (pairs_of pairs.now) ≤ 17) × (first ≤ 16001) }
    ensures value { result ≡ count_all first (join_lines (pairs_of pairs.now)) }
    ensures lines_after { lines.new ≡ put_all lines.old first (join_lines (pairs_of pairs.now)) }
{
    let mut count = first;
    for i in 0..pairs.count {
        let (kept, replaced) = pairs.entries[i];
        put_line(
            lines,
            count,
            10,
            usize::from(kept),
            usize::from(replaced),
            0,
        );
        count = counted(count);
    }
    count
}

// What is seen at a path: its clash, the rule to apply, or neither.
#[derive(Clone, Copy)]
pub enum Seen {
    Clashing(Clash),
    Applying(Move),
    Saturated,
}

// The number of a move, as a line has it: that of the rule "gains 16 times (link minus 1)" (02, R-11).
pub fn number(m: Move) -> usize
    requires { (0 < m.link.0) × (m.link.0 ≤ 3) }
    ensures { (result ≡ move_number m.link.0 (kind_of m.rule)) × (result < 256) }
{
    16 * (m.link.0 - 1) + m.rule.number()
}

// The clash: "It is looked for before any rule and ends the path." Else the first rule that applies.
pub fn look(query: &[u8], layout: Layout, order: &[u8], s: &Facts) -> Seen
    requires { Within layout query.now }
    ensures { look_of result ≡ look (said layout query.now) (order_of order.now) (path_of s.now) }
{
    if let Some(clash) = clash::find_clash(query, layout, s) {
        return Seen::Clashing(clash);
    }
    match rule_choice::choose(order, s, layout.terms) {
        Some(m) => Seen::Applying(m),
        None => Seen::Saturated,
    }
}
