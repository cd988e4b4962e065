// The lines of a walk that is refuted, broken off as soon as there are more than anyone has use for.
#![tactic(auto)]

ghost use Rattle.std.specs.Prelude.{◌≤◌};
ghost use Rattle.logic.specs.Query.{term_count};
ghost use Rattle.logic.specs.Steps.{AtMost};
ghost use Rattle.logic.specs.Walk.{walk_branch, walk, order_of};
ghost use Rattle.facts.specs.Path.{path_of};
ghost use Rattle.joins.specs.Pairs.{joined_of, Fits};
ghost use Rattle.link_query.specs.Said.{said, Within};
ghost use Rattle.listing.specs.Lists.{Lists};

use joins::Joined;
use query::Layout;
use walk::Seen;

// Our walk of a path that is refuted, with its lines: those of the pairs joined to make it, one look, and then each branch in order. The count of
// lines by then is answered. Where more than `most` lines stand it stops and answers None: lines only grow, so that the whole walk has more
// than that. Of a path that is not refuted nothing is said. Paths are lent, and each branch is one of its own.
pub fn list(
    query: &[u8],
    layout: Layout,
    order: &[u8],
    left: usize,
    goal: &Joined,
    lines: &mut [u8],
    first: usize,
    most: usize,
) -> Option<usize>
    requires { Within layout query.now × Fits (joined_of goal.now) × (first ≤ 16001) × AtMost (term_count (said layout query.now)) (path_of goal.now.facts) left }
    ensures { Lists result (walk_branch (walk (said layout query.now) (order_of order.now) left) (joined_of goal.now)) lines.old first most lines.new }
{
    let count = walk::put_joins(lines, first, &goal.pairs);
    if most < count {
        return None;
    }
    match walk::look(query, layout, order, &goal.facts) {
        Seen::Saturated => None,
        Seen::Clashing(clash) => {
            walk::put_line(lines, count, 9, clash.section, clash.place, clash.partner);
            Some(walk::counted(count))
        }
        Seen::Applying(m) => {
            walk::put_line(lines, count, walk::number(m), m.x.0, m.y.0, m.z.0);
            let mut written = walk::counted(count);
            for i in 0..alternatives::count(m) {
                let mut made = *goal;
                branch::make(&mut made, layout.terms, m, i);
                written = list(query, layout, order, left - 1, &made, lines, written, most)?;
            }
            Some(written)
        }
    }
}
