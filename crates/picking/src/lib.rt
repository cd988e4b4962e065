// Where a strategy goes on: a rule that applies, by which link, and its triple.
#![tactic(auto)]

ghost use Rattle.std.specs.Prelude.{◌≤◌};
ghost use Rattle.facts.specs.Path.{path_of};
ghost use Rattle.link_query.specs.Said.{Within};
ghost use Rattle.units.specs.Proposes.{Proposes};
ghost use Rattle.picking.specs.Picks.{Picks};

use facts::Facts;
use query::Layout;
use rules::Move;

// Where to look once no place is left with at most one alternative: where most facts would be added; by an order list, of the rules that branch
// TOTAL first; for an alternative that soon clashes, and then by an order list; or for that, and then where most facts would be added.
#[derive(Clone, Copy, PartialEq, Eq)]
pub enum Strategy {
    Gains,
    TotalFirst,
    Probing,
    ProbingGains,
}

// The rules that do not branch first, at the smallest triple.
fn plain(s: &Facts, n: usize) -> Option<Move>
    requires { n ≤ 16 }
    ensures { Picks n (path_of s.now) result }
{
    let order = [1u8, 2, 3, 8, 4, 5, 6, 7];
    rule_choice::choose(&order, s, n)
}

// The same, and of the rules that branch TOTAL first.
fn total_first(s: &Facts, n: usize) -> Option<Move>
    requires { n ≤ 16 }
    ensures { Picks n (path_of s.now) result }
{
    let order = [1u8, 2, 3, 8, 7, 6, 5, 4];
    rule_choice::choose(&order, s, n)
}

// Where strategies look next that do not go by an order list alone. Probing leaves the choice to an order list where nothing soon clashes: what
// is slow for one is seldom slow for the other.
fn proposed(query: &[u8], layout: Layout, strategy: Strategy, s: &Facts) -> Option<Move>
    requires { Within layout query.now }
    ensures { Proposes layout.terms (path_of s.now) result }
{
    match strategy {
        Strategy::Gains => gains::most(s, layout.terms),
        Strategy::TotalFirst => None,
        Strategy::Probing => probing::failing(query, layout, s),
        Strategy::ProbingGains => {
            if let Some(m) = probing::failing(query, layout, s) {
                return Some(m);
            }
            gains::most(s, layout.terms)
        }
    }
}

// What a strategy picks. Each of them looks for a place with at most one alternative left first.
pub fn pick(query: &[u8], layout: Layout, strategy: Strategy, s: &Facts) -> Option<Move>
    requires { Within layout query.now }
    ensures { Picks layout.terms (path_of s.now) result }
{
    if let Some(m) = units::unit(query, layout, s) {
        return Some(m);
    }
    if let Some(m) = proposed(query, layout, strategy, s) {
        return Some(m);
    }
    if strategy == Strategy::TotalFirst {
        return total_first(s, layout.terms);
    }
    plain(s, layout.terms)
}
