// The start of a query: the path that holds its links, nil's, its plain equalities and its plain reachability facts.
#![tactic(auto)]

ghost use Rattle.std.specs.Prelude.{◌≡◌};
ghost use Rattle.theory.proofs.Query.Tied.{Accepted};
ghost use Rattle.joins.specs.Pairs.{joined_of};
ghost use Rattle.link_query.specs.Said.{said, Within};
ghost use Rattle.start.specs.Started.{started};

use facts::Facts;
use joins::Joined;
use query::Layout;

// The start of an accepted query, and the pairs joined to make it.
pub fn start(query: &[u8], layout: Layout) -> Joined
    requires { Within layout query.now × Accepted (said layout query.now) }
    ensures { joined_of result ≡ started (said layout query.now) }
{
    let n = layout.terms;
    let mut facts = Facts::unjoined(layout.links == 1);
    facts.link = term_links::links_of(query, layout);
    let mut joined = Joined::of(facts);
    joined.settle(n);
    nil_terms::join_nil(&mut joined, query, layout);
    plain_literals::join_each(&mut joined, n, query, layout.equal_at, layout.equal_count);
    plain_literals::reach_each(&mut joined.facts, query, layout);
    joined
}
