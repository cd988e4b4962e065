// The plain literals of a query taken into a path: its equalities are joined, its reachability facts are added.
#![tactic(auto)]

ghost use Rattle.std.specs.Prelude.{◌≡◌, Bool, cond, ◌+◌, ◌*◌, ◌≤◌, length, take, drop};
ghost use Rattle.logic.specs.Query.{literals};
ghost use Rattle.logic.specs.Facts.{and_then, join_each, reach_each};
ghost use Rattle.theory.proofs.Query.Tied.{Accepted};
ghost use Rattle.facts.specs.Path.{path_of};
ghost use Rattle.joins.specs.Pairs.{joined_of, Fits};
ghost use Rattle.link_query.specs.Said.{said, Within};
ghost use Rattle.plain_literals.specs.Taken.{path_by, join_one, same, Bounded, Terms, TermsIn};

use facts::Facts;
use joins::Joined;
use link_rows::Link;
use query::Layout;
use rows::Term;

// Two terms are joined, as what they became, after the pairs that were joined before.
pub fn join_terms(joined: &mut Joined, n: usize, left: Term, right: Term)
    requires { (n ≤ 16) × Terms (same left.0 right.0) × Bounded (path_of joined.old.facts) × Fits (and_then (joined_of joined.old) (join_one n (same left.0 right.0))) }
    ensures result_after { joined_of joined.new ≡ and_then (joined_of joined.old) (join_one n (same left.0 right.0)) }
    ensures bounded { Bounded (path_of joined.new.facts) }
{
    let a = joined.facts.representative(left);
    let b = joined.facts.representative(right);
    joined.join(n, a, b);
}

// "then each plain equality joined in query order"; a negated one is passed over.
pub fn join_each(joined: &mut Joined, n: usize, query: &[u8], at: usize, number: usize)
    requires within { (n ≤ 16) × (at + 3 * number ≤ length query.now) × TermsIn query.now at number × Bounded (path_of joined.old.facts) }
    requires fits { Fits (and_then (joined_of joined.old) (join_each n (literals (take (3 * number) (drop at query.now))))) }
    ensures result_after { joined_of joined.new ≡ and_then (joined_of joined.old) (join_each n (literals (take (3 * number) (drop at query.now)))) }
    ensures bounded { Bounded (path_of joined.new.facts) }
{
    for i in 0..number {
        if query::sign(query, at, i) {
            let left = query::left(query, at, i);
            let right = query::right(query, at, i);
            join_terms(joined, n, left, right);
        }
    }
}

// "then the plain reachability facts", each set in its row of its link, whatever the links are
pub fn reach_each(facts: &mut Facts, query: &[u8], layout: Layout)
    requires { Within layout query.now × Accepted (said layout query.now) × Bounded (path_of facts.old) }
    ensures added { (single : Bool) → cond single 1 3 ≡ layout.links → path_by single facts.new ≡ reach_each (said layout query.now).reachability (path_by single facts.old) }
    ensures kept { facts.new ≡ record facts.old { reach = facts.new.reach } }
{
    let links = layout.links;
    let at = layout.reach_at;
    for i in 0..layout.reach_count {
        if link_query::reach_sign(query, links, at, i) {
            let a = facts.representative(link_query::reach_left(query, links, at, i));
            let b = facts.representative(link_query::reach_right(query, links, at, i));
            let by = link_query::reach_link(query, links, at, i);
            link_rows::add(&mut facts.reach, Link(by), a, b);
        }
    }
}
