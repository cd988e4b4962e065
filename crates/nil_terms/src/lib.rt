// Nil taken into a path: the terms that name it are joined to the lowest, and each of its links goes to itself.
#![tactic(auto)]

ghost use Rattle.std.specs.Prelude.{◌≡◌, ◌+◌, ◌≤◌};
ghost use Rattle.logic.specs.Query.{names_nil};
ghost use Rattle.logic.specs.Facts.{and_then, join_each, equal_to, join_nil};
ghost use Rattle.facts.specs.Path.{path_of};
ghost use Rattle.joins.specs.Pairs.{joined_of, Fits};
ghost use Rattle.link_query.specs.Said.{said, Within};
ghost use Rattle.plain_literals.specs.Taken.{Bounded};
ghost use Rattle.nil_terms.specs.Nil.{nil_from, FirstNil};

use joins::Joined;
use query::Layout;
use rows::Term;

// Term t names nil.
fn names_nil(query: &[u8], layout: Layout, t: Term) -> bool
    requires { Within layout query.now × (1 ≤ t.0) × (t.0 ≤ layout.terms) }
    ensures { result ≡ names_nil (said layout query.now).entries t.0 }
{
    link_query::entry(query, layout.links, t) == 255
}

// The first term that names nil.
fn first_nil(query: &[u8], layout: Layout) -> Option<Term>
    requires { Within layout query.now }
    ensures { FirstNil (said layout query.now).entries layout.terms result }
{
    for t in 1..layout.terms + 1 {
        if names_nil(query, layout, Term(t)) {
            return Some(Term(t));
        }
    }
    None
}

// "joins the nil terms to the lowest, ascending" (02, R-3)
fn join_others(joined: &mut Joined, query: &[u8], layout: Layout, first: Term)
    requires within { Within layout query.now × (first.0 ≤ layout.terms) × Bounded (path_of joined.old.facts) }
    requires fits { Fits (and_then (joined_of joined.old) (join_each layout.terms (equal_to first.0 (nil_from (said layout query.now).entries layout.terms (first.0 + 1))))) }
    ensures result_after { joined_of joined.new ≡ and_then (joined_of joined.old) (join_each layout.terms (equal_to first.0 (nil_from (said layout query.now).entries layout.terms (first.0 + 1)))) }
    ensures bounded { Bounded (path_of joined.new.facts) }
{
    for u in first.0 + 1..layout.terms + 1 {
        if names_nil(query, layout, Term(u)) {
            plain_literals::join_terms(joined, layout.terms, first, Term(u));
        }
    }
}

// "then adds nil's link and joins its doubled successors"; nil's links "are added before their joins" (02, R-11)
pub fn join_nil(joined: &mut Joined, query: &[u8], layout: Layout)
    requires within { Within layout query.now × Bounded (path_of joined.old.facts) }
    requires fits { Fits (and_then (joined_of joined.old) (join_nil layout.terms (nil_from (said layout query.now).entries layout.terms 1))) }
    ensures result_after { joined_of joined.new ≡ and_then (joined_of joined.old) (join_nil layout.terms (nil_from (said layout query.now).entries layout.terms 1)) }
    ensures bounded { Bounded (path_of joined.new.facts) }
{
    let Some(first) = first_nil(query, layout) else {
        return;
    };
    join_others(joined, query, layout, first);
    let nil = joined.facts.representative(first);
    joined.facts.add_links(nil, nil);
    joined.settle(layout.terms);
}
