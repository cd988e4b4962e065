// Tests of one literal of the query, in place, against a path that is lent: of a negated equality, of a negated reachability literal, and of a
// data literal that may be the plain partner of a negated one.
#![tactic(auto)]

ghost use Rattle.std.specs.Prelude.{◌≡◌, not, ◌+◌, ◌*◌, ◌≤◌, length, eqb};
ghost use Rattle.logic.specs.Search.{◌and◌};
ghost use Rattle.facts.specs.Path.{path_of};
ghost use Rattle.query.specs.LaysOut.{literal_in};
ghost use Rattle.link_query.specs.Said.{reach_width, reach_in};
ghost use Rattle.literal_tests.specs.Tests.{one_term, reach_held};

use facts::Facts;
use link_rows::Link;
use rows::Term;

// Equality i is negated, and its terms have one representative.
pub fn is_unequal_to_itself(query: &[u8], at: usize, i: usize, s: &Facts) -> bool
    requires { at + 3 * i + 3 ≤ length query.now }
    ensures { result ≡ (not (literal_in query.now at i).plain and one_term (path_of s.now).rep (literal_in query.now at i)) }
{
    !query::sign(query, at, i)
        && s.representative(query::left(query, at, i))
            == s.representative(query::right(query, at, i))
}

// "a reaches b" by link k: a path of a single link has no other.
fn reaches(s: &Facts, k: usize, a: Term, b: Term) -> bool
    ensures { result ≡ ((path_of s.now).graph k).reach a.0 b.0 }
{
    0 < k && k <= s.links() && link_rows::is_held(&s.reach, Link(k), a.0, b.0)
}

// Reachability literal i is negated, and its fact is held. Of a plain one only the sign is read.
pub fn is_held_negated(query: &[u8], links: usize, at: usize, i: usize, s: &Facts) -> bool
    requires { at + reach_width links * i + reach_width links ≤ length query.now }
    ensures { result ≡ (not (reach_in links query.now at i).plain and reach_held (path_of s.now) (reach_in links query.now at i)) }
{
    if link_query::reach_sign(query, links, at, i) {
        return false;
    }
    let k = link_query::reach_link(query, links, at, i);
    let a = s.representative(link_query::reach_left(query, links, at, i));
    let b = s.representative(link_query::reach_right(query, links, at, i));
    reaches(s, k, a, b)
}

// Data literal j is plain, and says this field of a term with this representative.
pub fn is_field_partner(
    query: &[u8],
    at: usize,
    j: usize,
    s: &Facts,
    field: usize,
    term: Term,
) -> bool
    requires { at + 3 * j + 3 ≤ length query.now }
    ensures { result ≡ ((literal_in query.now at j).plain and (eqb field (literal_in query.now at j).left and eqb term.0 ((path_of s.now).rep (literal_in query.now at j).right))) }
{
    query::sign(query, at, j)
        && field == query::field(query, at, j)
        && term == s.representative(query::right(query, at, j))
}
