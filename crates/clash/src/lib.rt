// The clash of a path, over the query's bytes in place.
#![tactic(auto)]

ghost use Rattle.std.specs.Prelude.{◌≡◌, ◌+◌, ◌*◌, ◌≤◌, ◌<◌, length};
ghost use Rattle.logic.specs.Facts.{clash};
ghost use Rattle.facts.specs.Path.{path_of};
ghost use Rattle.link_query.specs.Said.{said, Within};
ghost use Rattle.literal_tests.specs.Tests.{one_term, reach_held, same_field};
ghost use Rattle.clash.specs.Sections.{literals_in, alone, partner, paired};
ghost use Rattle.clash.specs.Answers.{place_of, line_of};

use facts::Facts;
use query::Layout;

// A clash: its section, the place of the negated literal, from 1, and that of its plain partner or 0, as a line has them.
#[derive(Clone, Copy)]
pub struct Clash {
    pub section: usize,
    pub place: usize,
    pub partner: usize,
}

// "a negated equality of one term with itself"
fn equality_clash(query: &[u8], at: usize, count: usize, s: &Facts) -> Option<Clash>
    requires { at + 3 * count ≤ length query.now }
    ensures { line_of result ≡ alone 2 (literals_in query.now at count) (one_term (path_of s.now).rep) }
{
    for i in 0..count {
        if literal_tests::is_unequal_to_itself(query, at, i, s) {
            return Some(Clash {
                section: 2,
                place: i + 1,
                partner: 0,
            });
        }
    }
    None
}

// "a negated reachability fact that is held"
fn reach_clash(query: &[u8], layout: Layout, s: &Facts) -> Option<Clash>
    requires { Within layout query.now }
    ensures { line_of result ≡ alone 3 (said layout query.now).reachability (reach_held (path_of s.now)) }
{
    for i in 0..layout.reach_count {
        if literal_tests::is_held_negated(query, layout.links, layout.reach_at, i, s) {
            return Some(Clash {
                section: 3,
                place: i + 1,
                partner: 0,
            });
        }
    }
    None
}

// The place, from 1, of the lowest plain partner of data literal i, where that is negated.
fn field_partner(query: &[u8], at: usize, count: usize, s: &Facts, i: usize) -> Option<usize>
    requires { (at + 3 * count ≤ length query.now) × (i < count) }
    ensures { place_of result ≡ partner (literals_in query.now at count) (same_field (path_of s.now).rep) (i + 1) }
{
    if query::sign(query, at, i) {
        return None;
    }
    let field = query::field(query, at, i);
    let term = s.representative(query::right(query, at, i));
    for j in 0..count {
        if literal_tests::is_field_partner(query, at, j, s, field, term) {
            return Some(j + 1);
        }
    }
    None
}

// "a data .. literal held plain and negated"
fn field_clash(query: &[u8], at: usize, count: usize, s: &Facts) -> Option<Clash>
    requires { at + 3 * count ≤ length query.now }
    ensures { line_of result ≡ paired 4 (literals_in query.now at count) (same_field (path_of s.now).rep) }
{
    for i in 0..count {
        if let Some(partner) = field_partner(query, at, count, s, i) {
            return Some(Clash {
                section: 4,
                place: i + 1,
                partner,
            });
        }
    }
    None
}

// "Lowest section, then lowest place, is reported"; a clash line names no link (02, R-11).
pub fn find_clash(query: &[u8], layout: Layout, s: &Facts) -> Option<Clash>
    requires { Within layout query.now }
    ensures { line_of result ≡ clash (said layout query.now) (path_of s.now) }
{
    if let Some(clash) = equality_clash(query, layout.equal_at, layout.equal_count, s) {
        return Some(clash);
    }
    if let Some(clash) = reach_clash(query, layout, s) {
        return Some(clash);
    }
    field_clash(query, layout.field_at, layout.field_count, s)
}
