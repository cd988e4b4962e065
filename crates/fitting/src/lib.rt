// One line at one path, whatever numbers it holds: which rule it names, by which link, whether it applies at a triple, and whether a clash is
// a true one.
#![tactic(auto)]

ghost use Rattle.std.specs.Prelude.{◌≡◌, Bool, true, ℕ, ◌+◌, ◌*◌, ◌≤◌, ◌<◌, length};
ghost use Rattle.logic.specs.Search.{◌and◌};
ghost use Rattle.logic.specs.Facts.{live, line, negated_at, plain_at, is_clash};
ghost use Rattle.logic.specs.Rules.{CYCLE, triple, move, applies, move_of};
ghost use Rattle.facts.specs.Path.{graph_of, path_of, HasLink};
ghost use Rattle.rows.specs.Square.{square};
ghost use Rattle.link_query.specs.Said.{said, Within};
ghost use Rattle.rules.specs.Answers.{kind_of, choice_of, move_as};
ghost use Rattle.rules.specs.Tests.{pair_test, third_test, is_not_cycle};
ghost use Rattle.rules.specs.Allowed.{allowed};
ghost use Rattle.literal_tests.specs.Tests.{one_term, reach_held, same_field};
ghost use Rattle.clash.specs.Sections.{literals_in};

use clash::Clash;
use facts::Facts;
use link_rows::Link;
use query::Layout;
use rows::Term;
use rules::{Move, Rule, Third};

// Term t is not replaced.
fn is_live(s: &Facts, n: usize, t: Term) -> bool
    requires { n ≤ 16 }
    ensures { result ≡ live n (path_of s.now) t.0 }
{
    let at = t.0;
    if at == 0 {
        return false;
    }
    if n < at {
        return false;
    }
    usize::from(s.rep[at]) == at
}

// The fact about a and b is held, whatever numbers they have.
fn holds(rows: &[u32; 17], a: Term, b: Term) -> bool
    ensures { result ≡ square rows.now a.0 b.0 }
{
    rows::is_held(rows, a.0, b.0)
}

// A rule other than CYCLE applies at a triple; `alive` says whether x is not replaced.
fn is_allowed(
    rule: Rule,
    alive: bool,
    link: &[u32; 17],
    reach: &[u32; 17],
    x: Term,
    y: Term,
    z: Term,
) -> bool
    ensures { (lives : ℕ → Bool) → alive ≡ lives x.0 → is_not_cycle (kind_of rule) ≡ true → result ≡ (pair_test lives (graph_of link.now reach.now) x.0 y.0 (kind_of rule) and third_test (graph_of link.now reach.now) x.0 y.0 z.0 (kind_of rule)) }
{
    match rule {
        Rule::Reflex => alive & !holds(reach, x, x) & (y.0 == 0) & (z.0 == 0),
        Rule::Trans1 => holds(link, x, y) & !holds(reach, x, y) & (z.0 == 0),
        Rule::Trans2 => holds(reach, x, y) & holds(reach, y, z) & !holds(reach, x, z),
        Rule::Func => {
            holds(link, x, y) & holds(reach, x, z) & (x.0 != z.0) & !holds(reach, y, z)
        }
        Rule::Cycle => false,
        Rule::Scc => {
            holds(reach, x, y)
                & holds(reach, y, x)
                & (x.0 != y.0)
                & holds(reach, x, z)
                & !holds(reach, z, x)
        }
        Rule::Total => {
            holds(reach, x, y) & holds(reach, x, z) & !holds(reach, y, z) & !holds(reach, z, y)
        }
        Rule::Share => {
            holds(reach, x, y)
                & holds(reach, y, x)
                & (x.0 != y.0)
                & holds(link, x, z)
                & holds(link, y, z)
        }
    }
}

// CYCLE applies at x, y and k: the links return to x after k steps and not before, x reaches y, and y is none of the k terms from x on.
fn is_round(link: &[u32; 17], reach: &[u32; 17], n: usize, x: Term, y: Term, k: usize) -> bool
    requires { n ≤ 16 }
    ensures { (lives : ℕ → Bool) → result ≡ allowed n lives (graph_of link.now reach.now) (move 1 CYCLE (triple x.0 y.0 k)) }
{
    if !holds(reach, x, y) {
        return false;
    }
    if k == 0 {
        return false;
    }
    let first = link_steps::next(link, n, x);
    let back = link_steps::follow(link, n, first, x, k);
    if back.steps != k - 1 {
        return false;
    }
    let round = link_steps::follow(link, n, x, y, k);
    round.steps == k
}

// The rule that the first number of a line names, and by which link of the path: it "gains 16 times (link minus 1)" (02, R-11).
pub fn named(s: &Facts, number: u8, x: Term, y: Term, z: Third) -> Option<Move>
    ensures { choice_of result ≡ move_of (path_of s.now).links number (triple x.0 y.0 z.0) }
{
    let k = usize::from(number) / 16 + 1;
    if s.links() < k {
        return None;
    }
    let rule = Rule::numbered(number % 16)?;
    Some(Move {
        link: Link(k),
        rule,
        x,
        y,
        z,
    })
}

// The move applies to the path: the third number of its triple is a term, or the steps of CYCLE.
pub fn applies(s: &Facts, n: usize, m: Move) -> bool
    requires { (n ≤ 16) × HasLink (path_of s.now) m.link.0 }
    ensures { result ≡ applies n (path_of s.now) (move_as m) }
{
    let link = link_rows::rows_of(&s.link, m.link);
    let reach = link_rows::rows_of(&s.reach, m.link);
    if m.rule.is_not_cycle() {
        let alive = is_live(s, n, m.x);
        return is_allowed(m.rule, alive, &link, &reach, m.x, m.y, m.z.term());
    }
    is_round(&link, &reach, n, m.x, m.y, m.z.0)
}

// Equality i, from 1, is negated, and its terms have one representative.
fn is_equality_clash(query: &[u8], at: usize, count: usize, s: &Facts, i: usize) -> bool
    requires { at + 3 * count ≤ length query.now }
    ensures { result ≡ negated_at (literals_in query.now at count) i (one_term (path_of s.now).rep) }
{
    if i == 0 {
        return false;
    }
    if count < i {
        return false;
    }
    literal_tests::is_unequal_to_itself(query, at, i - 1, s)
}

// Reachability literal i, from 1, is negated, and its fact is held.
fn is_reach_clash(query: &[u8], layout: Layout, s: &Facts, i: usize) -> bool
    requires { Within layout query.now }
    ensures { result ≡ negated_at (said layout query.now).reachability i (reach_held (path_of s.now)) }
{
    if i == 0 {
        return false;
    }
    let count = layout.reach_count;
    if count < i {
        return false;
    }
    literal_tests::is_held_negated(query, layout.links, layout.reach_at, i - 1, s)
}

// Data literal i, from 1, is negated, and literal j is a plain one of the same field and term.
fn is_field_clash(query: &[u8], at: usize, count: usize, s: &Facts, i: usize, j: usize) -> bool
    requires { at + 3 * count ≤ length query.now }
    ensures { result ≡ negated_at (literals_in query.now at count) i (λ l. plain_at (literals_in query.now at count) j (same_field (path_of s.now).rep l)) }
{
    if i == 0 {
        return false;
    }
    if count < i {
        return false;
    }
    if query::sign(query, at, i - 1) {
        return false;
    }
    if j == 0 {
        return false;
    }
    if count < j {
        return false;
    }
    let field = query::field(query, at, i - 1);
    let term = s.representative(query::right(query, at, i - 1));
    literal_tests::is_field_partner(query, at, j - 1, s, field, term)
}

// The line of a clash, whatever numbers it has, is a true one at the path.
pub fn is_clash(query: &[u8], layout: Layout, s: &Facts, clash: Clash) -> bool
    requires { Within layout query.now }
    ensures { result ≡ is_clash (said layout query.now) (path_of s.now) (line 9 clash.section clash.place clash.partner) }
{
    let i = clash.place;
    let j = clash.partner;
    if clash.section == 4 {
        return is_field_clash(query, layout.field_at, layout.field_count, s, i, j);
    }
    if j != 0 {
        return false;
    }
    if clash.section == 2 {
        return is_equality_clash(query, layout.equal_at, layout.equal_count, s, i);
    }
    if clash.section == 3 {
        return is_reach_clash(query, layout, s, i);
    }
    false
}
