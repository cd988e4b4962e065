// Nogoods of a query: facts that no finite heap which meets it has, held as a path of their own. Which facts are kept is a guess, and nothing is
// proved of it; each guess is tried by what is proved (the clash of a path, its closure, a branch, subsumption), and where it fails all facts
// of the path are taken.
#![tactic(auto)]

ghost use Rattle.std.specs.Prelude.{◌≡◌, true, false, ℕ, ◌+◌, ◌*◌, ◌≤◌, ◌<◌, length, IfSome};
ghost use Rattle.logic.specs.Query.{Query};
ghost use Rattle.theory.proofs.Query.Tied.{Accepted};
ghost use Rattle.facts.specs.Path.{path_of, links_by, HasLink};
ghost use Rattle.rules.specs.Answers.{kind_of, TripleInRange};
ghost use Rattle.rules.specs.Tests.{is_not_cycle};
ghost use Rattle.alternatives.specs.Alternatives.{count_of, alternative_at};
ghost use Rattle.link_query.specs.Said.{said, Within};
ghost use Rattle.covering.specs.Covers.{Covers};
ghost use Rattle.nogoods.specs.Nogoods.{Nogood, Excludes, ExcludesAll};

use alternatives::Fact;
use clash::Clash;
use facts::Facts;
use query::Layout;
use rows::Term;
use rules::{Move, Rule};

// What stands for the terms on a branch, and a nogood of it.
#[derive(Drop)]
pub struct Branched {
    pub names: [u8; 17],
    pub nogood: Facts,
}

// Where the fact of link k about a stands in the rows of all links, if anywhere.
fn row_place(k: usize, a: usize) -> Option<usize>
    ensures { IfSome result (λ at. at < 51) }
{
    if k == 0 || 3 < k || 16 < a {
        return None;
    }
    Some(17 * (k - 1) + a)
}

// A fact of link k more among the rows of all links.
fn add_fact(rows: &mut [u32; 51], k: usize, a: usize, b: usize) {
    let Some(at) = row_place(k, a) else {
        return;
    };
    if b <= 16 {
        rows[at] |= rows::only(b);
    }
}

// A fact of link k less.
fn drop_fact(rows: &mut [u32; 51], k: usize, a: usize, b: usize) {
    let Some(at) = row_place(k, a) else {
        return;
    };
    if b <= 16 {
        rows[at] = rows::without(rows[at], rows::only(b));
    }
}

// A fact of link k is among the rows of all links.
fn is_fact(rows: &[u32; 51], k: usize, a: usize, b: usize) -> bool {
    let Some(at) = row_place(k, a) else {
        return false;
    };
    b <= 16 && rows::has(rows[at], b)
}

// Only the facts that others have too.
fn keep_common(rows: &mut [u32; 51], others: &[u32; 51]) {
    for (row, other) in rows.iter_mut().zip(others) {
        *row &= *other;
    }
}

// The facts that others have as well.
fn add_all(rows: &mut [u32; 51], others: &[u32; 51]) {
    for (row, other) in rows.iter_mut().zip(others) {
        *row |= *other;
    }
}

// The term t gets the name that it has among others.
fn add_name(rep: &mut [u8; 17], names: &[u8; 17], t: Term) {
    if t.0 <= 16 {
        rep[t.0] = names[t.0];
    }
}

// Each term that some third names replace gets the name that it has among others.
fn add_names(rep: &mut [u8; 17], names: &[u8; 17], replaced: &[u8; 17]) {
    for (t, name) in rep.iter_mut().enumerate() {
        if usize::from(replaced[t]) != t {
            *name = names[t];
        }
    }
}

// The names of two terms.
fn two_names(s: &Facts, a: Term, b: Term) -> Facts {
    let mut small = Facts::unjoined(s.single);
    add_name(&mut small.rep, &s.rep, a);
    add_name(&mut small.rep, &s.rep, b);
    small
}

// The names of the terms of equality i, from 1.
fn equality_facts(query: &[u8], at: usize, count: usize, s: &Facts, i: usize) -> Facts
    requires { at + 3 * count ≤ length query.now }
{
    if i == 0 || count < i {
        return Facts::unjoined(s.single);
    }
    two_names(
        s,
        query::left(query, at, i - 1),
        query::right(query, at, i - 1),
    )
}

// The names of the terms of data literals i and j, from 1.
fn field_facts(query: &[u8], at: usize, count: usize, s: &Facts, i: usize, j: usize) -> Facts
    requires { at + 3 * count ≤ length query.now }
{
    if i == 0 || count < i || j == 0 || count < j {
        return Facts::unjoined(s.single);
    }
    two_names(
        s,
        query::right(query, at, i - 1),
        query::right(query, at, j - 1),
    )
}

// The names of the terms of reachability literal i, from 1, and its fact.
fn reach_facts(query: &[u8], layout: Layout, s: &Facts, i: usize) -> Facts
    requires { Within layout query.now }
{
    if i == 0 || layout.reach_count < i {
        return Facts::unjoined(s.single);
    }
    let links = layout.links;
    let from = layout.reach_at;
    let a = link_query::reach_left(query, links, from, i - 1);
    let b = link_query::reach_right(query, links, from, i - 1);
    let k = link_query::reach_link(query, links, from, i - 1);
    let start = s.representative(a);
    let end = s.representative(b);
    let mut small = two_names(s, a, b);
    add_fact(&mut small.reach, k, start.0, end.0);
    small
}

// The facts of a path that a clash of it names.
fn clash_facts(query: &[u8], layout: Layout, s: &Facts, clash: Clash) -> Facts
    requires { Within layout query.now }
{
    let i = clash.place;
    match clash.section {
        2 => equality_facts(query, layout.equal_at, layout.equal_count, s, i),
        3 => reach_facts(query, layout, s, i),
        _ => field_facts(
            query,
            layout.field_at,
            layout.field_count,
            s,
            i,
            clash.partner,
        ),
    }
}

// A nogood of a path with this clash.
pub fn of_clash(query: &[u8], layout: Layout, s: &Facts, clash: Clash) -> Option<Facts>
    requires { Within layout query.now × Accepted (said layout query.now) }
    ensures { IfSome result (λ nogood. Nogood (said layout query.now) (path_of nogood)) }
{
    let small = clash_facts(query, layout, s, clash);
    if fitting::is_clash(query, layout, &small, clash) {
        return Some(small);
    }
    if fitting::is_clash(query, layout, s, clash) {
        return Some(*s);
    }
    None
}

// Every number of a row is come to from a.
fn come_from(from: &mut [u8; 17], new: u32, a: u8) {
    for (b, near) in from.iter_mut().enumerate() {
        if rows::has(new, b) {
            *near = a;
        }
    }
}

// From where each number is come to on the shortest way from a, by facts of one link; 0 where nothing leads there.
fn ways(near: &[u32; 17], a: usize) -> [u8; 17] {
    let mut from = [0u8; 17];
    if 16 < a {
        return from;
    }
    let mut ahead = rows::only(a);
    let mut seen = ahead;
    for _ in 0..17 {
        let Some(t) = rows::first(ahead) else {
            return from;
        };
        if 16 < t.0 {
            return from;
        }
        let new = rows::without(near[t.0], seen);
        seen |= new;
        ahead = rows::without(ahead, rows::only(t.0)) | new;
        come_from(&mut from, new, t.0 as u8);
    }
    from
}

// One fact of a path on a way: a reachability fact, or where there is none a link.
fn add_step(small: &mut Facts, path: &Facts, k: usize, a: usize, b: usize) {
    if is_fact(&path.reach, k, a, b) {
        add_fact(&mut small.reach, k, a, b);
    } else {
        add_fact(&mut small.link, k, a, b);
    }
}

// The facts of a path on the way from a to b.
fn add_way(small: &mut Facts, path: &Facts, from: &[u8; 17], k: usize, a: usize, b: usize) {
    let mut to = b;
    for _ in 0..17 {
        if to == a || 16 < to {
            return;
        }
        let near = usize::from(from[to]);
        add_step(small, path, k, near, to);
        to = near;
    }
}

// The facts of link k about each number, links and reachability in one.
fn near_rows(path: &Facts, k: usize) -> [u32; 17] {
    let mut near = [0u32; 17];
    for (a, row) in near.iter_mut().enumerate() {
        if let Some(at) = row_place(k, a) {
            *row = path.link[at] | path.reach[at];
        }
    }
    near
}

// The facts of a path that lead from a to every number of a row, by link k.
fn add_ways(small: &mut Facts, path: &Facts, k: usize, a: usize, row: u32) {
    let from = ways(&near_rows(path, k), a);
    for b in 0..17 {
        if rows::has(row, b) {
            add_way(small, path, &from, k, a, b);
        }
    }
}

// The facts of a path whose closure has those of a nogood about link k.
fn trace_link(small: &mut Facts, path: &Facts, nogood: &Facts, k: usize) {
    for a in 0..17 {
        if let Some(at) = row_place(k, a) {
            let held = path.reach[at] | rows::only(a);
            let missing = rows::without(nogood.reach[at], held);
            if missing != 0 {
                add_ways(small, path, k, a, missing);
            }
        }
    }
}

// The facts of a path whose closure has those of a nogood.
fn traced(path: &Facts, nogood: &Facts) -> Facts {
    let mut small = *nogood;
    small.single = path.single;
    keep_common(&mut small.reach, &path.reach);
    for k in 1..=path.links() {
        trace_link(&mut small, path, nogood, k);
    }
    small
}

// These facts, closed, hold the nogood, and the path holds them.
fn explains(n: usize, small: &Facts, path: &Facts, nogood: &Facts) -> bool
    requires { n ≤ 16 }
    ensures { result ≡ true → Covers (path_of path.now) (path_of small.now) × ((q : Query) → Nogood q (path_of nogood.now) → Nogood q (path_of small.now)) }
{
    let mut closed = *small;
    closing::close(&mut closed, n);
    covering::covers(&closed, nogood) && covering::covers(path, small)
}

// A nogood of the closure of a path as one of the path.
pub fn before_closing(n: usize, path: &Facts, nogood: &Facts) -> Option<Facts>
    requires { n ≤ 16 }
    ensures { IfSome result (λ small. Covers (path_of path.now) (path_of small) × ((q : Query) → Nogood q (path_of nogood.now) → Nogood q (path_of small))) }
{
    let small = traced(path, nogood);
    if explains(n, &small, path, nogood) {
        return Some(small);
    }
    if explains(n, path, path, nogood) {
        return Some(*path);
    }
    None
}

// The numbers that t stands for.
fn class_of(names: &[u8; 17], t: usize) -> u32 {
    let mut row = 0;
    for (a, name) in names.iter().enumerate() {
        if usize::from(*name) == t {
            row |= rows::only(a);
        }
    }
    row
}

// A fact of a path about numbers that a and b stand for after a join, by link k.
fn add_source(reach: &mut [u32; 51], path: &Facts, names: &[u8; 17], k: usize, a: usize, b: usize) {
    let left = class_of(names, a);
    let right = class_of(names, b);
    for c in 0..17 {
        if let Some(at) = row_place(k, c) {
            if let Some(d) = rows::first(path.reach[at] & right) {
                if rows::has(left, c) {
                    return add_fact(reach, k, c, d.0);
                }
            }
        }
    }
}

// The same of every number of a row.
fn add_sources(
    reach: &mut [u32; 51],
    path: &Facts,
    names: &[u8; 17],
    k: usize,
    a: usize,
    row: u32,
) {
    for b in 0..17 {
        if rows::has(row, b) {
            add_source(reach, path, names, k, a, b);
        }
    }
}

// The facts of link k of a path that a join makes those of a nogood.
fn add_sources_of(reach: &mut [u32; 51], path: &Facts, names: &[u8; 17], nogood: &Facts, k: usize) {
    for a in 0..17 {
        if let Some(at) = row_place(k, a) {
            let missing = rows::without(nogood.reach[at], path.reach[at]);
            if missing != 0 {
                add_sources(reach, path, names, k, a, missing);
            }
        }
    }
}

// The facts of a path that a join makes those of a nogood.
fn sources(path: &Facts, branched: &Branched) -> [u32; 51] {
    let nogood = &branched.nogood;
    let mut reach = nogood.reach;
    keep_common(&mut reach, &path.reach);
    for k in 1..=path.links() {
        add_sources_of(&mut reach, path, &branched.names, nogood, k);
    }
    reach
}

// Facts of a path, and those of which an alternative by link k makes the nogood of its branch.
fn pulled_back(need: &Facts, path: &Facts, branched: &Branched, k: usize, fact: Fact) -> Facts {
    let mut small = *need;
    small.single = path.single;
    add_names(&mut small.rep, &path.rep, &branched.nogood.rep);
    match fact {
        Fact::Equal(_, _) => {
            add_all(&mut small.link, &path.link);
            add_all(&mut small.reach, &sources(path, branched));
        }
        Fact::Reaches(a, b) => {
            let mut reach = branched.nogood.reach;
            drop_fact(&mut reach, k, a.0, b.0);
            add_all(&mut small.link, &branched.nogood.link);
            add_all(&mut small.reach, &reach);
        }
    }
    small
}

// With these facts no heap has the alternative at i of a rule, since the branch that it makes holds a nogood; and they hold others.
fn excludes(n: usize, grown: &Facts, need: &Facts, nogood: &Facts, m: Move, i: usize) -> bool
    requires { (n ≤ 16) × HasLink (path_of grown.now) m.link.0 × TripleInRange m }
    ensures { result ≡ true → Covers (path_of grown.now) (path_of need.now) × ((q : Query) → Nogood q (path_of nogood.now) → Excludes q (path_of grown.now) (alternative_at m.link.0 n ((path_of grown.now).graph m.link.0) (kind_of m.rule) m.x.0 m.y.0 m.z.0 i)) }
{
    if !covering::covers(grown, need) {
        return false;
    }
    let path = branch::branch(grown, n, m, i).facts;
    path.rep[0] == 0 && covering::covers(&path, nogood)
}

// Where a rule asks how links go round, all links of a path are taken to the facts; and they are of as many links as the path.
fn take_round(grown: &mut Facts, path: &Facts, rule: Rule)
    ensures { (grown.new.single ≡ path.now.single) × (is_not_cycle (kind_of rule) ≡ false → grown.new.link ≡ path.now.link) }
{
    grown.single = path.single;
    if !rule.is_not_cycle() {
        grown.link = path.link;
    }
}

// Facts of a path that hold others, and with which no heap has the alternative at i of a rule, by a nogood of its branch.
pub fn excluding(
    n: usize,
    need: &Facts,
    path: &Facts,
    branched: &Branched,
    m: Move,
    i: usize,
) -> Option<Facts>
    requires { (n ≤ 16) × HasLink (path_of path.now) m.link.0 × TripleInRange m }
    ensures { IfSome result (λ grown. Covers (path_of grown) (path_of need.now) × ((q : Query) → Nogood q (path_of branched.now.nogood) → Excludes q (path_of grown) (alternative_at m.link.0 n ((path_of path.now).graph m.link.0) (kind_of m.rule) m.x.0 m.y.0 m.z.0 i))) }
{
    let fact = alternatives::alternative(path, n, m, i);
    let mut grown = pulled_back(need, path, branched, m.link.0, fact);
    take_round(&mut grown, path, m.rule);
    if excludes(n, &grown, need, &branched.nogood, m, i) {
        return Some(grown);
    }
    if excludes(n, path, need, &branched.nogood, m, i) {
        return Some(*path);
    }
    None
}

// Facts with the conditions of a rule, but for how links go round.
fn with_conditions(need: &Facts, m: Move) -> Facts {
    let k = m.link.0;
    let x = m.x.0;
    let y = m.y.0;
    let z = m.z.0;
    let mut whole = *need;
    match m.rule {
        Rule::Reflex => {}
        Rule::Trans1 => add_fact(&mut whole.link, k, x, y),
        Rule::Trans2 => {
            add_fact(&mut whole.reach, k, x, y);
            add_fact(&mut whole.reach, k, y, z);
        }
        Rule::Func => {
            add_fact(&mut whole.link, k, x, y);
            add_fact(&mut whole.reach, k, x, z);
        }
        Rule::Cycle => add_fact(&mut whole.reach, k, x, y),
        Rule::Scc => {
            add_fact(&mut whole.reach, k, x, y);
            add_fact(&mut whole.reach, k, y, x);
            add_fact(&mut whole.reach, k, x, z);
        }
        Rule::Total => {
            add_fact(&mut whole.reach, k, x, y);
            add_fact(&mut whole.reach, k, x, z);
        }
        Rule::Share => {
            add_fact(&mut whole.link, k, x, z);
            add_fact(&mut whole.link, k, y, z);
            add_fact(&mut whole.reach, k, x, y);
            add_fact(&mut whole.reach, k, y, x);
        }
    }
    whole
}

// A rule applies to these facts, and they hold those which exclude all its alternatives.
fn refutes(n: usize, whole: &Facts, need: &Facts, m: Move) -> bool
    requires { (n ≤ 16) × HasLink (path_of whole.now) m.link.0 }
    ensures { result ≡ true → (q : Query) → ExcludesAll q (path_of need.now) m.link.0 n ((path_of whole.now).graph m.link.0) (kind_of m.rule) m.x.0 m.y.0 m.z.0 → Nogood q (path_of whole.now) }
{
    covering::covers(whole, need) && fitting::applies(whole, n, m)
}

// A nogood of a path, from facts of it which exclude all alternatives of a rule.
pub fn of_rule(n: usize, need: &Facts, path: &Facts, m: Move) -> Option<Facts>
    requires { (n ≤ 16) × HasLink (path_of path.now) m.link.0 }
    ensures { IfSome result (λ nogood. (q : Query) → ExcludesAll q (path_of need.now) m.link.0 n ((path_of path.now).graph m.link.0) (kind_of m.rule) m.x.0 m.y.0 m.z.0 → Nogood q (path_of nogood)) }
{
    let mut whole = with_conditions(need, m);
    take_round(&mut whole, path, m.rule);
    if refutes(n, &whole, need, m) {
        return Some(whole);
    }
    if refutes(n, path, need, m) {
        return Some(*path);
    }
    None
}
