// The choice of a rule: the first that applies, at the smallest triple.
#![tactic(auto)]

ghost use Rattle.std.specs.Prelude.{◌≡◌, Bool, true, false, List, ℕ, ◌≤◌, ◌<◌};
ghost use Rattle.facts.specs.Path.{graph_of, graph_in, path_of};
ghost use Rattle.rules.specs.Answers.{kind_of, choice_of};
ghost use Rattle.rules.specs.Views.{Suits};
ghost use Rattle.rows.specs.Bits.{bit};
ghost use Rattle.rows.specs.Square.{square, Turned};
ghost use Rattle.link_rows.specs.Cube.{cube};
ghost use Rattle.rules.specs.Tests.{pair_test, is_not_cycle, two_way, looks_back};
ghost use Rattle.rule_choice.specs.Answers.{place_of, tried_in};
ghost use Rattle.rule_choice.specs.Smallest.{in_third, in_second, in_first, tried_at, tried_by};
ghost use Rattle.logic.specs.Search.{or_else, first_of};
ghost use Rattle.logic.specs.Rules.{CYCLE, TRANS2, choose};
ghost use Rattle.logic.specs.Walk.{order_of};

use facts::Facts;
use link_rows::Link;
use rows::Term;
use rules::{Move, Rule, Third, View};

// The smallest triple that begins with x and y, where these are as a rule other than CYCLE asks. The second number is 0 for REFLEX, and
// Term(0) is no term.
fn in_third(view: &View, rule: Rule, x: Term, y: Term) -> Option<(Term, Term, Third)>
    requires { (view.now.n ≤ 16) × (x.0 ≤ 16) × (y.0 ≤ 16) × (is_not_cycle (kind_of rule) ≡ true) × Suits view.now (kind_of rule) }
    ensures { (alive : ℕ → Bool) → pair_test alive (graph_of view.now.link view.now.reach) x.0 y.0 (kind_of rule) ≡ true → place_of result ≡ in_third view.now.n alive (graph_of view.now.link view.now.reach) (kind_of rule) x.0 y.0 }
{
    let row = view.third_row(rule, x, y);
    let z = rows::first(row & rows::up_to(view.n))?;
    Some((x, y, Third(z.0)))
}

// The smallest triple that begins with x, of a rule other than CYCLE.
fn scan(view: &View, rule: Rule, x: Term) -> Option<(Term, Term, Third)>
    requires { (view.now.n ≤ 16) × (x.0 ≤ 16) × (is_not_cycle (kind_of rule) ≡ true) × Suits view.now (kind_of rule) }
    ensures { place_of result ≡ in_second view.now.n (bit view.now.alive) (graph_of view.now.link view.now.reach) (kind_of rule) x.0 }
{
    let mut left = view.pair_row(rule, x) & rows::up_to(view.n);
    while let Some(y) = rows::first(left) {
        if let Some(triple) = in_third(view, rule, x, y) {
            return Some(triple);
        }
        left = rows::rest(left);
    }
    None
}

// The same of TRANS2, which is tried most: y is reached from x, and z from y and not from x.
fn scan_onward(view: &View, x: Term) -> Option<(Term, Term, Third)>
    requires { (view.now.n ≤ 16) × (x.0 ≤ 16) }
    ensures { (alive : ℕ → Bool) (link : List ℕ) → place_of result ≡ in_second view.now.n alive (graph_of link view.now.reach) TRANS2 x.0 }
{
    let far = view.reach[x.0];
    let among = rows::up_to(view.n);
    let mut left = far & among;
    while let Some(y) = rows::first(left) {
        let row = rows::without(view.reach[y.0], far);
        if let Some(z) = rows::first(row & among) {
            return Some((x, y, Third(z.0)));
        }
        left = rows::rest(left);
    }
    None
}

// The smallest triple of CYCLE that begins with x: the links lead back to x after k steps, and y is none of the k terms from x on.
fn cycle(view: &View, x: Term) -> Option<(Term, Term, Third)>
    requires { (view.now.n ≤ 16) × (x.0 ≤ 16) }
    ensures { (alive : ℕ → Bool) → place_of result ≡ in_second view.now.n alive (graph_of view.now.link view.now.reach) CYCLE x.0 }
{
    let n = view.n;
    let far = view.reach[x.0] & rows::up_to(n);
    if far == 0 {
        return None;
    }
    let first = link_steps::next(&view.link, n, x);
    let back = link_steps::follow(&view.link, n, first, x, n);
    let k = back.steps + 1;
    if n < k {
        return None;
    }
    let round = back.passed | rows::only(x.0);
    let y = rows::first(rows::without(far, round))?;
    Some((x, y, Third(k)))
}

// The smallest triple that begins with x.
fn in_second(view: &View, rule: Rule, x: Term) -> Option<(Term, Term, Third)>
    requires { (view.now.n ≤ 16) × (x.0 ≤ 16) × Suits view.now (kind_of rule) }
    ensures { place_of result ≡ in_second view.now.n (bit view.now.alive) (graph_of view.now.link view.now.reach) (kind_of rule) x.0 }
{
    match rule {
        Rule::Trans2 => scan_onward(view, x),
        Rule::Cycle => cycle(view, x),
        _ => scan(view, rule, x),
    }
}

// The smallest triple at which a rule applies.
pub fn smallest(view: &View, rule: Rule) -> Option<(Term, Term, Third)>
    requires { (view.now.n ≤ 16) × Suits view.now (kind_of rule) }
    ensures { place_of result ≡ in_first view.now.n (bit view.now.alive) (graph_of view.now.link view.now.reach) (kind_of rule) }
{
    for x in 0..view.n + 1 {
        if let Some(triple) = in_second(view, rule, Term(x)) {
            return Some(triple);
        }
    }
    None
}

// The rule that has this number, by the link whose facts are lent, at the smallest triple.
fn tried(view: &View, link: Link, k: u8) -> Option<Move>
    requires { (view.now.n ≤ 16) × (looks_back k ≡ true → Turned view.now.back view.now.reach) }
    ensures { choice_of result ≡ tried_at link.0 view.now.n (bit view.now.alive) (graph_of view.now.link view.now.reach) k }
{
    let rule = Rule::numbered(k)?;
    let (x, y, z) = smallest(view, rule)?;
    Some(Move {
        link,
        rule,
        x,
        y,
        z,
    })
}

// The rule asks what is reached from where, and from where what is: it reads reachability turned round.
#[tactic(auto, unfolding(rules::specs::Tests::two_way))]
fn two_way(rule: Rule) -> bool
    ensures { result ≡ two_way (kind_of rule) }
{
    matches!(rule, Rule::Scc | Rule::Total | Rule::Share)
}

// The same of the rule that has this number.
fn looks_back(k: u8) -> bool
    ensures { result ≡ looks_back k }
{
    match Rule::numbered(k) {
        Some(rule) => two_way(rule),
        None => false,
    }
}

// Reachability turned round, once it is wanted.
fn turned_once(reach: &[u32; 17], wanted: bool, before: [u32; 17]) -> [u32; 17]
    ensures { ((wanted ≡ true) → Turned result reach.now) × ((wanted ≡ false) → result ≡ before) }
{
    if wanted { rows::turned(reach) } else { before }
}

// What rules read of a path by link k, with reachability not turned round. `alive` is the row of the terms that are not replaced.
fn view_by(s: &Facts, k: Link, alive: u32, n: usize) -> View
    requires { (0 < k.0) × (k.0 ≤ 3) }
    ensures { (result.n ≡ n) × (result.alive ≡ alive) × (square result.link ≡ cube s.now.link k.0) × (square result.reach ≡ cube s.now.reach k.0) }
{
    View {
        n,
        alive,
        link: link_rows::rows_of(&s.link, k),
        reach: link_rows::rows_of(&s.reach, k),
        back: [0; 17],
    }
}

// The first applicable rule of the order list by the link whose facts are lent.
fn choose_by(view: &mut View, k: Link, order: &[u8]) -> Option<Move>
    requires { view.old.n ≤ 16 }
    ensures { choice_of result ≡ first_of (tried_at k.0 view.old.n (bit view.old.alive) (graph_of view.old.link view.old.reach)) order.now }
{
    let mut turned = false;
    for number in order {
        let wanted = looks_back(*number);
        view.back = turned_once(&view.reach, wanted & !turned, view.back);
        turned |= wanted;
        if let Some(found) = tried(view, k, *number) {
            return Some(found);
        }
    }
    None
}

// The rule that has this number, by link i, with reachability turned round where the rule reads it so.
fn tried_at(view: &View, i: Link, k: u8) -> Option<Move>
    requires { view.now.n ≤ 16 }
    ensures { choice_of result ≡ tried_in i.0 view.now k }
{
    if !looks_back(k) {
        return tried(view, i, k);
    }
    let turned = View {
        n: view.n,
        alive: view.alive,
        link: view.link,
        reach: view.reach,
        back: rows::turned(&view.reach),
    };
    tried(&turned, i, k)
}

// "within a rule link 1 is tried first" (02, R-11): what is read by each link is lent.
fn tried_by(first: &View, second: &View, third: &View, k: u8) -> Option<Move>
    requires { (first.now.n ≤ 16) × (second.now.n ≤ 16) × (third.now.n ≤ 16) }
    ensures { choice_of result ≡ or_else (tried_in 1 first.now k) (or_else (tried_in 2 second.now k) (tried_in 3 third.now k)) }
{
    if let Some(found) = tried_at(first, Link(1), k) {
        return Some(found);
    }
    if let Some(found) = tried_at(second, Link(2), k) {
        return Some(found);
    }
    tried_at(third, Link(3), k)
}

// The first applicable rule of the order list, by any of three links. What is read by each is made once, for all rules.
fn choose_any(order: &[u8], s: &Facts, alive: u32, n: usize) -> Option<Move>
    requires { n ≤ 16 }
    ensures { choice_of result ≡ first_of (tried_by n (bit alive) (graph_in s.now.link s.now.reach)) order.now }
{
    let first = view_by(s, Link(1), alive, n);
    let second = view_by(s, Link(2), alive, n);
    let third = view_by(s, Link(3), alive, n);
    for number in order {
        if let Some(found) = tried_by(&first, &second, &third, *number) {
            return Some(found);
        }
    }
    None
}

// "the first applicable rule of the order list, at the smallest triple"
pub fn choose(order: &[u8], s: &Facts, n: usize) -> Option<Move>
    requires { n ≤ 16 }
    ensures { choice_of result ≡ choose n (order_of order.now) (path_of s.now) }
{
    let alive = s.live(n);
    if s.single {
        return choose_by(&mut view_by(s, Link(1), alive, n), Link(1), order);
    }
    choose_any(order, s, alive, n)
}
