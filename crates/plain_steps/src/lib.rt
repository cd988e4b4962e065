// Plain steps: our walk of a path under the order list, without its lines. They tell whether some finite heap meets the query and the facts of the
// path, and where the walk ends.
#![tactic(auto)]

ghost use Rattle.std.specs.Prelude.{◌≡◌, true, ◌≤◌, length, is_some, IfSome};
ghost use Rattle.logic.specs.Walk.{look, order_of};
ghost use Rattle.logic.specs.Query.{term_count, is_order};
ghost use Rattle.logic.specs.Steps.{AtMost};
ghost use Rattle.theory.proofs.Query.Tied.{Accepted};
ghost use Rattle.theory.proofs.Calls.Decision.{Known};
ghost use Rattle.facts.specs.Path.{path_of};
ghost use Rattle.link_query.specs.Said.{said, Within};
ghost use Rattle.closing.specs.Closed.{Closed, begins};
ghost use Rattle.walk.specs.Looks.{look_of};
ghost use Rattle.plain_steps.specs.Walks.{Ahead, WalksTo};

use facts::Facts;
use kinds::Kind;
use query::Layout;
use walk::Seen;

// One step less, where they are limited: a budget does not grow.
fn spend(budget: &mut Option<usize>)
    ensures limited { is_some budget.new ≡ is_some budget.old }
    ensures spent { IfSome budget.old (λ before. IfSome budget.new (λ left. left ≤ before)) }
{
    if let Some(steps) = budget {
        *steps = steps.saturating_sub(1);
    }
}

// The path closed under REFLEX, TRANS1 and TRANS2 where the order list begins with these.
fn close_ahead(order: &[u8], s: &mut Facts, n: usize)
    requires { (n ≤ 16) × (3 ≤ length order.now) }
    ensures { Ahead n order.now (path_of s.old) (path_of s.new) }
{
    if closing::begins(order) {
        closing::close(s, n);
    }
}

// What our walk sees at a path that is closed where the order list begins with these rules: they have nothing left there.
fn look_ahead(query: &[u8], layout: Layout, order: &[u8], s: &Facts) -> Seen
    requires { Within layout query.now × (3 ≤ length order.now) × (begins order.now ≡ true → Closed layout.terms (path_of s.now)) }
    ensures { look_of result ≡ look (said layout query.now) (order_of order.now) (path_of s.now) }
{
    if closing::begins(order) {
        return walk::look(query, layout, &order[3..], s);
    }
    walk::look(query, layout, order, s)
}

// Plain steps: our walk under the order list, without its lines. With a budget they give up as it runs out; with none they always end, since at
// most `left` rule steps are possible from the path. Where the order list begins with REFLEX, TRANS1 and TRANS2, the path is closed under these
// first: our walk comes there by steps of theirs alone. Where the path is open, it is left where the steps end.
pub fn plain(
    query: &[u8],
    layout: Layout,
    order: &[u8],
    left: usize,
    s: &mut Facts,
    budget: &mut Option<usize>,
) -> Kind
    requires { Within layout query.now × Accepted (said layout query.now) × (is_order order.now ≡ true) × Known (said layout query.now) (path_of s.old) × AtMost (term_count (said layout query.now)) (path_of s.old) left }
    ensures walks { WalksTo (said layout query.now) order.now left (path_of s.old) (is_some budget.old) result (path_of s.new) }
    ensures limited { is_some budget.new ≡ is_some budget.old }
{
    let n = layout.terms;
    close_ahead(order, s, n);
    spend(budget);
    match look_ahead(query, layout, order, s) {
        Seen::Saturated => Kind::Open,
        Seen::Clashing(_) => Kind::Refuted,
        Seen::Applying(m) => {
            for i in 0..alternatives::count(m) {
                if *budget == Some(0) {
                    return Kind::Unknown;
                }
                let mut path = *s;
                branch::take(&mut path, n, m, i);
                let kind = plain(query, layout, order, left - 1, &mut path, budget);
                if !kind.is_refuted() {
                    *s = path;
                    return kind;
                }
            }
            Kind::Refuted
        }
    }
}
