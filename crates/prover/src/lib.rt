// Lemitsaka's calls: a verdict with its heap, and a derivation, of queries in the form of 01 or with three links (02, R-11). None asks
// anything of its caller.
#![tactic(auto)]

ghost use Rattle.std.specs.Prelude.{◌≡◌, true, ◌+◌, ◌*◌, ◌≤◌, length, replicate};
ghost use Rattle.logic.specs.Query.{is_order};
ghost use Rattle.logic.specs.Walk.{Verdict, our_walk, our_verdict};
ghost use Rattle.logic.specs.Calls.{verdict_of, verdict_call, verdict_call_of, derivation_of, derivation_call, derivation_call_of};
ghost use Rattle.logic.specs.ThreeLinks.{three_link_form};
ghost use Rattle.theory.proofs.Query.Tied.{Accepted};
ghost use Rattle.link_query.specs.Said.{said, Within};
ghost use Rattle.call_limits.specs.Forms.{form_of};
ghost use Rattle.prover.specs.Promise.{input_of, Does, Settles};

use facts::Facts;
use query::Layout;

// What a call answers: a verdict, or a refusal's number and place.
#[derive(Clone, Copy)]
pub enum Answer {
    Satisfiable,
    Refuted,
    Refused(usize, usize),
}

// How our walk of a query that passes its checks ends: with a saturated path, or refuted. Its lines are not written, and most branches are decided
// by other means than walking them: the verdict is the same.
fn settled(order: &[u8], query: &[u8], layout: Layout) -> Option<Facts>
    requires { Within layout query.now × Accepted (said layout query.now) × (is_order order.now ≡ true) }
    ensures { Settles (our_walk order.now (said layout query.now)) result }
{
    let steps = call_limits::limit(layout.links, layout.terms);
    let goal = start::start(query, layout);
    let mut path = goal.facts;
    let kind = open_path::settle(query, layout, order, steps, &mut path);
    if kind.is_refuted() { None } else { Some(path) }
}

// The verdict of a query that passes its checks, and the heap shown in a blank report.
fn decide(order: &[u8], query: &[u8], layout: Layout, report: &mut [u8]) -> Answer
    requires { Within layout query.now × Accepted (said layout query.now) × (is_order order.now ≡ true) × (37 + 16 * layout.links ≤ length report.old) × (report.old ≡ replicate (length report.old) 0) }
    ensures { Does (verdict_of (said layout query.now) (length report.old) (our_walk order.now (said layout query.now))) result report.new }
{
    let Some(path) = settled(order, query, layout) else {
        return Answer::Refuted;
    };
    report::write_report(report, query, layout, &path);
    Answer::Satisfiable
}

// The verdict call of either form.
pub fn verdict_in(three: bool, order: &[u8], query: &[u8], report: &mut [u8]) -> Answer
    ensures { Does (verdict_call_of (form_of three) (input_of order.now query.now report.old)) result report.new }
{
    lent::clear(report);
    if !order_list::is_order(order) {
        return Answer::Refused(1, 0);
    }
    match form_checks::checked(three, query) {
        Err(refusal) => Answer::Refused(refusal.fault.number(), refusal.place),
        Ok(layout) => {
            if call_limits::lacks_room(report.len(), three) {
                return Answer::Refused(9, 0);
            }
            decide(order, query, layout, report)
        }
    }
}

// The derivation of a query that is refuted, in a blank buffer. The walk writes its lines until there are too many of them.
fn write_lines(order: &[u8], query: &[u8], layout: Layout, buffer: &mut [u8]) -> Answer
    requires { Within layout query.now × Accepted (said layout query.now) × (buffer.old ≡ replicate (length buffer.old) 0) × (our_verdict (our_walk order.now (said layout query.now)) ≡ Verdict.refuted) }
    ensures { Does (derivation_of (length buffer.old) (our_walk order.now (said layout query.now))) result buffer.new }
{
    if buffer.len() < 2 {
        return Answer::Refused(12, 0);
    }
    let steps = call_limits::limit(layout.links, layout.terms);
    let most = call_limits::most_lines(buffer.len());
    let goal = start::start(query, layout);
    let listed = listing::list(query, layout, order, steps, &goal, buffer, 0, most);
    let Some(count) = listed else {
        lent::clear(buffer);
        return Answer::Refused(12, 0);
    };
    if most < count {
        lent::clear(buffer);
        return Answer::Refused(12, 0);
    }
    buffer[0] = (count / 256) as u8;
    buffer[1] = (count % 256) as u8;
    Answer::Refuted
}

// The derivation of a query that passes its checks, in a blank buffer: the verdict is settled first.
fn derive(order: &[u8], query: &[u8], layout: Layout, buffer: &mut [u8]) -> Answer
    requires { Within layout query.now × Accepted (said layout query.now) × (is_order order.now ≡ true) × (buffer.old ≡ replicate (length buffer.old) 0) }
    ensures { Does (derivation_of (length buffer.old) (our_walk order.now (said layout query.now))) result buffer.new }
{
    match settled(order, query, layout) {
        Some(_) => Answer::Refused(11, 0),
        None => write_lines(order, query, layout, buffer),
    }
}

// The derivation call of either form.
pub fn derivation_in(three: bool, order: &[u8], query: &[u8], buffer: &mut [u8]) -> Answer
    ensures { Does (derivation_call_of (form_of three) (input_of order.now query.now buffer.old)) result buffer.new }
{
    lent::clear(buffer);
    if !order_list::is_order(order) {
        return Answer::Refused(1, 0);
    }
    match form_checks::checked(three, query) {
        Err(refusal) => Answer::Refused(refusal.fault.number(), refusal.place),
        Ok(layout) => derive(order, query, layout, buffer),
    }
}

// The verdict call: "satisfiable" with the heap shown in the report, "refuted", or one of the refusals 1 to 9 and 26.
pub fn verdict(order: &[u8], query: &[u8], report: &mut [u8]) -> Answer
    ensures { Does (verdict_call (input_of order.now query.now report.old)) result report.new }
{
    verdict_in(false, order, query, report)
}

// The derivation call: "refuted" with the derivation in the buffer, or one of the refusals 1 to 8, 26, 11 and 12.
pub fn derivation(order: &[u8], query: &[u8], buffer: &mut [u8]) -> Answer
    ensures { Does (derivation_call (input_of order.now query.now buffer.old)) result buffer.new }
{
    derivation_in(false, order, query, buffer)
}

// The same of queries with three links: "Calls of their own take queries with links 1 to 3", with refusal 22 besides.
pub fn links_verdict(order: &[u8], query: &[u8], report: &mut [u8]) -> Answer
    ensures { Does (verdict_call_of three_link_form (input_of order.now query.now report.old)) result report.new }
{
    verdict_in(true, order, query, report)
}

pub fn links_derivation(order: &[u8], query: &[u8], buffer: &mut [u8]) -> Answer
    ensures { Does (derivation_call_of three_link_form (input_of order.now query.now buffer.old)) result buffer.new }
{
    derivation_in(true, order, query, buffer)
}
