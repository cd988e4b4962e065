// Formulas with or (02, R-7): the first satisfiable conjunction and its heap.
#![tactic(auto)]

ghost use Rattle.std.specs.Prelude.{◌≡◌, true, length, replicate};
ghost use Rattle.formula.specs.Call.{is_satisfiable, text_outcome, formula_call};
ghost use Rattle.formula_reader.specs.Marked.{Pickable};
ghost use Rattle.query.specs.LaysOut.{LaysOut};
ghost use Rattle.prover.specs.Promise.{meaning};
ghost use Rattle.formula_call.specs.FormulaPromise.{refused_as, formula_input, DoesFormula, DecidesOne, FormulaAt, DecidesFirst};

use prover::Answer;
use query::Layout;
use refusals::{Fault, Refusal};

// 19: "more than 64 conjunctions"
const MOST_CONJUNCTIONS: usize = 64;

// What the formula call answers: the number of the first satisfiable conjunction, "refuted", or a refusal's number and place.
#[derive(Drop)]
pub enum FormulaAnswer {
    Conjunction(usize),
    Refuted,
    Refused(usize, usize),
}

fn refused(refusal: Refusal) -> FormulaAnswer
    ensures { result ≡ refused_as refusal }
{
    FormulaAnswer::Refused(refusal.fault.number(), refusal.place)
}

fn is_satisfiable(answer: Answer) -> bool
    ensures { result ≡ is_satisfiable (meaning answer) }
{
    match answer {
        Answer::Satisfiable => true,
        Answer::Refuted => false,
        Answer::Refused(k, place) => false,
    }
}

// The verdict call on the query of conjunction k, counted from 0, of the formula at a node.
fn decide_one(
    order: &[u8],
    query: &[u8],
    layout: Layout,
    nodes: &[usize; 2048],
    root: usize,
    k: usize,
    report: &mut [u8],
) -> Answer
    requires { LaysOut layout query.now × Pickable nodes.now root k }
    ensures { DecidesOne order.now query.now nodes.now root k report.old result report.new }
{
    let mut marks = [false; 256];
    formula_reader::mark_literals(nodes, root, k, &mut marks);
    let mut conjunction = [0u8; 561];
    let end = formula_query::put_query(query, layout, &marks, &mut conjunction);
    prover::verdict(order, &conjunction[..end], report)
}

// Each conjunction in its order, until one is satisfiable.
fn decide_first(
    order: &[u8],
    query: &[u8],
    layout: Layout,
    nodes: &[usize; 2048],
    root: usize,
    count: usize,
    report: &mut [u8],
) -> FormulaAnswer
    requires { LaysOut layout query.now × FormulaAt nodes.now root count × (report.old ≡ replicate (length report.old) 0) }
    ensures { DecidesFirst order.now query.now nodes.now root count report.old result report.new }
{
    for k in 0..count {
        if is_satisfiable(decide_one(order, query, layout, nodes, root, k, report)) {
            return FormulaAnswer::Conjunction(k + 1);
        }
    }
    FormulaAnswer::Refuted
}

// A text of a query that is accepted: its checks, and then its conjunctions.
fn decide_text(
    order: &[u8],
    query: &[u8],
    layout: Layout,
    text: &[u8],
    report: &mut [u8],
) -> FormulaAnswer
    requires { LaysOut layout query.now × (report.old ≡ replicate (length report.old) 0) }
    ensures { DoesFormula (text_outcome (formula_input order.now query.now text.now report.old)) result report.new }
{
    if 512 < text.len() {
        return refused(Fault::FormulaText.at(512));
    }
    let counts = [
        layout.equal_count,
        layout.reach_count,
        layout.field_count,
        0,
    ];
    let mut nodes = [0usize; 2048];
    let parsed = match formula_reader::read_text(text, &counts, &mut nodes) {
        Ok(parsed) => parsed,
        Err(refusal) => return refused(refusal),
    };
    let root = parsed.used - 1;
    let count = formula_reader::count_at(&nodes, root);
    if MOST_CONJUNCTIONS < count {
        return refused(Fault::Conjunctions.at(0));
    }
    decide_first(order, query, layout, &nodes, root, count, report)
}

// The formula call: the number of the first satisfiable conjunction with its heap in the report, "refuted", or one of the refusals 1 to 9,
// 26 and 17 to 19.
pub fn formula(order: &[u8], query: &[u8], text: &[u8], report: &mut [u8]) -> FormulaAnswer
    ensures { DoesFormula (formula_call (formula_input order.now query.now text.now report.old)) result report.new }
{
    lent::clear(report);
    if !order_list::is_order(order) {
        return refused(Fault::OrderList.at(0));
    }
    let layout = match query_checks::check(query) {
        Ok(layout) => layout,
        Err(refusal) => return refused(refusal),
    };
    if report.len() < 53 {
        return refused(Fault::ReportBuffer.at(0));
    }
    decide_text(order, query, layout, text, report)
}
