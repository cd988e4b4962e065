// The calls of lemitsaka, exported for C (include/lemitsaka.h): each under its name and with its clauses.
#![tactic(auto)]

ghost use Rattle.logic.specs.Calls.{verdict_call, verdict_call_of, derivation_call, derivation_call_of};
ghost use Rattle.logic.specs.ThreeLinks.{three_link_form};
ghost use Rattle.prover.specs.Promise.{input_of};
ghost use Rattle.lemitsaka.specs.VerdictPromise.{Codes};
ghost use Rattle.formula.specs.Call.{formula_call};
ghost use Rattle.formula_call.specs.FormulaPromise.{formula_input};
ghost use Rattle.lemitsaka.specs.FormulaPromise.{CodesFormula};
ghost use Rattle.std.specs.Prelude.{◌≡◌, length};
ghost use Rattle.checking.specs.CheckCall.{check_call, check_call_of};
ghost use Rattle.codes.specs.Codes.{code};
ghost use Rattle.answer_codes.specs.Numbers.{check_digits, hand_digits};
ghost use Rattle.between_search.specs.Calls.{between_call};
ghost use Rattle.drawing.specs.Call.{dot_call};
ghost use Rattle.lemitsaka.specs.DotPromise.{DotCodes};
ghost use Rattle.ordering.specs.Calls.{order_call};
ghost use Rattle.lemitsaka.specs.PrecedencePromise.{OrderCodes};
ghost use Rattle.rewriting.specs.Call.{rewrite_call};
ghost use Rattle.lemitsaka.specs.RewritePromise.{RewriteCodes};
ghost use Rattle.link_rewriting.specs.Call.{links_rewrite_call};
ghost use Rattle.joining.specs.Call.{join_call};
ghost use Rattle.joining.specs.HandBack.{hand_back_call};
ghost use Rattle.lemitsaka.specs.JoinPromise.{JoinCodes};

use lemitsaka::{
    between_export, check_export, dot_export, formula_export, join_export, links_rewrite_export,
    precedence_export, rewrite_export, verdict_export,
};

// The verdict call for C.
#[unsafe(no_mangle)]
pub extern "C" fn lemitsaka_verdict(order: &[u8], query: &[u8], report: &mut [u8]) -> u64
    ensures { Codes (verdict_call (input_of order.now query.now report.old)) result report.new }
{
    verdict_export::lemitsaka_verdict(order, query, report)
}

// The derivation call for C.
#[unsafe(no_mangle)]
pub extern "C" fn lemitsaka_derivation(order: &[u8], query: &[u8], buffer: &mut [u8]) -> u64
    ensures { Codes (derivation_call (input_of order.now query.now buffer.old)) result buffer.new }
{
    verdict_export::lemitsaka_derivation(order, query, buffer)
}

// The verdict call for C, of a query with three links.
#[unsafe(no_mangle)]
pub extern "C" fn lemitsaka_links_verdict(order: &[u8], query: &[u8], report: &mut [u8]) -> u64
    ensures { Codes (verdict_call_of three_link_form (input_of order.now query.now report.old)) result report.new }
{
    verdict_export::lemitsaka_links_verdict(order, query, report)
}

// The derivation call for C, of a query with three links.
#[unsafe(no_mangle)]
pub extern "C" fn lemitsaka_links_derivation(order: &[u8], query: &[u8], buffer: &mut [u8]) -> u64
    ensures { Codes (derivation_call_of three_link_form (input_of order.now query.now buffer.old)) result buffer.new }
{
    verdict_export::lemitsaka_links_derivation(order, query, buffer)
}

// The formula call for C.
#[unsafe(no_mangle)]
pub extern "C" fn lemitsaka_formula(
    order: &[u8],
    query: &[u8],
    text: &[u8],
    report: &mut [u8],
) -> u64
    ensures { CodesFormula (formula_call (formula_input order.now query.now text.now report.old)) result report.new }
{
    formula_export::lemitsaka_formula(order, query, text, report)
}

// The checking call for C.
#[unsafe(no_mangle)]
pub extern "C" fn lemitsaka_check(query: &[u8], derivation: &[u8]) -> u64
    ensures { result ≡ code (check_digits (check_call query.now derivation.now)) }
{
    check_export::lemitsaka_check(query, derivation)
}

// The checking call for C, of a query with three links.
#[unsafe(no_mangle)]
pub extern "C" fn lemitsaka_links_check(query: &[u8], derivation: &[u8]) -> u64
    ensures { result ≡ code (check_digits (check_call_of three_link_form query.now derivation.now)) }
{
    check_export::lemitsaka_links_check(query, derivation)
}

// The between call for C.
#[unsafe(no_mangle)]
pub extern "C" fn lemitsaka_between(query: &[u8], report: &mut [u8]) -> u64
    ensures { Codes (between_call query.now (length report.old)) result report.new }
{
    between_export::lemitsaka_between(query, report)
}

// The dot call for C.
#[unsafe(no_mangle)]
pub extern "C" fn lemitsaka_dot(report: &[u8], text: &mut [u8]) -> u64
    ensures { DotCodes (dot_call report.now (length text.old)) result text.new }
{
    dot_export::lemitsaka_dot(report, text)
}

// The order list of a precedence sheet, or none and its ring.
#[unsafe(no_mangle)]
pub extern "C" fn lemitsaka_order(sheet: &[u8], out: &mut [u8]) -> u64
    ensures { OrderCodes (order_call sheet.now (length out.old)) result out.new }
{
    precedence_export::lemitsaka_order(sheet, out)
}

// The rewriting call for C.
#[unsafe(no_mangle)]
pub extern "C" fn lemitsaka_rewrite(old: &[u8], query: &mut [u8]) -> u64
    ensures { RewriteCodes (rewrite_call old.now (length query.old)) result query.new }
{
    rewrite_export::lemitsaka_rewrite(old, query)
}

// The rewriting call for C, of a query with link 1.
#[unsafe(no_mangle)]
pub extern "C" fn lemitsaka_links_rewrite(old: &[u8], query: &mut [u8]) -> u64
    ensures { RewriteCodes (links_rewrite_call old.now (length query.old)) result query.new }
{
    links_rewrite_export::lemitsaka_links_rewrite(old, query)
}

// The joining call for C.
#[unsafe(no_mangle)]
pub extern "C" fn lemitsaka_join(first: &[u8], second: &[u8], pairs: &[u8], query: &mut [u8]) -> u64
    ensures { JoinCodes (join_call first.now second.now pairs.now (length query.old)) result query.new }
{
    join_export::lemitsaka_join(first, second, pairs, query)
}

// The hand-back for C, which cannot take a part of a slice.
#[unsafe(no_mangle)]
pub extern "C" fn lemitsaka_hand_back(first: &[u8], second: &[u8], line: &[u8]) -> u64
    ensures { result ≡ code (hand_digits (hand_back_call first.now second.now line.now)) }
{
    join_export::lemitsaka_hand_back(first, second, line)
}
