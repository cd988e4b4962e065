// The answer of each call as one number for C (include/lemitsaka.h): below 65,536 the call's own answer, else a refusal.
#![tactic(auto)]

ghost use Rattle.std.specs.Prelude.{◌≡◌};
ghost use Rattle.between_call.specs.Promise as between;
ghost use Rattle.checker.specs.Promise as checker;
ghost use Rattle.dot.specs.Promise as dot;
ghost use Rattle.formula_call.specs.FormulaPromise as formula;
ghost use Rattle.joiner.specs.Promise as joiner;
ghost use Rattle.precedence.specs.Answers as precedence;
ghost use Rattle.prover.specs.Promise as prover;
ghost use Rattle.refusals.specs.Numbers.{number_of};
ghost use Rattle.rewriter.specs.Promise as rewriter;
ghost use Rattle.codes.specs.Codes.{refusal, with_high, code};
ghost use Rattle.answer_codes.specs.Numbers.{verdict_digits, order_digits, formula_digits, check_digits, dot_digits, writing_digits, join_digits, hand_digits};

use between_call::BetweenAnswer;
use formula_call::FormulaAnswer;
use joiner::{HandBack, JoinRefusal};
use precedence::OrderAnswer;
use prover::Answer;
use refusals::Refusal;

// A refusal: its fault's number and its place.
fn refused(e: Refusal) -> u64
    ensures { result ≡ code (refusal (number_of e.fault) e.place) }
{
    codes::numbered(e.fault.number(), e.place)
}

// The same, below a number that says more of it.
fn refused_below(high: u16, e: Refusal) -> u64
    ensures { result ≡ code (with_high high (number_of e.fault) e.place) }
{
    codes::digits(high, e.fault.number(), e.place)
}

// 0 satisfiable, 1 refuted, else a refusal.
pub fn verdict_number(answer: Answer) -> u64
    ensures { result ≡ code (verdict_digits (prover.meaning answer)) }
{
    match answer {
        Answer::Satisfiable => codes::own_answer(0),
        Answer::Refuted => codes::own_answer(1),
        Answer::Refused(k, place) => codes::numbered(k, place),
    }
}

// 0 a heap, 1 none, else a refusal.
pub fn between_number(answer: Result<BetweenAnswer, Refusal>) -> u64
    ensures { result ≡ code (verdict_digits (between.meaning answer)) }
{
    match answer {
        Ok(BetweenAnswer::Heap) => codes::own_answer(0),
        Ok(BetweenAnswer::Nothing) => codes::own_answer(1),
        Err(e) => refused(e),
    }
}

// 0 an order, 1 none and its ring, else a refusal.
pub fn order_number(answer: Result<OrderAnswer, Refusal>) -> u64
    ensures { result ≡ code (order_digits (precedence.meaning answer)) }
{
    match answer {
        Ok(OrderAnswer::Order) => codes::own_answer(0),
        Ok(OrderAnswer::Ring) => codes::own_answer(1),
        Err(e) => refused(e),
    }
}

// 0 refuted, else the conjunction's number; or a refusal.
pub fn formula_number(answer: FormulaAnswer) -> u64
    ensures { result ≡ code (formula_digits (formula.formula_meaning answer)) }
{
    match answer {
        FormulaAnswer::Refuted => codes::own_answer(0),
        FormulaAnswer::Conjunction(n) => codes::own_answer(n),
        FormulaAnswer::Refused(k, place) => codes::numbered(k, place),
    }
}

// 0 accepted, else the first wrong line's number; or a refusal.
pub fn check_number(answer: Result<Option<usize>, Refusal>) -> u64
    ensures { result ≡ code (check_digits (checker.meaning answer)) }
{
    match answer {
        Ok(None) => codes::own_answer(0),
        Ok(Some(line)) => codes::own_answer(line),
        Err(e) => refused(e),
    }
}

// The text's length, else a refusal.
pub fn dot_number(answer: Result<usize, Refusal>) -> u64
    ensures { result ≡ code (dot_digits (dot.meaning answer)) }
{
    match answer {
        Ok(length) => codes::own_answer(length),
        Err(e) => refused(e),
    }
}

// The length of the query written, else a refusal.
pub fn rewrite_number(answer: Result<usize, Refusal>) -> u64
    ensures { result ≡ code (writing_digits (rewriter.meaning answer)) }
{
    match answer {
        Ok(length) => codes::own_answer(length),
        Err(e) => refused(e),
    }
}

// The length of the query written, else a refusal, with 4,294,967,296 more where it is about the second query.
pub fn join_number(answer: Result<usize, JoinRefusal>) -> u64
    ensures { result ≡ code (join_digits (joiner.meaning answer)) }
{
    match answer {
        Ok(length) => codes::own_answer(length),
        Err(JoinRefusal::First(e)) => refused(e),
        Err(JoinRefusal::Second(e)) => refused_below(1, e),
        Err(JoinRefusal::Neither(e)) => refused(e),
    }
}

// Where a literal stands: the offset times 65,536 and the length; else a refusal, with 256 times 4,294,967,296 more. In both, 4,294,967,296
// more is about the second query.
pub fn part_number(found: Result<HandBack, JoinRefusal>) -> u64
    ensures { result ≡ code (hand_digits (joiner.handed found)) }
{
    match found {
        Ok(HandBack::InFirst(at, size)) => codes::digits(0, at, size),
        Ok(HandBack::InSecond(at, size)) => codes::digits(1, at, size),
        Err(JoinRefusal::First(e)) => refused_below(256, e),
        Err(JoinRefusal::Second(e)) => refused_below(257, e),
        Err(JoinRefusal::Neither(e)) => refused_below(256, e),
    }
}
