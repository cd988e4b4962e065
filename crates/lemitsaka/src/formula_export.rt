// Formulas with or, for C.
ghost use Rattle.formula.specs.Call.{formula_call};
ghost use Rattle.formula_call.specs.FormulaPromise.{formula_input};
ghost use Rattle.lemitsaka.specs.FormulaPromise.{CodesFormula};

// The formula call for C.
pub fn lemitsaka_formula(order: &[u8], query: &[u8], text: &[u8], report: &mut [u8]) -> u64
    ensures { CodesFormula (formula_call (formula_input order.now query.now text.now report.old)) result report.new }
{
    answer_codes::formula_number(formula_call::formula(order, query, text, report))
}
