// The precedence call for C.
ghost use Rattle.std.specs.Prelude.{length};
ghost use Rattle.ordering.specs.Calls.{order_call};
ghost use Rattle.lemitsaka.specs.PrecedencePromise.{OrderCodes};

// The order list of a precedence sheet, or none and its ring.
pub fn lemitsaka_order(sheet: &[u8], out: &mut [u8]) -> u64
    ensures { OrderCodes (order_call sheet.now (length out.old)) result out.new }
{
    answer_codes::order_number(precedence::order_of(sheet, out))
}
