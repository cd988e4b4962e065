// Where a term of a table dereferences NULL in a state.
#![tactic(auto)]

ghost use Rattle.std.specs.Prelude.{◌≡◌, ◌+◌, ◌≤◌, ◌<◌};
ghost use Rattle.routine_logic.specs.Runs.{dereferenced};
ghost use Rattle.routine_table.specs.Cells.{term_of};
ghost use Rattle.routine_state.specs.States.{state_in};
ghost use Rattle.routine_nulls.specs.Nulls.{first_null, null_of};

// "a term from its first link to its last": the number of links before NULL, where a further link follows.
pub fn null_in(table: &[u16], state: &[u8], p: usize) -> Option<usize>
    requires { p ≤ 65535 }
    ensures { null_of table.now p result ≡ first_null (state_in state.now) (dereferenced (term_of table.now p)) }
{
    let mut v = routine_formulas::base_node(routine_table::cell(table, p), state, state, 0);
    let first = p + 1;
    for at in first..table.len() {
        let i = routine_table::cell(table, at);
        if i == 0 {
            return None;
        }
        if v == 1 {
            return Some(at - first);
        }
        v = routine_state::link_of(state, i, v);
    }
    None
}
