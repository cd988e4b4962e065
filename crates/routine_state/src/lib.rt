// A state as bytes: its nodes, links, flags and variables, and what is reached in it.
#![tactic(auto)]

ghost use Rattle.std.specs.Prelude.{◌≡◌, ◌+◌, ◌*◌, ◌≤◌, ◌<◌, length, get_or};
ghost use Rattle.between_search.specs.Tests.{step_count};
ghost use Rattle.routine_logic.specs.State.{with_variable, with_link, with_flag};
ghost use Rattle.routine_logic.specs.Formulas.{reaches_by, between_by};
ghost use Rattle.routine_state.specs.States.{node_in, link_in, flag_in, variable_in, state_in, flag_byte};

// The byte at a place; 0 behind the end. `tally::byte_at` is the same two lines over `get`: both are public, and a crate below both, for those two
// lines, would be no plainer.
pub fn byte_at(bytes: &[u8], p: usize) -> usize
    ensures { (result ≡ get_or bytes.now p 0) × (result ≤ 255) }
{
    match bytes.get(p) {
        Some(byte) => usize::from(*byte),
        None => 0,
    }
}

// The node at a place.
pub fn node_at(bytes: &[u8], p: usize) -> usize
    ensures { (result ≡ node_in bytes.now p) × (result ≤ 31) }
{
    byte_at(bytes, p) % 32
}

// The node to which link i leads from node v.
pub fn link_of(state: &[u8], i: usize, v: usize) -> usize
    ensures { (result ≡ link_in state.now i v) × (result ≤ 31) }
{
    if 3 < i {
        return 1;
    }
    if 31 < v {
        return 1;
    }
    node_at(state, 32 * i + v)
}

// Flag j of node v.
pub fn flag_of(state: &[u8], j: usize, v: usize) -> bool
    ensures { result ≡ flag_in state.now j v }
{
    if 8 < j {
        return false;
    }
    if 31 < v {
        return false;
    }
    byte_at(state, 128 + 32 * j + v) == 1
}

// The node of variable x.
pub fn variable_of(state: &[u8], x: usize) -> usize
    ensures { (result ≡ variable_in state.now x) × (result ≤ 31) }
{
    if 31 < x {
        return 1;
    }
    node_at(state, 416 + x)
}

// How many nodes there are.
pub fn size_of(state: &[u8]) -> usize
    ensures { (result ≡ node_in state.now 448) × (result ≤ 31) }
{
    node_at(state, 448)
}

// The least number of links i from v to w, or the number of nodes where there is none.
fn step_count(state: &[u8], i: usize, v: usize, w: usize) -> usize
    ensures { (result ≡ step_count (link_in state.now i) (node_in state.now 448) v w) × (result ≤ 31) }
{
    let n = size_of(state);
    let mut at = v;
    for k in 0..n {
        if at == w {
            return k;
        }
        at = link_of(state, i, at);
    }
    n
}

// "`reaches`: zero or more links"
pub fn reaches(state: &[u8], i: usize, v: usize, w: usize) -> bool
    ensures { result ≡ reaches_by (state_in state.now) i v w }
{
    let n = size_of(state);
    step_count(state, i, v, w) < n
}

// "following links from x both are met, and y's least step count is not above z's"
pub fn between(state: &[u8], i: usize, x: usize, y: usize, z: usize) -> bool
    ensures { result ≡ between_by (state_in state.now) i x y z }
{
    let n = size_of(state);
    let middle = step_count(state, i, x, y);
    let last = step_count(state, i, x, z);
    ((middle < n) & (last < n)) & (middle <= last)
}

// Variable x is given node v.
pub fn set_variable(state: &mut [u8], x: usize, v: usize)
    requires { (x ≤ 31) × (v ≤ 31) × (449 ≤ length state.old) }
    ensures { (length state.new ≡ length state.old) × (state_in state.new ≡ with_variable (state_in state.old) x v) }
{
    state[416 + x] = v as u8;
}

// Link i of node v is made to lead to node w.
pub fn set_link(state: &mut [u8], i: usize, v: usize, w: usize)
    requires { (i ≤ 3) × (v ≤ 31) × (w ≤ 31) × (449 ≤ length state.old) }
    ensures { (length state.new ≡ length state.old) × (state_in state.new ≡ with_link (state_in state.old) i v w) }
{
    state[32 * i + v] = w as u8;
}

// Flag j of node v is set, or not.
pub fn set_flag(state: &mut [u8], j: usize, v: usize, b: bool)
    requires { (j ≤ 8) × (v ≤ 31) × (449 ≤ length state.old) }
    ensures { (length state.new ≡ length state.old) × (state_in state.new ≡ with_flag (state_in state.old) j v b) }
{
    state[128 + 32 * j + v] = u8::from(b);
}
