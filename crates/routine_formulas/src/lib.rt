// A formula of a table in a state.
#![tactic(auto)]

ghost use Rattle.std.specs.Prelude.{◌≡◌, [], ◌∷◌, ◌+◌, ◌≤◌, ◌<◌, length, get_or};
ghost use Rattle.logic.specs.Search.{all, from};
ghost use Rattle.routine_logic.specs.Formulas.{base_node, node, holds};
ghost use Rattle.routine_table.specs.Cells.{base_of, term_of, part_cell};
ghost use Rattle.routine_table.specs.Formulas.{atom_of, formula_at, formula_below, formula_of};
ghost use Rattle.routine_state.specs.States.{node_in, state_in};
ghost use Rattle.routine_formulas.specs.Names.{bound_in, Kept, truth_of};

// The node of name i, the innermost being 0.
fn bound_node(bound: &[u8], d: usize, i: usize) -> usize
    ensures { (result ≡ get_or (bound_in bound.now d) i 1) × (result ≤ 31) }
{
    if i < d {
        return routine_state::node_at(bound, d - 1 - i);
    }
    1
}

// "( name | "NULL" )"
pub fn base_node(base: usize, state: &[u8], bound: &[u8], d: usize) -> usize
    ensures { (result ≡ base_node (state_in state.now) (bound_in bound.now d) (base_of base)) × (result ≤ 31) }
{
    if base == 0 {
        return 1;
    }
    if base < 64 {
        return routine_state::variable_of(state, base - 1);
    }
    bound_node(bound, d, base - 64)
}

// `&&`, `||`, `=>` or `<=>` of two truths. The kinds of parts are numbers, as the table has them: `atom_of` and `join_of` of routine_table and
// `truth_of` state over them what a part says.
fn joined(kind: usize, a: bool, b: bool) -> bool
    ensures { result ≡ truth_of kind a b }
{
    if kind == 8 {
        return a & b;
    }
    if kind == 9 {
        return a | b;
    }
    if kind == 10 {
        return !a | b;
    }
    (a & b) | (!a & !b)
}

// A table and the state in which its terms and formulas are read. Beside it go the nodes of the names around, in a lent array (the library takes
// no heap memory), and how many there are.
#[derive(Clone, Copy)]
pub struct Reading<'a> {
    pub table: &'a [u16],
    pub state: &'a [u8],
}

impl<'a> Reading<'a> {
    // "A term is the node that its links lead to"
    pub fn term_node(&self, bound: &[u8], d: usize, p: usize) -> usize
        requires { p ≤ 65535 }
        ensures { (result ≡ node (state_in self.now.state.now) (bound_in bound.now d) (term_of self.now.table.now p)) × (result ≤ 31) }
    {
        let mut v = base_node(routine_table::cell(self.table, p), self.state, bound, d);
        for at in p + 1..self.table.len() {
            let i = routine_table::cell(self.table, at);
            if i == 0 {
                return v;
            }
            v = routine_state::link_of(self.state, i, v);
        }
        v
    }

    // Term k of part i.
    fn part_node(&self, bound: &[u8], d: usize, i: usize, k: usize) -> usize
        requires { (i ≤ 65535) × (k ≤ 3) }
        ensures { (result ≡ node (state_in self.now.state.now) (bound_in bound.now d) (term_of self.now.table.now (part_cell self.now.table.now i k))) × (result ≤ 31) }
    {
        let p = routine_table::part_cell(self.table, i, k);
        self.term_node(bound, d, p)
    }

    // Part i where it is an atom.
    pub fn holds_atom(&self, bound: &[u8], d: usize, i: usize) -> bool
        requires { i ≤ 65535 }
        ensures { result ≡ holds (state_in self.now.state.now) (bound_in bound.now d) (atom_of self.now.table.now i) }
    {
        let kind = routine_table::part_cell(self.table, i, 0);
        if kind == 1 {
            return true;
        }
        let name = routine_table::part_cell(self.table, i, 4);
        let v = self.part_node(bound, d, i, 1);
        if kind == 6 {
            return routine_state::flag_of(self.state, name, v);
        }
        let w = self.part_node(bound, d, i, 2);
        if kind == 2 {
            return v == w;
        }
        if kind == 3 {
            return v != w;
        }
        if kind == 4 {
            return routine_state::reaches(self.state, name, v, w);
        }
        if kind == 5 {
            let u = self.part_node(bound, d, i, 3);
            return routine_state::between(self.state, name, v, w, u);
        }
        false
    }

    // Part i. Where d names are bound, as many more may be as there are parts below it.
    #[cycle(holds_everywhere_holds_part_holds_side)]
    pub fn holds_part(&self, bound: &mut [u8], d: usize, i: usize) -> bool
        requires { (d + i < length bound.old) × (i ≤ 65535) }
        ensures kept { Kept bound.old bound.new d }
        ensures value { result ≡ holds (state_in self.now.state.now) (bound_in bound.old d) (formula_at self.now.table.now i) }
    {
        let kind = routine_table::part_cell(self.table, i, 0);
        if kind == 12 {
            return self.holds_everywhere(bound, d, i);
        }
        if kind < 7 {
            return self.holds_atom(bound, d, i);
        }
        if 12 < kind {
            return self.holds_atom(bound, d, i);
        }
        let a = self.holds_side(bound, d, i, 1);
        if kind == 7 {
            return !a;
        }
        let b = self.holds_side(bound, d, i, 2);
        joined(kind, a, b)
    }

    // Side k of part i.
    #[cycle(holds_everywhere_holds_part_holds_side)]
    fn holds_side(&self, bound: &mut [u8], d: usize, i: usize, k: usize) -> bool
        requires { (d + i ≤ length bound.old) × (i ≤ 65535) × (k ≤ 2) }
        ensures kept { Kept bound.old bound.new d }
        ensures value { result ≡ holds (state_in self.now.state.now) (bound_in bound.old d) (formula_below self.now.table.now i (part_cell self.now.table.now i k)) }
    {
        let j = routine_table::part_cell(self.table, i, k);
        if j < i {
            return self.holds_part(bound, d, j);
        }
        false
    }

    // "`forall` ranges over all nodes": the first side of part i with one more name.
    #[cycle(holds_everywhere_holds_part_holds_side)]
    fn holds_everywhere(&self, bound: &mut [u8], d: usize, i: usize) -> bool
        requires { (d + i < length bound.old) × (i ≤ 65535) }
        ensures kept { Kept bound.old bound.new d }
        ensures value { result ≡ all (λ v. holds (state_in self.now.state.now) (v ∷ bound_in bound.old d) (formula_below self.now.table.now i (part_cell self.now.table.now i 1)))
            (from (node_in self.now.state.now 448) 1) }
    {
        for v in 1..routine_state::size_of(self.state) + 1 {
            bound[d] = v as u8;
            if !self.holds_side(bound, d + 1, i, 1) {
                return false;
            }
        }
        true
    }
}

// The formula of part i, with no names around it.
pub fn holds(table: &[u16], state: &[u8], i: usize) -> bool
    ensures { result ≡ holds (state_in state.now) [] (formula_of table.now i) }
{
    if i < 3072 {
        let mut bound = [0u8; 3072];
        let reading = Reading { table, state };
        return reading.holds_part(&mut bound, 0, i);
    }
    false
}
