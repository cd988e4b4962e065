// The table of a text: its numbers, by place. What they say is in specs/.
#![tactic(auto)]

ghost use Rattle.std.specs.Prelude.{◌≡◌, ◌+◌, ◌*◌, ◌≤◌, ◌<◌};
ghost use Rattle.routine_table.specs.Cells.{cell, statement_cell, clause_cell, routine_cell, part_cell};

// The number at a place; 0 behind the end.
pub fn cell(table: &[u16], p: usize) -> usize
    ensures { (result ≡ cell table.now p) × (result ≤ 65535) }
{
    match table.get(p) {
        Some(number) => usize::from(*number),
        None => 0,
    }
}

// Number k of statement s, of clause i, of routine r, of part i.
pub fn statement_cell(table: &[u16], s: usize, k: usize) -> usize
    requires { (s ≤ 65536) × (k ≤ 7) }
    ensures { (result ≡ statement_cell table.now s k) × (result ≤ 65535) }
{
    cell(table, 10240 + 8 * s + k)
}

pub fn clause_cell(table: &[u16], i: usize, k: usize) -> usize
    requires { (i ≤ 200000) × (k ≤ 3) }
    ensures { (result ≡ clause_cell table.now i k) × (result ≤ 65535) }
{
    cell(table, 12288 + 4 * i + k)
}

pub fn routine_cell(table: &[u16], r: usize, k: usize) -> usize
    requires { (r ≤ 65536) × (k ≤ 7) }
    ensures { (result ≡ routine_cell table.now r k) × (result ≤ 65535) }
{
    cell(table, 16384 + 8 * r + k)
}

pub fn part_cell(table: &[u16], i: usize, k: usize) -> usize
    requires { (i ≤ 65536) × (k ≤ 7) }
    ensures { (result ≡ part_cell table.now i k) × (result ≤ 65535) }
{
    cell(table, 26656 + 8 * i + k)
}
