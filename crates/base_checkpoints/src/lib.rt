// Checkpoints: of each column of a table by columns the cells above two of its rows, in scratch, so that a cell that is read at random needs a
// third of its column's numbers at most. Without them it would need all that stand above it.
#![tactic(auto)]

ghost use Rattle.std.specs.Prelude.{◌≡◌, ◌^◌, ◌<◌, ◌≤◌, true};
ghost use Rattle.base_checkpoints.specs.Checkpoints.{tall_in, uses_checkpoint, checkpoint_of, checkpoint_in, checkpointed_word, CheckpointTablePost, CheckpointTablesPost, CheckpointedCellPost};

use base_scratch::{CHECKPOINTS, load, store};
use base_tables::{
    MOST_TABLES, by_columns, cell, column_place, columns, description, full, rows, signed_of,
    sum_down,
};

// The word of column c of the table whose number is n - 1 is BASE + COLUMNS * n + c.
const BASE: usize = CHECKPOINTS - COLUMNS;

const COLUMNS: usize = 8;

// The cell above the first row is the checkpoint's lower half, the one above the second its upper half.
const FIRST_ROW: usize = 352;

const SECOND_ROW: usize = 704;

const HALF: u64 = 4294967296;

// Whether w describes a table by columns that has such a row: its columns are checkpointed.
fn tall(w: u64) -> bool
    ensures { result ≡ tall_in w }
{
    if by_columns(w) {
        return FIRST_ROW <= rows(w);
    }
    false
}

// The checkpoint of column c.
fn checkpoint_of(data: &[u8], w: u64, c: usize) -> u64
    requires { c < 8 }
    ensures { result ≡ checkpoint_of «data».now w c }
{
    let p = column_place(w, c);
    sum_down(data, p, FIRST_ROW) as u64 + HALF * sum_down(data, p, SECOND_ROW) as u64
}

// The columns of the table whose number is n - 1 are checkpointed where they are by columns.
fn checkpoint_table(s: &mut [u64], data: &[u8], n: usize)
    requires { n ≤ 8 }
    ensures { CheckpointTablePost «data».now s.old n s.new }
{
    let w = description(s, n);
    if tall(w) {
        for c in 0..COLUMNS {
            store(s, BASE + COLUMNS * n + c, checkpoint_of(data, w, c));
        }
    }
}

// Those of all tables.
pub fn checkpoint_tables(s: &mut [u64], data: &[u8])
    ensures { CheckpointTablesPost «data».now s.old s.new }
{
    for n in 1..MOST_TABLES + 1 {
        checkpoint_table(s, data, n);
    }
}

// Whether the cell in row r and column c is read by its column's checkpoint.
fn uses_checkpoint(w: u64, r: usize, c: usize) -> bool
    ensures { result ≡ uses_checkpoint w r c }
{
    if rows(w) <= r {
        return false;
    }
    if columns(w) <= c {
        return false;
    }
    if COLUMNS <= c {
        return false;
    }
    if r < FIRST_ROW {
        return false;
    }
    if by_columns(w) {
        return full(w);
    }
    false
}

// The checkpoint of column c of the table whose number is n - 1.
fn checkpoint(s: &[u64], n: usize, c: usize) -> u64
    requires { (n < 2 ^ 53) × (c < 8) }
    ensures { result ≡ checkpoint_in s.now n c }
{
    load(s, BASE + COLUMNS * n + c)
}

// That cell's four bytes: the checkpoint's half above it, and the differences from there on.
fn checkpointed_word(data: &[u8], w: u64, m: u64, r: usize, c: usize) -> u32
    requires { uses_checkpoint w r c ≡ true }
    ensures { result ≡ checkpointed_word «data».now w m r c }
{
    let p = column_place(w, c);
    if r < SECOND_ROW {
        let y = sum_down(data, p + 4 * FIRST_ROW, r + 1 - FIRST_ROW);
        return std::num::wrapping_add_u32((m % HALF) as u32, y);
    }
    let y = sum_down(data, p + 4 * SECOND_ROW, r + 1 - SECOND_ROW);
    std::num::wrapping_add_u32((m / HALF) as u32, y)
}

// The cell in row r and column c of the table whose number is n - 1.
pub fn checkpointed_cell(s: &[u64], data: &[u8], n: usize, r: usize, c: usize) -> i64
    requires { n < 2 ^ 53 }
    ensures { CheckpointedCellPost «data».now s.now n r c result }
{
    let w = description(s, n);
    if uses_checkpoint(w, r, c) {
        return signed_of(checkpointed_word(data, w, checkpoint(s, n, c), r, c) as usize);
    }
    cell(data, w, r, c)
}
