// A table's record turned into the other kind in a lent buffer: from rows to columns, and back.
#![tactic(auto)]

ghost use Rattle.std.specs.Prelude.{◌≡◌, ◌+◌, ◌%◌, ◌≤◌, true, ◌++◌, length, drop};
ghost use Rattle.std.proofs.lemmas.List.Edits.{sets};
ghost use Rattle.base_refusals.specs.Numbers.{outcome_number, outcome_length};
ghost use Rattle.spec_encoding.specs.Record.{signed};
ghost use Rattle.spec_encoding.specs.Columns.{minus, folded, bytes_of};
ghost use Rattle.spec_encoding.specs.Data.{is_kind, to_columns, to_rows};
ghost use Rattle.spec_outcome.specs.Directions.{table_to_columns, table_to_rows, Fills};
ghost use Rattle.base_columns.specs.Contract.{HeadPost, FoldPre, FoldPost, UnfoldPre, UnfoldPost, CellsPre, ByColumnsPost, ByRowsPost, own_refusal, refusal_of, Turnable, LaidHead};

use base_bytes::{byte_at, two_at};
use base_refusals::Refusal;
use base_tables::{
    BOUNDS_AT, COLUMNS_AT, MOST_TABLES, NUMBER_AT, ROWS_AT, below, columns_bounded, read_header,
    well_formed, word_in,
};

// Length and kind of a record stand before its content.
pub const KIND_AT: usize = 2;

pub const CONTENT_AT: usize = 4;

// Of differences wrapped at 32 bits: the first that stands for one below 0, and the last.
const FIRST_BELOW_0: u32 = 2147483648;

const LAST: u32 = 4294967295;

// What is stored for a cell below another: "the difference wrapping at 32 bits, then folded".
fn fold(x: u32, above: u32) -> u32
    ensures { result ≡ folded (signed (minus x above)) }
{
    let d = std::num::wrapping_sub_u32(x, above);
    if d < FIRST_BELOW_0 {
        return 2 * d;
    }
    2 * (LAST - d) + 1
}

pub fn low(x: u32) -> u8
    ensures { result ≡ x % 256 }
{
    (x % 256) as u8
}

// A number's four bytes, little-endian.
pub fn put(d: &mut [u8], i: usize, w: u32)
    requires { i + 4 ≤ length d.old }
    ensures { d.new ≡ sets d.old i (bytes_of w) }
{
    d[i] = low(w);
    d[i + 1] = low(w / 256);
    d[i + 2] = low(w / 65536);
    d[i + 3] = low(w / 16777216);
}

// A column of n cells, the first at from, each step bytes behind the one above it, folded from to on.
fn fold_column(c: &[u8], d: &mut [u8], from: usize, step: usize, to: usize, n: usize)
    requires { FoldPre c.now d.old from step to n }
    ensures { FoldPost c.now from step n to d.old d.new }
{
    let mut above: u32 = 0;
    for r in 0..n {
        let x = word_in(c, from + step * r);
        let y = fold(x, above);
        put(d, to + 4 * r, y);
        above = x;
    }
}

// A column whose n stored numbers begin at from, unfolded: the first cell at to, each step bytes behind the one above it.
fn unfold_column(c: &[u8], d: &mut [u8], from: usize, to: usize, step: usize, n: usize)
    requires { UnfoldPre c.now d.old from to step n }
    ensures { UnfoldPost c.now from n to step d.old d.new }
{
    let mut x: u32 = 0;
    for r in 0..n {
        x = below(x, word_in(c, from + 4 * r));
        put(d, to + step * r, x);
    }
}

// All columns of a content, into a record's bytes.
fn fold_cells(c: &[u8], d: &mut [u8], columns: usize, rows: usize)
    requires { CellsPre c.now d.old columns rows }
    ensures { ByColumnsPost c.now columns rows d.old d.new }
{
    let step = 4 * columns;
    let first = BOUNDS_AT + step;
    for i in 0..columns {
        let to = CONTENT_AT + first + 4 * (rows * i);
        fold_column(c, d, first + 4 * i, step, to, rows);
    }
}

// The same back. A loop of its own: the places are exchanged, and one with both as parameters is no plainer.
fn unfold_cells(c: &[u8], d: &mut [u8], columns: usize, rows: usize)
    requires { CellsPre c.now d.old columns rows }
    ensures { ByRowsPost c.now columns rows d.old d.new }
{
    let step = 4 * columns;
    let first = BOUNDS_AT + step;
    for i in 0..columns {
        let from = first + 4 * (rows * i);
        unfold_column(c, d, from, CONTENT_AT + first + 4 * i, step, rows);
    }
}

// Header and bounds: the first n bytes, another kind in them.
fn put_head(l: &[u8], d: &mut [u8], n: usize, kind: u8)
    requires { (4 ≤ n) × (n ≤ length l.now) × (n ≤ length d.old) }
    ensures { HeadPost l.now n kind d.old d.new }
{
    for j in 0..n {
        d[j] = l[j];
    }
    d[KIND_AT] = kind;
    d[KIND_AT + 1] = 0;
}

// The record's own refusals behind 11.
fn own_refusal(c: &[u8], kind: usize) -> Result<(), Refusal>
    ensures { outcome_number result ≡ own_refusal kind c.now }
{
    if well_formed(c) {
        if MOST_TABLES <= byte_at(c, NUMBER_AT) {
            return Err(Refusal::TableNumberOutOfRange);
        }
        if columns_bounded(c, kind) {
            return Ok(());
        }
        return Err(Refusal::CellBeyondBound);
    }
    Err(Refusal::TableOutOfRange)
}

// "For the two directions the other kind, or bytes behind the record, is 11"; behind the record's own refusals 52, for a target of so many bytes.
fn refusal(l: &[u8], kind: usize, room: usize) -> Result<(), Refusal>
    requires { is_kind kind ≡ true }
    ensures { outcome_number result ≡ refusal_of kind l.now room }
{
    let Some(n) = read_header(l) else {
        return Err(Refusal::NotATable);
    };
    if two_at(l, KIND_AT) != kind {
        return Err(Refusal::NotATable);
    }
    if l.len() != CONTENT_AT + n {
        return Err(Refusal::NotATable);
    }
    own_refusal(&l[CONTENT_AT..], kind)?;
    if room < l.len() {
        return Err(Refusal::TargetTooShort);
    }
    Ok(())
}

// Header and bounds of the record turned into this kind. Answers its columns and rows.
fn lay_head(l: &[u8], d: &mut [u8], kind: u8) -> (usize, usize)
    requires { Turnable l.now d.old }
    ensures { LaidHead l.now kind d.old d.new result }
{
    let columns = byte_at(&l[CONTENT_AT..], COLUMNS_AT);
    let rows = two_at(&l[CONTENT_AT..], ROWS_AT);
    put_head(l, d, CONTENT_AT + BOUNDS_AT + 4 * columns, kind);
    (columns, rows)
}

fn lay_columns(l: &[u8], d: &mut [u8])
    requires { Turnable l.now d.old }
    ensures { d.new ≡ to_columns l.now ++ drop (length l.now) d.old }
{
    let (columns, rows) = lay_head(l, d, base_syntax::KIND_COLUMNS as u8);
    fold_cells(&l[CONTENT_AT..], d, columns, rows);
}

fn lay_rows(l: &[u8], d: &mut [u8])
    requires { Turnable l.now d.old }
    ensures { d.new ≡ to_rows l.now ++ drop (length l.now) d.old }
{
    let (columns, rows) = lay_head(l, d, base_syntax::KIND_ROWS as u8);
    unfold_cells(&l[CONTENT_AT..], d, columns, rows);
}

// A record of kind 20 as kind 23 in the target's first bytes, and how many they are. "A refusal changes no byte of it, an answer none behind the record."
pub fn to_columns(source: &[u8], target: &mut [u8]) -> Result<usize, Refusal>
    ensures { Fills (table_to_columns source.now target.old) (outcome_number result) (outcome_length result) target.new }
{
    refusal(source, base_syntax::KIND_ROWS, target.len())?;
    lay_columns(source, target);
    Ok(source.len())
}

// A record of kind 23 as kind 20.
pub fn to_rows(source: &[u8], target: &mut [u8]) -> Result<usize, Refusal>
    ensures { Fills (table_to_rows source.now target.old) (outcome_number result) (outcome_length result) target.new }
{
    refusal(source, base_syntax::KIND_COLUMNS, target.len())?;
    lay_rows(source, target);
    Ok(source.len())
}
