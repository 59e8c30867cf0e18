// The one place that reads the lent data: its records, the descriptions of its tables, and their cells.
#![tactic(auto)]

ghost use Rattle.std.specs.Prelude.{◌≡◌, ◌+◌, ◌*◌, ◌^◌, ◌<◌, ◌≤◌, true, length, ◌==◌, nat_le, slice_index, unsigned_abs};
ghost use Rattle.base_refusals.specs.Numbers.{outcome_number};
ghost use Rattle.spec_encoding.specs.Record.{four, signed};
ghost use Rattle.spec_encoding.specs.Columns.{plus, unfolded, summed};
ghost use Rattle.spec_encoding.specs.Data.{fits, is_kind, content_by_rows, content_by, table_by, bounded};
ghost use Rattle.base_tables.specs.Description.{kind_bit, description_of, collection_in, columns_in, rows_in, kind_in, present_in, table_in, description_in, subset_in, full_in, subset_rows, ones_in, kept_row, whole_in, without_in, place_in, column_place_in, stored_word_in, word_in, PlacedPost, CellPost, BoundPost};
ghost use Rattle.base_tables.specs.ColumnBounds.{ColumnPre, ColumnWithinPost, ColumnBoundedPost};
ghost use Rattle.base_tables.specs.DataReader.{header_gives, header_at, numbered_table, table_at, ReadDataPost};
ghost use Rattle.base_tables.specs.Stretches.{Stretchable, StretchPre, StretchPost};

use base_bytes::{byte_at, two_at};
use base_refusals::Refusal;
use base_scratch::{DESCRIPTIONS, load, store, wipe};

// "Data is 0 to 8 such records", numbered 0 to 7.
pub const MOST_TABLES: usize = 8;

// "columns (1 to 8)", "rows (0 to 1,024)"
const MOST_COLUMNS: usize = 8;

pub const TABLE_ROWS: usize = 1024;

// Four bytes are so many numbers, half of them below 0: no cell is of greater magnitude, and no bound may be.
const CELLS: usize = 4294967296;

const MOST_BOUND: usize = 2147483648;

pub const MOST_MAGNITUDE: i64 = 2147483648;

// Where a table's number, collection, columns and rows stand in its content, and behind them its bounds (spec_encoding/specs/Data.antt).
pub const NUMBER_AT: usize = 0;

pub const COLLECTION_AT: usize = 1;

pub const COLUMNS_AT: usize = 2;

pub const ROWS_AT: usize = 3;

pub const BOUNDS_AT: usize = 5;

// What one of each field of a description counts for (specs/Description.antt).
const ONE_COLUMN: u64 = 4;

const ONE_ROW: u64 = 64;

const ONE_KIND: u64 = 131072;

const ONE_SUBSET: u64 = 262144;

const ONE_POSITION: u64 = 1073741824;

// So many numbers of columns and rows has such a word, and so many subsets, of which 0 leaves no row out.
const COLUMNS: u64 = 16;

const ROWS: u64 = 2048;

const SUBSETS: u64 = 4096;

// Kind and subset together: 0 is a table by rows that has all of them, so that one test tells it.
const PLAINS: u64 = 2 * SUBSETS;

// A subset is of a table of so many rows at most: it has a bit for each, set where the row is left out.
pub const SUBSET_ROWS: usize = 12;

// 2^33, half of the positions that such a word has: from below it a position can be moved by a table's bytes.
const LOW_POSITIONS: u64 = 8589934592;

// Four bytes, little-endian, where all are there. No test, so that a loop over many cells makes none.
pub fn four_in(s: &[u8], i: usize) -> usize
    requires { i + 4 ≤ length s.now }
    ensures { (result ≡ four s.now i) × (result < 2 ^ 32) }
{
    usize::from(s[i])
        + 256 * usize::from(s[i + 1])
        + 65536 * (usize::from(s[i + 2]) + 256 * usize::from(s[i + 2 + 1]))
}

// The same anywhere. One test where all are there: a cell is read for each pair of rows.
fn four_at(s: &[u8], i: usize) -> usize
    requires { i < 2 ^ 61 }
    ensures { (result ≡ four s.now i) × (result < 2 ^ 32) }
{
    if i + 4 <= s.len() {
        return four_in(s, i);
    }
    two_at(s, i) + 65536 * two_at(s, i + 2)
}

// The same as a number that wraps at 32 bits.
pub fn word_in(s: &[u8], i: usize) -> u32
    requires { i + 4 ≤ length s.now }
    ensures { result ≡ four s.now i }
{
    four_in(s, i) as u32
}

pub fn word_at(s: &[u8], i: usize) -> u32
    requires { i < 2 ^ 61 }
    ensures { result ≡ four s.now i }
{
    four_at(s, i) as u32
}

// A cell of a table by columns from what is stored for it, below the cell above it: "the difference wrapping at 32 bits, then folded",
// undone. No branch: loops go down the rows.
pub fn below(above: u32, n: u32) -> u32
    ensures { result ≡ plus above (unfolded n) }
{
    std::num::wrapping_add_u32(above, std::num::wrapping_sub_u32(n / 2, n % 2 * n))
}

// The cell above row n in a column whose stored numbers begin at p, all in the bytes. No test in the loop, so that the compiler adds
// several at once.
fn sum_in(s: &[u8], p: usize, n: usize) -> u32
    requires { (p + 4 * n ≤ length s.now) × (n ≤ 2048) }
    ensures { result ≡ summed s.now p n }
{
    let mut x: u32 = 0;
    for r in 0..n {
        x = below(x, word_in(s, p + 4 * r));
    }
    x
}

// The same wherever they stand. A loop of its own: one with the reader as a parameter is no plainer.
fn sum_at(s: &[u8], p: usize, n: usize) -> u32
    requires { (p < 2 ^ 60) × (n ≤ 2048) }
    ensures { result ≡ summed s.now p n }
{
    let mut x: u32 = 0;
    for r in 0..n {
        x = below(x, word_at(s, p + 4 * r));
    }
    x
}

pub fn sum_down(s: &[u8], p: usize, n: usize) -> u32
    requires { (p < 2 ^ 60) × (n ≤ 2048) }
    ensures { result ≡ summed s.now p n }
{
    if p + 4 * n <= s.len() {
        return sum_in(s, p, n);
    }
    sum_at(s, p, n)
}

// How many cells so many rows have.
fn cells(columns: usize, rows: usize) -> usize
    requires { (columns < 16) × (rows < 2048) }
    ensures { (result ≡ columns * rows) × (result < 32768) }
{
    columns * rows
}

// Neither is "not kind 20"; "refusals .. take kind 23 wherever they name 20".
fn is_table(kind: usize) -> bool
    ensures { result ≡ is_kind kind }
{
    if kind == base_syntax::KIND_ROWS {
        return true;
    }
    kind == base_syntax::KIND_COLUMNS
}

// The length of its content; not of "a record cut short or not kind 20", nor 23.
pub fn read_header(s: &[u8]) -> Option<usize>
    ensures { header_gives result ≡ header_at s.now }
{
    if s.len() < 4 {
        return None;
    }
    let n = two_at(s, 0);
    if s.len() - 4 < n {
        return None;
    }
    if is_table(two_at(s, 2)) {
        return Some(n);
    }
    None
}

// "12: collection, columns or rows outside their ranges, or a length that does not match"
pub fn well_formed(c: &[u8]) -> bool
    ensures { result ≡ fits c.now }
{
    let collection = byte_at(c, COLLECTION_AT);
    let columns = byte_at(c, COLUMNS_AT);
    let rows = two_at(c, ROWS_AT);
    if c.len() < BOUNDS_AT {
        return false;
    }
    if collection < 1 {
        return false;
    }
    if 3 < collection {
        return false;
    }
    if columns < 1 {
        return false;
    }
    if MOST_COLUMNS < columns {
        return false;
    }
    if TABLE_ROWS < rows {
        return false;
    }
    c.len() == BOUNDS_AT + 4 * columns + 4 * cells(columns, rows)
}

// Whether the cell of these four bytes is of magnitude at most b: it is counted from -b on, modulo 2^32.
fn cell_within(x: usize, b: usize) -> bool
    requires { (x < 2 ^ 32) × (b < 2 ^ 31) }
    ensures { result ≡ nat_le (unsigned_abs (signed x)) b }
{
    (x + b) % CELLS <= 2 * b
}

// Whether every cell in column i is. On each row one load, one sum, one test: every call that reads the data looks at every cell.
fn column_within(c: &[u8], i: usize, b: usize) -> bool
    requires { ColumnPre c.now i × (b < 2 ^ 31) }
    ensures { ColumnWithinPost c.now i b result }
{
    let n = two_at(c, ROWS_AT);
    let step = 4 * byte_at(c, COLUMNS_AT);
    let mut p = BOUNDS_AT + step + 4 * i;
    for _r in 0..n {
        if !cell_within(four_in(c, p), b) {
            return false;
        }
        p += step;
    }
    true
}

// The same of a table by columns: the cells that come out.
fn sums_within(c: &[u8], i: usize, b: usize) -> bool
    requires { ColumnPre c.now i × (b < 2 ^ 31) }
    ensures { ColumnWithinPost (content_by_rows c.now) i b result }
{
    let n = two_at(c, ROWS_AT);
    let mut p = BOUNDS_AT + 4 * byte_at(c, COLUMNS_AT) + 4 * cells(i, n);
    let mut x: u32 = 0;
    for _r in 0..n {
        x = below(x, word_in(c, p));
        if !cell_within(x as usize, b) {
            return false;
        }
        p += 4;
    }
    true
}

// Neither "a bound over 2^31" nor "a cell beyond its column's" in column i. No cell is beyond 2^31.
fn column_bounded(c: &[u8], kind: usize, i: usize) -> bool
    requires { ColumnPre c.now i }
    ensures { ColumnBoundedPost (content_by kind c.now) i result }
{
    let b = four_in(c, BOUNDS_AT + 4 * i);
    if b < MOST_BOUND {
        if kind == base_syntax::KIND_COLUMNS {
            return sums_within(c, i, b);
        }
        return column_within(c, i, b);
    }
    b == MOST_BOUND
}

// "43, a bound over 2^31 or a cell beyond its column's"
pub fn columns_bounded(c: &[u8], kind: usize) -> bool
    requires { fits c.now ≡ true }
    ensures { result ≡ bounded (table_by kind c.now) }
{
    for i in 0..byte_at(c, COLUMNS_AT) {
        if !column_bounded(c, kind, i) {
            return false;
        }
    }
    true
}

fn kind_bit(kind: usize) -> u64
    ensures { (result ≡ kind_bit kind) × (result ≤ 1) }
{
    if kind == base_syntax::KIND_COLUMNS {
        return 1;
    }
    0
}

// The description of the table with this content, of a record of this kind, whose bounds begin at p.
fn describe(c: &[u8], kind: usize, p: usize) -> u64
    requires { p < 2 ^ 33 }
    ensures { result ≡ description_of kind c.now p }
{
    let w = byte_at(c, COLLECTION_AT) as u64
        + ONE_COLUMN * byte_at(c, COLUMNS_AT) as u64
        + ONE_ROW * two_at(c, ROWS_AT) as u64
        + ONE_KIND * kind_bit(kind)
        + ONE_POSITION * (p + 4 * byte_at(c, COLUMNS_AT)) as u64;
    w
}

// The fields of a description (specs/Description.antt).
pub fn collection(w: u64) -> u64
    ensures { result ≡ collection_in w }
{
    w % ONE_COLUMN
}

pub fn columns(w: u64) -> usize
    ensures { result ≡ columns_in w }
{
    (w / ONE_COLUMN % COLUMNS) as usize
}

pub fn rows(w: u64) -> usize
    ensures { result ≡ rows_in w }
{
    (w / ONE_ROW % ROWS) as usize
}

// The description of table k; where there is none 0, which has no columns and no rows.
pub fn table(s: &[u64], k: usize) -> u64
    ensures { result ≡ table_in s.now k }
{
    if k < MOST_TABLES {
        return load(s, DESCRIPTIONS + k);
    }
    0
}

// Whether there is a table k.
pub fn present(s: &[u64], k: usize) -> bool
    ensures { result ≡ present_in s.now k }
{
    1 <= columns(table(s, k))
}

// That of the table whose number is n - 1.
pub fn description(s: &[u64], n: usize) -> u64
    ensures { result ≡ description_in s.now n }
{
    if n == 0 {
        return 0;
    }
    table(s, n - 1)
}

// "signed, four bytes each"
pub fn signed_of(n: usize) -> i64
    requires { n < 2 ^ 32 }
    ensures { (result ≡ signed n) × (unsigned_abs result ≤ 2 ^ 31) }
{
    ((n + MOST_BOUND) % CELLS) as i64 - MOST_MAGNITUDE
}

// Whether w describes a table by columns.
pub fn by_columns(w: u64) -> bool
    ensures { result ≡ (kind_in w == 1) }
{
    w / ONE_KIND % 2 == 1
}

// Where the numbers that such a table stores for column c begin.
pub fn column_place(w: u64, c: usize) -> usize
    requires { c < 16 }
    ensures { (result ≡ column_place_in w c) × (result < 2 ^ 60) }
{
    (w / ONE_POSITION) as usize + 4 * cells(c, rows(w))
}

// Where the cell in row r and column c stands.
pub fn place(w: u64, r: usize, c: usize) -> usize
    requires { (r < 2048) × (c < 16) }
    ensures { (result ≡ place_in w r c) × (result < 2 ^ 61) }
{
    (w / ONE_POSITION) as usize + 4 * (cells(columns(w), r) + c)
}

// How far behind a cell the one below it stands: a row's bytes.
pub fn stride(w: u64) -> usize
    ensures { result ≡ 4 * columns_in w }
{
    4 * columns(w)
}

// Whether rows of the table that w describes, one behind another, have a description of their own: it has all its rows, these stand one
// behind another, and its position can be moved.
pub fn has_stretches(w: u64) -> bool
    ensures { result ≡ true → Stretchable w }
{
    if by_columns(w) {
        return false;
    }
    if w / ONE_SUBSET % SUBSETS == 0 {
        return w / ONE_POSITION < LOW_POSITIONS;
    }
    false
}

// That of m rows of it from row f on.
pub fn stretch(w: u64, f: usize, m: usize) -> u64
    requires { StretchPre w f m }
    ensures { StretchPost w f m result }
{
    w - ONE_ROW * (rows(w) - m) as u64 + ONE_POSITION * (4 * cells(columns(w), f)) as u64
}

// Whether the table that w describes has all its rows, and every cell of it stands in the data. What a loop over cells asks once, so that a
// subset costs those that have all nothing.
pub fn placed(data: &[u8], w: u64) -> bool
    ensures { PlacedPost «data».now w result }
{
    if w / ONE_SUBSET % SUBSETS == 0 {
        return place(w, rows(w), 0) <= data.len();
    }
    false
}

// Whether w leaves no row out.
pub fn full(w: u64) -> bool
    ensures { result ≡ full_in w }
{
    w / ONE_SUBSET % SUBSETS == 0
}

// How many rows m leaves out.
fn ones(m: u64) -> u64
    requires { m < 4096 }
    ensures { (result ≡ ones_in subset_rows m) × (result ≤ m) }
{
    let mut x = m;
    let mut n = 0;
    for _i in 0..SUBSET_ROWS {
        n += x % 2;
        x = x / 2;
    }
    n
}

// Which of the stored rows is row r of those that m does not leave out.
fn kept_row(m: u64, r: usize) -> usize
    requires { m < 4096 }
    ensures { (result ≡ kept_row subset_rows m r) × (result ≤ 12) }
{
    let mut x = m;
    let mut before = r;
    for q in 0..SUBSET_ROWS {
        let here = 1 - (x % 2) as usize;
        if before < here {
            return q;
        }
        before -= here;
        x = x / 2;
    }
    SUBSET_ROWS
}

// The description of all rows that are stored, where w leaves those of m out.
fn whole(w: u64, m: u64) -> u64
    requires { m ≡ subset_in w }
    ensures { result ≡ whole_in w }
{
    w - ONE_SUBSET * m + ONE_ROW * ones(m)
}

// The description of the rows that m does not leave out, where w has them all.
pub fn without(w: u64, m: u64) -> u64
    requires { (subset_in w ≡ 0) × (m < 4096) }
    ensures { result ≡ without_in w m }
{
    w + ONE_SUBSET * m - ONE_ROW * ones(m)
}

// The four bytes of the cell in row r and column c, of all rows that are stored.
fn stored_word(data: &[u8], w: u64, r: usize, c: usize) -> usize
    requires { (r < 2048) × (c < 16) }
    ensures { (result ≡ stored_word_in «data».now w r c) × (result < 2 ^ 32) }
{
    if by_columns(w) {
        return sum_down(data, column_place(w, c), r + 1) as usize;
    }
    four_at(data, place(w, r, c))
}

// The same of the rows that w does not leave out.
fn cell_word(data: &[u8], w: u64, r: usize, c: usize) -> usize
    requires { (r < 2048) × (c < 16) }
    ensures { (result ≡ word_in «data».now w r c) × (result < 2 ^ 32) }
{
    let m = w / ONE_SUBSET % SUBSETS;
    if m == 0 {
        return stored_word(data, w, r, c);
    }
    stored_word(data, whole(w, m), kept_row(m, r), c)
}

// The cell in row r and column c of the table that w describes; 0 outside.
pub fn cell(data: &[u8], w: u64, r: usize, c: usize) -> i64
    ensures { CellPost «data».now w r c result }
{
    if rows(w) <= r {
        return 0;
    }
    let width = columns(w);
    if width <= c {
        return 0;
    }
    if w / ONE_KIND % PLAINS == 0 {
        return signed_of(four_at(data, place(w, r, c)));
    }
    signed_of(cell_word(data, w, r, c))
}

// The bound that column c of the table that w describes declares: it stands before the first cell. 0 outside.
pub fn bound(data: &[u8], w: u64, c: usize) -> u64
    ensures { BoundPost «data».now w c result }
{
    let width = columns(w);
    if width <= c {
        return 0;
    }
    let first = (w / ONE_POSITION) as usize;
    if first < 4 * width {
        return 0;
    }
    four_at(data, first - 4 * width + 4 * c) as u64
}

// The table with this content, of a record of this kind, whose bounds begin at p and whose record ends before next: its number, its
// description and next. Scratch has those of the records before.
fn numbered_table(
    c: &[u8],
    kind: usize,
    scratch: &[u64],
    p: usize,
    next: usize,
) -> Result<(usize, u64, usize), Refusal>
    requires { (fits c.now ≡ true) × (p < 2 ^ 33) }
    ensures { result ≡ numbered_table kind c.now scratch.now p next }
{
    let k = byte_at(c, NUMBER_AT);
    if MOST_TABLES <= k {
        return Err(Refusal::TableNumberOutOfRange);
    }
    if present(scratch, k) {
        return Err(Refusal::TableNumberUsed);
    }
    if columns_bounded(c, kind) {
        return Ok((k, describe(c, kind, p), next));
    }
    Err(Refusal::CellBeyondBound)
}

// The record that begins at p.
fn table_at(data: &[u8], scratch: &[u64], p: usize) -> Result<(usize, u64, usize), Refusal>
    requires { (p ≤ length «data».now) × (p < 2 ^ 32) }
    ensures { result ≡ table_at «data».now scratch.now p }
{
    let Some(n) = read_header(&data[p..]) else {
        return Err(Refusal::NotATable);
    };
    let from = p + 4;
    let next = from + n;
    if well_formed(&data[from..next]) {
        return numbered_table(
            &data[from..next],
            two_at(data, p + 2),
            scratch,
            from + BOUNDS_AT,
            next,
        );
    }
    Err(Refusal::TableOutOfRange)
}

// "the data, earliest record first, 13 before 11 before 12"; "50 .. 51 .. both at their record, after 12 and before 43".
// Leaves each table's description at its number.
pub fn read_data(data: &[u8], scratch: &mut [u64]) -> Result<(), Refusal>
    requires { 9 ≤ length scratch.old }
    ensures { ReadDataPost «data».now scratch.old scratch.new (outcome_number result) }
{
    wipe(scratch, DESCRIPTIONS, DESCRIPTIONS + MOST_TABLES);
    let mut p = 0;
    let mut n = 0;
    while p < data.len() {
        if n == MOST_TABLES {
            return Err(Refusal::TooManyTables);
        }
        let (k, w, next) = table_at(data, scratch, p)?;
        n += 1;
        store(scratch, DESCRIPTIONS + k, w);
        p = next;
    }
    Ok(())
}
