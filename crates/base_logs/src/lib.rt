// Two logs paired into a lent buffer: pairs and singles as three records of kind 20.
#![tactic(auto)]

ghost use Rattle.std.specs.Prelude.{◌≡◌, ◌+◌, ◌*◌, ◌≤◌, ◌<◌, ◌^◌, length};
ghost use Rattle.std.proofs.lemmas.List.Edits.{sets};
ghost use Rattle.base_refusals.specs.Numbers.{outcome_number, outcome_length};
ghost use Rattle.spec_encoding.specs.Record.{signed};
ghost use Rattle.spec_logs.specs.Logs.{never_falls, paired};
ghost use Rattle.spec_logs.specs.Records.{two_bytes, records};
ghost use Rattle.spec_logs.specs.PairLogs.{pair_logs};
ghost use Rattle.spec_logs.proofs.Distance.{since};
ghost use Rattle.spec_outcome.specs.Directions.{Fills};
ghost use Rattle.base_tables.specs.Description.{rows_in};
ghost use Rattle.base_logs.specs.Times.{word_below, times_in, is_log_in};
ghost use Rattle.base_logs.specs.Moves.{times_move, rows_move, first_rows, rows_after, pairs_in, LogsPre};
ghost use Rattle.base_logs.specs.Laying.{bound_bytes, head_bytes, HeadPre, RowPre, row_laid, places_after, RowsPre, rows_laid};
ghost use Rattle.base_logs.specs.OwnRefusal.{refusal_of};

use base_columns::{CONTENT_AT, KIND_AT, low, put};
use base_refusals::Refusal;
use base_scratch::DESCRIPTIONS;
use base_signed::CELL_LIMIT;
use base_tables::{
    BOUNDS_AT, COLLECTION_AT, COLUMNS_AT, MOST_TABLES, NUMBER_AT, ROWS_AT, below, by_columns,
    collection, column_place, columns, place, read_data, rows, table, word_at,
};

// "a tolerance of 0 to 3,600 seconds"
const MOST_TOLERANCE: u64 = 3600;

// So many times are there, half of them below 0.
const TIMES: u64 = 2 * CELL_LIMIT;

// "numbered 5, 6 and 7"
const PAIRS: u8 = 5;

const FIRST_SINGLES: u8 = 6;

const SECOND_SINGLES: u8 = 7;

// "1 list"
const LIST: u64 = 1;

// "every column bound 1,023"
const LAST_POSITION: u32 = 1023;

// The bytes of a record before its cells, of two columns and of one.
const PAIRS_HEAD: usize = 17;

const SINGLES_HEAD: usize = 13;

// What becomes of the earliest rows left: they pair, or that of the first or the second log is single.
#[derive(Clone, Copy)]
pub enum Move {
    Pair,
    First,
    Second,
}

// The first row left of each log, and the numbers of their times' four bytes.
#[derive(Clone, Copy)]
pub struct Rows {
    pub i: usize,
    pub x: u32,
    pub j: usize,
    pub y: u32,
}

// Where the next pair and the next single of each log are written.
#[derive(Clone, Copy)]
pub struct Places {
    pub pairs: usize,
    pub firsts: usize,
    pub seconds: usize,
}

// The four bytes of the time in row r, by those in the row above: one step of a walk down column 0, by rows or by columns.
fn word_of(data: &[u8], w: u64, r: usize, above: u32) -> u32
    requires { r < 2048 }
    ensures { result ≡ word_below «data».now w r above }
{
    if by_columns(w) {
        return below(above, word_at(data, column_place(w, 0) + 4 * r));
    }
    word_at(data, place(w, r, 0))
}

// A time counted from -2^31 on.
fn time(x: u32) -> u64
    ensures { (result ≡ since (2 ^ 31) (signed x)) × (result < 2 ^ 32) }
{
    (x as u64 + CELL_LIMIT) % TIMES
}

// "neither falling"
fn never_falls(data: &[u8], w: u64) -> bool
    ensures { result ≡ never_falls (times_in «data».now w) }
{
    let n = rows(w);
    let mut last: u64 = 0;
    let mut x: u32 = 0;
    for r in 0..n {
        x = word_of(data, w, r, x);
        let t = time(x);
        if t < last {
            return false;
        }
        last = t;
    }
    true
}

// Whether w describes a list whose times do not fall. 0 describes none.
fn is_log(data: &[u8], w: u64) -> bool
    ensures { result ≡ is_log_in «data».now w }
{
    if columns(w) == 0 {
        return false;
    }
    if collection(w) != LIST {
        return false;
    }
    never_falls(data, w)
}

// "no further apart than the tolerance they pair, else the earlier is single"
fn by_times(x: u32, y: u32, t: u64) -> Move
    requires { t ≤ 3600 }
    ensures { result ≡ times_move t (signed x) (signed y) }
{
    let a = time(x);
    let b = time(y);
    if a + t < b {
        return Move::First;
    }
    if b + t < a {
        return Move::Second;
    }
    Move::Pair
}

// "once one table is used up, the other's rest is single": of logs of m and n rows, of which some are left.
fn next_move(r: Rows, m: usize, n: usize, t: u64) -> Move
    requires { t ≤ 3600 }
    ensures { result ≡ rows_move t m n r }
{
    if m <= r.i {
        return Move::Second;
    }
    if n <= r.j {
        return Move::First;
    }
    by_times(r.x, r.y, t)
}

// The first rows of both logs.
fn first_rows(data: &[u8], a: u64, b: u64) -> Rows
    ensures { result ≡ first_rows «data».now a b }
{
    Rows {
        i: 0,
        x: word_of(data, a, 0, 0),
        j: 0,
        y: word_of(data, b, 0, 0),
    }
}

// The rows left behind a move.
fn advance(data: &[u8], a: u64, b: u64, r: Rows, v: Move) -> Rows
    requires { (r.i ≤ 1024) × (r.j ≤ 1024) }
    ensures { result ≡ rows_after «data».now a b r v }
{
    let i = r.i + 1;
    let j = r.j + 1;
    match v {
        Move::Pair => Rows {
            i: i,
            x: word_of(data, a, i, r.x),
            j: j,
            y: word_of(data, b, j, r.y),
        },
        Move::First => Rows {
            i: i,
            x: word_of(data, a, i, r.x),
            j: r.j,
            y: r.y,
        },
        Move::Second => Rows {
            i: r.i,
            x: r.x,
            j: j,
            y: word_of(data, b, j, r.y),
        },
    }
}

// One more where the rows pair.
fn counted(pairs: usize, v: Move) -> usize
    requires { pairs ≤ 1024 }
    ensures { result ≡ pairs + pairs_in v }
{
    match v {
        Move::Pair => pairs + 1,
        Move::First => pairs,
        Move::Second => pairs,
    }
}

// How many pairs there are: where the second and the third record begin.
fn count_pairs(data: &[u8], a: u64, b: u64, t: u64) -> usize
    requires { LogsPre a b t }
    ensures { result ≡ length (paired t (times_in «data».now a) (times_in «data».now b)).pairs }
{
    let m = rows(a);
    let n = rows(b);
    let mut r = first_rows(data, a, b);
    let mut pairs = 0;
    while r.i + r.j < m + n {
        let v = next_move(r, m, n, t);
        r = advance(data, a, b, r, v);
        pairs = counted(pairs, v);
    }
    pairs
}

// A number's two bytes, little-endian.
fn put_two(d: &mut [u8], i: usize, w: u32)
    requires { i + 2 ≤ length d.old }
    ensures { d.new ≡ sets d.old i (two_bytes w) }
{
    d[i] = low(w);
    d[i + 1] = low(w / 256);
}

fn put_bounds(d: &mut [u8], p: usize, w: usize)
    requires { (w ≤ 8) × (p + 4 * w ≤ length d.old) }
    ensures { d.new ≡ sets d.old p (bound_bytes w) }
{
    for i in 0..w {
        put(d, p + 4 * i, LAST_POSITION);
    }
}

// All of a list record of w columns and n rows that stands before its cells, at p.
fn put_head(d: &mut [u8], p: usize, number: u8, w: u8, n: usize)
    requires { HeadPre d.old p w n }
    ensures { d.new ≡ sets d.old p (head_bytes number w n) }
{
    let wide = w as usize;
    let content = p + CONTENT_AT;
    put_two(d, p, (BOUNDS_AT + 4 * wide + 4 * (wide * n)) as u32);
    put_two(d, p + KIND_AT, base_syntax::KIND_ROWS as u32);
    d[content + NUMBER_AT] = number;
    d[content + COLLECTION_AT] = LIST as u8;
    d[content + COLUMNS_AT] = w;
    put_two(d, content + ROWS_AT, n as u32);
    put_bounds(d, content + BOUNDS_AT, wide);
}

// The positions of a pair or a single, written at its table's place.
fn lay_row(d: &mut [u8], p: Places, i: usize, j: usize, v: Move) -> Places
    requires { RowPre d.old p i j v }
    ensures { (d.new ≡ row_laid d.old p i j v) × (result ≡ places_after p v) }
{
    match v {
        Move::Pair => {
            put(d, p.pairs, i as u32);
            put(d, p.pairs + 4, j as u32);
            Places {
                pairs: p.pairs + 8,
                firsts: p.firsts,
                seconds: p.seconds,
            }
        }
        Move::First => {
            put(d, p.firsts, i as u32);
            Places {
                pairs: p.pairs,
                firsts: p.firsts + 4,
                seconds: p.seconds,
            }
        }
        Move::Second => {
            put(d, p.seconds, j as u32);
            Places {
                pairs: p.pairs,
                firsts: p.firsts,
                seconds: p.seconds + 4,
            }
        }
    }
}

// All cells of the three tables, each table's from its place on.
fn lay_rows(data: &[u8], a: u64, b: u64, t: u64, d: &mut [u8], p: Places)
    requires { LogsPre a b t × RowsPre «data».now a b t d.old p }
    ensures { d.new ≡ rows_laid d.old p (paired t (times_in «data».now a) (times_in «data».now b)) }
{
    let m = rows(a);
    let n = rows(b);
    let mut r = first_rows(data, a, b);
    let mut q = p;
    while r.i + r.j < m + n {
        let v = next_move(r, m, n, t);
        q = lay_row(d, q, r.i, r.j, v);
        r = advance(data, a, b, r, v);
    }
}

// The three records, one behind the other.
fn lay_records(data: &[u8], a: u64, b: u64, t: u64, d: &mut [u8])
    requires { LogsPre a b t × (43 + 4 * (rows_in a + rows_in b) ≤ length d.old) }
    ensures { d.new ≡ sets d.old 0 (records (paired t (times_in «data».now a) (times_in «data».now b))) }
{
    let pairs = count_pairs(data, a, b, t);
    let firsts = rows(a) - pairs;
    let seconds = rows(b) - pairs;
    let p6 = PAIRS_HEAD + 8 * pairs;
    let p7 = p6 + SINGLES_HEAD + 4 * firsts;
    put_head(d, 0, PAIRS, 2, pairs);
    put_head(d, p6, FIRST_SINGLES, 1, firsts);
    put_head(d, p7, SECOND_SINGLES, 1, seconds);
    let places = Places {
        pairs: PAIRS_HEAD,
        firsts: p6 + SINGLES_HEAD,
        seconds: p7 + SINGLES_HEAD,
    };
    lay_rows(data, a, b, t, d, places);
}

// How long they are: a position has four bytes, and each row's stands in one place.
fn records_length(a: u64, b: u64) -> usize
    ensures { result ≡ 43 + 4 * (rows_in a + rows_in b) }
{
    PAIRS_HEAD + 2 * SINGLES_HEAD + 4 * (rows(a) + rows(b))
}

// 53, 54, or 52 for a target of so many bytes.
fn refusal(data: &[u8], a: u64, b: u64, t: u64, room: usize) -> Result<(), Refusal>
    ensures { outcome_number result ≡ refusal_of «data».now a b t room }
{
    if !is_log(data, a) {
        return Err(Refusal::NotALog);
    }
    if !is_log(data, b) {
        return Err(Refusal::NotALog);
    }
    if MOST_TOLERANCE < t {
        return Err(Refusal::ToleranceOutOfRange);
    }
    if room < records_length(a, b) {
        return Err(Refusal::TargetTooShort);
    }
    Ok(())
}

// "Give three tables .. written one behind the other into a lent buffer"; "in that order, after the data, with the buffer unchanged, as are bytes behind an
// answer". Answers the three records' length. The descriptions of eight tables fit a local array.
pub fn pair_logs(
    data: &[u8],
    first: u64,
    second: u64,
    t: u64,
    target: &mut [u8],
) -> Result<usize, Refusal>
    ensures { Fills (pair_logs «data».now first second t target.old) (outcome_number result) (outcome_length result) target.new }
{
    let mut tables = [0u64; DESCRIPTIONS + MOST_TABLES];
    read_data(data, &mut tables)?;
    let a = table(&tables, first as usize);
    let b = table(&tables, second as usize);
    refusal(data, a, b, t, target.len())?;
    lay_records(data, a, b, t, target);
    Ok(records_length(a, b))
}
