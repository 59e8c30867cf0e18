// The words of the answer, laid into its buffer below a limit; how a value is written, and the words of a row.
#![tactic(auto)]

ghost use Rattle.std.specs.Prelude.{◌≡◌};
ghost use Rattle.answer_writer.specs.LaidWords.{bump, laid, PutPost};
ghost use Rattle.answer_writer.specs.Shapes.{comprehension_shape, ShapeAtPost};
ghost use Rattle.answer_writer.specs.Contract.{RowPost};

use base_scratch::FORM_WORDS;
use base_signed::COUNT_LIMIT;
use base_syntax::{BinOp, Monoid};
use base_tables::{cell, columns, description, rows};
use form_arith::{Sort, result};
use form_env::{slot, slot_row, slot_table};
use form_words::{arg, kind, low, next, word};

// How a form's value is written: one word, a row's columns, a record's fields up to a place, a collection.
#[derive(Clone, Copy)]
pub enum WriteForm {
    Word(Sort),
    Row(usize),
    Record(usize),
    Collection,
}

// One more below 2^62, and from there on the same: G can be any number, and nothing wraps.
pub fn more(p: usize) -> usize
    ensures { result ≡ bump p }
{
    if p < COUNT_LIMIT { p + 1 } else { p }
}

pub fn lay(out: &mut [i64], limit: usize, p: usize, x: i64)
    ensures { out.new ≡ laid limit p x out.old }
{
    if p < limit {
        if p < out.len() {
            out[p] = x;
        }
    }
}

// A word at p where that is below the limit; the next place.
pub fn put(out: &mut [i64], limit: usize, p: usize, x: i64) -> usize
    ensures { PutPost limit out.old p x out.new result }
{
    lay(out, limit, p, x);
    more(p)
}

fn comprehension_shape(m: Monoid) -> WriteForm
    ensures { result ≡ comprehension_shape m }
{
    match m {
        Monoid::List => WriteForm::Collection,
        Monoid::Bag => WriteForm::Collection,
        Monoid::Set => WriteForm::Collection,
        Monoid::Sum => WriteForm::Word(Sort::Number),
        Monoid::Max => WriteForm::Word(Sort::Number),
        Monoid::Some => WriteForm::Word(Sort::Truth),
        Monoid::All => WriteForm::Word(Sort::Truth),
        Monoid::Min => WriteForm::Word(Sort::Number),
    }
}

// By the word itself: `look` would make a node first.
pub fn shape_at(s: &[u64], i: usize) -> WriteForm
    ensures { ShapeAtPost s.now i result }
{
    if FORM_WORDS <= i {
        return WriteForm::Word(Sort::Number);
    }
    let w = word(s, i);
    let a = arg(w);
    match kind(w) {
        form_words::TRUTH => WriteForm::Word(Sort::Truth),
        form_words::ROW => WriteForm::Row(low(a)),
        form_words::RECORD => WriteForm::Record(next(s, i)),
        form_words::BINARY => WriteForm::Word(result(BinOp::from_number(a))),
        form_words::NEGATION => WriteForm::Word(Sort::Truth),
        form_words::OPERATOR => WriteForm::Word(Sort::Either),
        form_words::COMPREHENSION => comprehension_shape(Monoid::from_bits(a)),
        _ => WriteForm::Word(Sort::Number),
    }
}

// The columns of the row that generator g stands for; one 0 where there is no row.
pub fn row(s: &[u64], data: &[u8], out: &mut [i64], limit: usize, g: usize, p: usize) -> usize
    ensures { RowPost «data».now s.now limit out.old g p out.new result }
{
    let e = slot(s, g);
    let w = description(s, slot_table(e));
    let r = slot_row(e);
    if rows(w) <= r {
        return put(out, limit, p, 0);
    }
    let mut q = p;
    for c in 0..columns(w) {
        q = put(out, limit, q, cell(data, w, r, c));
    }
    q
}
