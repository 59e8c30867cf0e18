// What operators and monoids do to values that are kept as one word.
#![tactic(auto)]

ghost use Rattle.std.specs.Prelude.{◌≡◌, ◌≤◌, ◌^◌, nat_abs};
ghost use Rattle.base_syntax.specs.MonoidWord.{monoid_of};
ghost use Rattle.base_syntax.specs.Numbers.{bin_of};
ghost use Rattle.form_arith.specs.WordSorts.{read_word, sort_of, operand_sort, result_sort, truth_word, negate_word, operate_word, operate_bound};

use base_syntax::{BinOp, Monoid};

// How a value is read as a word: as a number, as a truth, as what it is of the two, or not at all.
#[derive(Clone, Copy, PartialEq, Eq)]
pub enum Sort {
    Number,
    Truth,
    Other,
    Either,
}

// The word x of a value of one sort, read as another.
pub fn read_as(want: Sort, have: Sort, x: i64) -> i64
    ensures { result ≡ read_word want have x }
{
    if want == have {
        return x;
    }
    if want == Sort::Either { x } else { 0 }
}

// The sort of a monoid's heads, and of its value.
pub fn sort_of(m: Monoid) -> Sort
    ensures { result ≡ sort_of (monoid_of m) }
{
    match m {
        Monoid::List => Sort::Other,
        Monoid::Bag => Sort::Other,
        Monoid::Set => Sort::Other,
        Monoid::Sum => Sort::Number,
        Monoid::Max => Sort::Number,
        Monoid::Some => Sort::Truth,
        Monoid::All => Sort::Truth,
        Monoid::Min => Sort::Number,
    }
}

pub fn operands(o: BinOp) -> Sort
    ensures { result ≡ operand_sort (bin_of o) }
{
    match o {
        BinOp::Plus => Sort::Number,
        BinOp::Minus => Sort::Number,
        BinOp::Times => Sort::Number,
        BinOp::Equal => Sort::Number,
        BinOp::Less => Sort::Number,
        BinOp::And => Sort::Truth,
        BinOp::Or => Sort::Truth,
    }
}

pub fn result(o: BinOp) -> Sort
    ensures { result ≡ result_sort (bin_of o) }
{
    match o {
        BinOp::Plus => Sort::Number,
        BinOp::Minus => Sort::Number,
        BinOp::Times => Sort::Number,
        BinOp::Equal => Sort::Truth,
        BinOp::Less => Sort::Truth,
        BinOp::And => Sort::Truth,
        BinOp::Or => Sort::Truth,
    }
}

pub fn truth_word(b: bool) -> i64
    ensures { result ≡ truth_word b }
{
    i64::from(b)
}

pub fn negated(a: i64) -> i64
    ensures { result ≡ negate_word a }
{
    truth_word(a == 0)
}

// The result must be a word: what refusal 28 is for.
pub fn operate(o: BinOp, a: i64, b: i64) -> i64
    requires { operate_bound (bin_of o) (nat_abs a) (nat_abs b) ≤ 2 ^ 62 }
    ensures { result ≡ operate_word (bin_of o) a b }
{
    match o {
        BinOp::Plus => a + b,
        BinOp::Minus => a - b,
        BinOp::Times => a * b,
        BinOp::Equal => truth_word(a == b),
        BinOp::Less => truth_word(a < b),
        BinOp::And => { if a == 0 { a } else { b } }
        BinOp::Or => { if a == 0 { b } else { a } }
    }
}
