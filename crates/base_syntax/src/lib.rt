// What a question is made of: the kinds of records, the operators and the monoids, each with its numbers. The monoid's own type
// has its start, its combining step and its last step on words; loops, nest and reduce use these.
#![tactic(auto)]

ghost use Rattle.std.specs.Prelude.{◌≡◌, ◌<◌, ◌%◌, ◌^◌};
ghost use Rattle.std.specs.Int.Signed.{mag};
ghost use Rattle.base_syntax.specs.MonoidWord.{monoid_of, zero_word, chosen, merge_word, finish_word, one_more};
ghost use Rattle.base_syntax.specs.Numbers.{bin_of, op_arg, op_at, fun_of, fun_arg, fun_at, monoid_code, monoid_numbered, monoid_arg, monoid_at};

use base_signed::{COUNT_LIMIT, NUMBER_MOST};

// What max and min have before their first head: no head has this word, since all are within 2^62. No Option (what may not change:
// `zero_word` and `chosen` are on one word, as it stands in scratch).
pub const NONE: i64 = NUMBER_MOST + 1;

// Document 01's kinds of a question's records. No enum (no plainer): they are bytes of a question and parts of a node's word, which
// hold any number, and each reader asks for one kind or two.
pub const KIND_NUMBER: u64 = 1;

pub const KIND_TRUTH: u64 = 2;

pub const KIND_NAME: u64 = 3;

pub const KIND_FIELD: u64 = 4;

pub const KIND_RECORD: u64 = 5;

pub const KIND_PLUS: u64 = 6;

pub const KIND_MINUS: u64 = 7;

pub const KIND_TIMES: u64 = 8;

pub const KIND_EQUAL: u64 = 9;

pub const KIND_LESS: u64 = 10;

pub const KIND_AND: u64 = 11;

pub const KIND_OR: u64 = 12;

pub const KIND_NOT: u64 = 13;

pub const KIND_COMPREHENSION: u64 = 14;

pub const KIND_TABLE: u64 = 15;

pub const KIND_GENERATOR: u64 = 16;

pub const KIND_BINDING: u64 = 17;

pub const KIND_CONDITION: u64 = 18;

// Document 02's: a choice (E2).
pub const KIND_CHOICE: u64 = 19;

// The kinds of the data's records: a table by its rows, and the same by its columns (E10).
pub const KIND_ROWS: usize = 20;

pub const KIND_COLUMNS: usize = 23;

// "Kind 21 holds one byte of calendar and one number term" (document 02, E4).
pub const KIND_OPEN: u64 = 21;

// Numbers are kept, in a question's words and in a form's, as their distance from -2^31; ZERO is the number 0.
pub const OFFSET: i64 = 2147483648;

pub const ZERO: u64 = OFFSET as u64;

// A calendar's number is a byte.
const NUMBERS: usize = 256;

// Monoids have the numbers 1 to 8.
pub const MONOIDS: u64 = 8;

#[derive(Clone, Copy, Debug, PartialEq, Eq)]
pub enum BinOp {
    Plus,
    Minus,
    Times,
    Equal,
    Less,
    And,
    Or,
}

// Document 02's operators, each over a list of terms; whether a minute is open goes by the calendar of a number.
#[derive(Clone, Copy, Debug, PartialEq, Eq)]
pub enum Fun {
    Choice,
    Open(usize),
}

#[derive(Clone, Copy, Debug, PartialEq, Eq)]
pub enum Monoid {
    List = 1,
    Bag = 2,
    Set = 3,
    Sum = 4,
    Max = 5,
    Some = 6,
    All = 7,
    Min = 8,
}

// Of two words the second where the test says so, else the first; where one is NONE, the other.
fn choose(a: i64, b: i64, second: bool) -> i64
    ensures { result ≡ chosen a b second }
{
    if a == NONE {
        return b;
    }
    if b == NONE {
        return a;
    }
    if second { b } else { a }
}

impl Monoid {
    // What it has before its first head, as a word: a collection's is its count.
    #[tactic(auto, unfolding(crate::specs::MonoidWord::zero_word))]
    pub fn zero(self) -> i64
        ensures { result ≡ zero_word (monoid_of self) }
    {
        match self {
            Monoid::List => 0,
            Monoid::Bag => 0,
            Monoid::Set => 0,
            Monoid::Sum => 0,
            Monoid::Max => NONE,
            Monoid::Some => 0,
            Monoid::All => 1,
            Monoid::Min => NONE,
        }
    }

    // Two words into one. The result must be a word: what refusal 28 is for.
    pub fn merge(self, a: i64, b: i64) -> i64
        requires { mag (merge_word (monoid_of self) a b) < 2 ^ 63 }
        ensures { result ≡ merge_word (monoid_of self) a b }
    {
        match self {
            Monoid::List => a + b,
            Monoid::Bag => a + b,
            Monoid::Set => a + b,
            Monoid::Sum => a + b,
            Monoid::Max => choose(a, b, a < b),
            Monoid::Some => { if a == 0 { b } else { a } }
            Monoid::All => { if a == 0 { a } else { b } }
            Monoid::Min => choose(a, b, b < a),
        }
    }

    // The value's word, once no head is left: over nothing, max and min are 0.
    #[tactic(auto, unfolding(crate::specs::MonoidWord::finish_word))]
    pub fn finish(self, a: i64) -> i64
        ensures { result ≡ finish_word (monoid_of self) a }
    {
        match self {
            Monoid::List => a,
            Monoid::Bag => a,
            Monoid::Set => a,
            Monoid::Sum => a,
            Monoid::Max => { if a == NONE { 0 } else { a } }
            Monoid::Some => a,
            Monoid::All => a,
            Monoid::Min => { if a == NONE { 0 } else { a } }
        }
    }

    // A collection is told by its count while its elements are written: how many over nothing, and with one element more. A count
    // stops at 2^62: there can be more elements than a word counts, and nothing wraps.
    pub fn no_elements() -> usize
        ensures { result ≡ 0 }
    {
        0
    }

    pub fn one_more(n: usize) -> usize
        ensures { result ≡ one_more n }
    {
        if n < COUNT_LIMIT { n + 1 } else { n }
    }

    // Document 01's number; min's is document 02's.
    pub fn number(self) -> u64
        ensures { result ≡ monoid_code self }
    {
        self as u64
    }

    // Every other number is a list's. No `From` (no plainer): a monoid has two numbers, this one and its bits below.
    pub fn from_number(n: u64) -> Monoid
        ensures { result ≡ monoid_numbered n }
    {
        match n {
            2 => Monoid::Bag,
            3 => Monoid::Set,
            4 => Monoid::Sum,
            5 => Monoid::Max,
            6 => Monoid::Some,
            7 => Monoid::All,
            8 => Monoid::Min,
            _ => Monoid::List,
        }
    }

    // A form word keeps three bits of the number: min's 8 is 0 there.
    pub fn bits(self) -> u64
        ensures { (result ≡ monoid_arg (monoid_of self)) × (result < 8) }
    {
        self.number() % MONOIDS
    }

    // By the low three bits.
    pub fn from_bits(a: u64) -> Monoid
        ensures { result ≡ monoid_at (a % 8) }
    {
        let b = a % MONOIDS;
        if b == 0 {
            return Monoid::Min;
        }
        Monoid::from_number(b)
    }
}

impl BinOp {
    // The number in a form word.
    pub fn number(self) -> u64
        ensures { (result ≡ op_arg (bin_of self)) × (result < 8) }
    {
        self as u64
    }

    // Every other number is plus's. No `From` (no plainer): an operator has two numbers, document 01's kind and this one.
    pub fn from_number(n: u64) -> BinOp
        ensures { result ≡ op_at n }
    {
        match n {
            1 => BinOp::Minus,
            2 => BinOp::Times,
            3 => BinOp::Equal,
            4 => BinOp::Less,
            5 => BinOp::And,
            6 => BinOp::Or,
            _ => BinOp::Plus,
        }
    }
}

impl Fun {
    // The number in a form word.
    pub fn number(self) -> u64
        ensures { (result ≡ fun_arg (fun_of self)) × (result < 512) }
    {
        match self {
            Fun::Choice => 0,
            Fun::Open(n) => 1 + (n % NUMBERS) as u64,
        }
    }

    // Every number is one. No `From` (no plainer): as above.
    pub fn from_number(n: u64) -> Fun
        ensures { result ≡ fun_at n }
    {
        match n {
            0 => Fun::Choice,
            _ => Fun::Open((n - 1) as usize % NUMBERS),
        }
    }
}
