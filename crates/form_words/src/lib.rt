// The words of a normal form in scratch: `word` is their only reader, `put_word` their only writer. `look` says which node a
// word is.
#![tactic(auto)]

ghost use Rattle.std.specs.Prelude.{◌≡◌, ◌+◌, ◌%◌, ◌<◌, ◌^◌, set};
ghost use Rattle.form_words.specs.NodeWord.{word_at, form_kind_of, below_of, arg_of, pack, next, upto_place, branch_place};
ghost use Rattle.base_syntax.specs.Numbers.{constant_of};
ghost use Rattle.base_scratch.specs.Map.{form_at};
ghost use Rattle.form_words.specs.Look.{Looks, LeafAtPost, MonoidOfPost, LooksC};

use base_scratch::{FORM, FORM_WORDS, load_at, store_at};
use base_syntax::{BinOp, Fun, Monoid, OFFSET};

// The kinds of nodes (specs/Kinds.antt).
pub const NUMBER: u64 = 1;

pub const TRUTH: u64 = 2;

pub const ROW: u64 = 3;

pub const CELL: u64 = 4;

pub const RECORD: u64 = 5;

pub const BINARY: u64 = 6;

pub const NEGATION: u64 = 7;

pub const COMPREHENSION: u64 = 8;

pub const GENERATOR: u64 = 9;

pub const CONDITION: u64 = 10;

pub const OPERATOR: u64 = 11;

// A word is its kind in four bits, how many words are below it in ten, and its argument in fifty.
const KINDS: u64 = 16;

const BELOWS: u64 = 1024;

// An argument that is two numbers has the second in its low ten bits.
pub const PAIR: u64 = 1024;

// A node, with the places that are not the one behind it: the end of a record or an operator, the second operand, the end of a condition.
// A cell is column and generator, a generator its number and its table.
#[derive(Clone, Copy)]
pub enum FormNode {
    Number(i64),
    Truth(bool),
    Row(usize),
    Cell(usize, usize),
    Record(usize),
    Binary(BinOp, usize),
    Negation,
    Operator(Fun, usize),
    Comprehension(Monoid),
    Generator(usize, usize),
    Condition(usize),
    Nothing,
}

// A number, a cell, or some other node.
#[derive(Clone, Copy)]
pub enum Leaf {
    Number(i64),
    Cell(usize, usize),
    Other,
}

// A node that stands among the clauses of a comprehension: all but generators and conditions are its head.
#[derive(Clone, Copy)]
pub enum Clause {
    Generator(usize, usize),
    Condition(usize),
    Head,
}

// Word i of the normal form; 0 outside.
pub fn word(s: &[u64], i: usize) -> u64
    ensures { result ≡ word_at s.now i }
{
    load_at(s, FORM, i)
}

// The fields of a word.
pub fn kind(w: u64) -> u64
    ensures { result ≡ form_kind_of w }
{
    w % KINDS
}

pub fn below(w: u64) -> u64
    ensures { (result ≡ below_of w) × (result < 1024) }
{
    w / KINDS % BELOWS
}

pub fn arg(w: u64) -> u64
    ensures { (result ≡ arg_of w) × (result < 2 ^ 50) }
{
    w / (KINDS * BELOWS)
}

// Writes a word: kind, how many words are below it, argument. No store outside.
pub fn put_word(s: &mut [u64], i: usize, k: u64, below: u64, a: u64)
    requires { (k < 16) × (below < 1024) × (a < 2 ^ 50) }
    ensures { s.new ≡ set s.old (form_at + i) (pack k below a) }
{
    store_at(s, FORM, i, k + KINDS * (below + BELOWS * a));
}

// The place behind the subtree at i.
#[tactic(auto, unfolding(crate::specs::NodeWord::next))]
pub fn next(s: &[u64], i: usize) -> usize
    ensures { result ≡ next s.now i }
{
    if FORM_WORDS <= i {
        return FORM_WORDS;
    }
    let n = below(word(s, i));
    (i + 1 + n as usize).min(FORM_WORDS)
}

// The place i where it lies before e; behind all words, where nothing stands, if it does not.
pub fn upto(i: usize, e: usize) -> usize
    ensures { result ≡ upto_place i e }
{
    if i < e { i } else { FORM_WORDS }
}

// Where the branches of a choice stand behind its truth at i, before e: the first, or the other.
pub fn branch(s: &[u64], i: usize, e: usize, other: bool) -> usize
    ensures { result ≡ branch_place s.now i e other }
{
    let j = next(s, i);
    if other {
        upto(next(s, j), e)
    } else {
        upto(j, e)
    }
}

pub fn number(a: u64) -> i64
    requires { a < 2 ^ 50 }
    ensures { result ≡ constant_of a }
{
    a as i64 - OFFSET
}

// The low ten bits.
pub fn low(a: u64) -> usize
    ensures { (result ≡ a % 1024) × (result < 1024) }
{
    (a % PAIR) as usize
}

pub fn look(s: &[u64], i: usize) -> FormNode
    ensures { Looks s.now i result }
{
    if FORM_WORDS <= i {
        return FormNode::Nothing;
    }
    let w = word(s, i);
    let a = arg(w);
    match kind(w) {
        NUMBER => FormNode::Number(number(a)),
        TRUTH => FormNode::Truth(a == 1),
        ROW => FormNode::Row(low(a)),
        CELL => FormNode::Cell(low(a / PAIR), low(a)),
        RECORD => FormNode::Record(next(s, i)),
        BINARY => FormNode::Binary(BinOp::from_number(a), next(s, i + 1)),
        NEGATION => FormNode::Negation,
        COMPREHENSION => FormNode::Comprehension(Monoid::from_bits(a)),
        GENERATOR => FormNode::Generator(low(a / PAIR), low(a)),
        CONDITION => FormNode::Condition(next(s, i)),
        OPERATOR => FormNode::Operator(Fun::from_number(a), next(s, i)),
        _ => FormNode::Nothing,
    }
}

// By the word itself: `look` would be a call for each operand.
pub fn leaf_at(s: &[u64], i: usize) -> Leaf
    ensures { LeafAtPost s.now i result }
{
    if FORM_WORDS <= i {
        return Leaf::Other;
    }
    let w = word(s, i);
    let a = arg(w);
    match kind(w) {
        NUMBER => Leaf::Number(number(a)),
        CELL => Leaf::Cell(low(a / PAIR), low(a)),
        _ => Leaf::Other,
    }
}

// The same for the monoid of a comprehension.
pub fn monoid_of(s: &[u64], i: usize) -> Option<Monoid>
    ensures { MonoidOfPost s.now i result }
{
    if FORM_WORDS <= i {
        return None;
    }
    let w = word(s, i);
    match kind(w) {
        COMPREHENSION => Some(Monoid::from_bits(arg(w))),
        _ => None,
    }
}

// By the word itself: a clause is looked at for each row, and `look` would make a node first.
pub fn look_clause(s: &[u64], i: usize) -> Clause
    ensures { LooksC s.now i result }
{
    if FORM_WORDS <= i {
        return Clause::Head;
    }
    let w = word(s, i);
    let a = arg(w);
    match kind(w) {
        GENERATOR => Clause::Generator(low(a / PAIR), low(a)),
        CONDITION => Clause::Condition(next(s, i)),
        _ => Clause::Head,
    }
}
