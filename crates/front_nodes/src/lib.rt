// A node of the question from its words in scratch.
#![tactic(auto)]

ghost use Rattle.std.specs.Prelude.{◌≡◌, ◌-◌, ◌<◌, get_or};
ghost use Rattle.spec_encoding.specs.Reader.{kinds, unknown};
ghost use Rattle.base_syntax.specs.Numbers.{constant_of};
ghost use Rattle.front_nodes.specs.NodeTable.{count_of, depth_at};
ghost use Rattle.front_words.specs.NodeWord.{node_kind_of, arg_of};
ghost use Rattle.front_nodes.specs.Look.{kind_named, LookPost, NamedPost, RaisedPost, ChildPost, BoundByPost};

use base_scratch::MOST_NODES;
use base_syntax::{BinOp, Fun, KIND_OPEN, Monoid, OFFSET};
use front_words::start_at;

#[derive(Clone, Copy)]
pub enum Kind {
    Number,
    Truth,
    Name,
    Field,
    Record,
    Two(BinOp),
    Not,
    Comp,
    Table,
    Gen,
    Bind,
    Cond,
    Choice,
    Open,
    Unknown,
}

// A name is its binder and the depth of the comprehension that the binder stands in. The terms of a record and of an operator
// are had by `child`, the qualifiers of a comprehension by walking back from its head: each ends where the next one begins (`start_at`).
#[derive(Clone, Copy)]
pub enum QueryNode {
    Number(i64),
    Truth(bool),
    Name(usize, usize),
    Field(usize, usize),
    Record,
    Two(BinOp, usize, usize),
    Not(usize),
    Comp(Monoid, usize),
    Table(usize),
    Gen(usize),
    Bind(usize),
    Cond(usize),
    Operator(Fun),
    Bad,
}

#[derive(Clone, Copy)]
pub enum Binder {
    Gen(usize),
    Bind(usize),
    Other,
}

fn kind_of(k: u64) -> Kind
    ensures { kind_named result ≡ get_or kinds k unknown }
{
    match k {
        base_syntax::KIND_NUMBER => Kind::Number,
        base_syntax::KIND_TRUTH => Kind::Truth,
        base_syntax::KIND_NAME => Kind::Name,
        base_syntax::KIND_FIELD => Kind::Field,
        base_syntax::KIND_RECORD => Kind::Record,
        base_syntax::KIND_PLUS => Kind::Two(BinOp::Plus),
        base_syntax::KIND_MINUS => Kind::Two(BinOp::Minus),
        base_syntax::KIND_TIMES => Kind::Two(BinOp::Times),
        base_syntax::KIND_EQUAL => Kind::Two(BinOp::Equal),
        base_syntax::KIND_LESS => Kind::Two(BinOp::Less),
        base_syntax::KIND_AND => Kind::Two(BinOp::And),
        base_syntax::KIND_OR => Kind::Two(BinOp::Or),
        base_syntax::KIND_NOT => Kind::Not,
        base_syntax::KIND_COMPREHENSION => Kind::Comp,
        base_syntax::KIND_TABLE => Kind::Table,
        base_syntax::KIND_GENERATOR => Kind::Gen,
        base_syntax::KIND_BINDING => Kind::Bind,
        base_syntax::KIND_CONDITION => Kind::Cond,
        base_syntax::KIND_CHOICE => Kind::Choice,
        base_syntax::KIND_OPEN => Kind::Open,
        _ => Kind::Unknown,
    }
}

fn number(a: u64) -> i64
    requires { a < 8589934592 }
    ensures { result ≡ constant_of a }
{
    a as i64 - OFFSET
}

// The node before a place.
pub fn prior(e: usize) -> usize
    ensures { result ≡ e - 1 }
{
    e.saturating_sub(1)
}

pub fn depth_at(s: &[u64], i: usize) -> usize
    ensures { result ≡ depth_at s.now i }
{
    front_words::depth(front_words::node_word(s, i)) as usize
}

// The name at node i whose binder's word is w.
fn named(s: &[u64], i: usize, w: u64) -> QueryNode
    ensures { NamedPost s.now i w result }
{
    if w == 0 {
        return QueryNode::Bad;
    }
    let x = (w - 1) as usize;
    if i <= x {
        return QueryNode::Bad;
    }
    let d = depth_at(s, x);
    if d == 0 {
        return QueryNode::Bad;
    }
    QueryNode::Name(x, d - 1)
}

// A node that has a child: there is one before it.
fn raised(i: usize, n: QueryNode) -> QueryNode
    ensures { RaisedPost i n result }
{
    if i == 0 {
        return QueryNode::Bad;
    }
    n
}

pub fn look(s: &[u64], i: usize) -> QueryNode
    ensures { LookPost s.now i result }
{
    if MOST_NODES <= i {
        return QueryNode::Bad;
    }
    let w = front_words::node_word(s, i);
    let a = front_words::arg(w);
    let c = prior(i);
    match kind_of(front_words::kind(w)) {
        Kind::Number => QueryNode::Number(number(a)),
        Kind::Truth => QueryNode::Truth(a == 1),
        Kind::Name => named(s, i, front_words::binder_word(s, a)),
        Kind::Field => raised(i, QueryNode::Field(a as usize, c)),
        Kind::Record => QueryNode::Record,
        Kind::Two(o) => raised(i, QueryNode::Two(o, prior(start_at(s, c)), c)),
        Kind::Not => raised(i, QueryNode::Not(c)),
        Kind::Comp => raised(i, QueryNode::Comp(Monoid::from_number(a), c)),
        Kind::Table => QueryNode::Table(a as usize),
        Kind::Gen => raised(i, QueryNode::Gen(c)),
        Kind::Bind => raised(i, QueryNode::Bind(c)),
        Kind::Cond => raised(i, QueryNode::Cond(c)),
        Kind::Choice => QueryNode::Operator(Fun::Choice),
        Kind::Open => QueryNode::Operator(Fun::Open(a as usize)),
        Kind::Unknown => QueryNode::Bad,
    }
}

// How many terms the record or operator of a word has.
pub fn term_count(w: u64) -> u64
    ensures { result ≡ count_of (get_or kinds (node_kind_of w) unknown) (arg_of w) }
{
    if front_words::kind(w) == KIND_OPEN {
        return 1;
    }
    front_words::arg(w)
}

// Term k of the record or operator at node i, by walking back from its last one.
pub fn child(s: &[u64], i: usize, k: usize) -> Option<usize>
    ensures { ChildPost s.now i k result }
{
    let n = term_count(front_words::node_word(s, i)) as usize;
    if i == 0 {
        return None;
    }
    if n <= k {
        return None;
    }
    let mut e = i;
    for _ in 0..n - 1 - k {
        e = start_at(s, prior(e));
    }
    Some(prior(e))
}

// What node x binds a name to.
pub fn bound_by(s: &[u64], x: usize) -> Binder
    ensures { BoundByPost s.now x result }
{
    match look(s, x) {
        QueryNode::Gen(c) => Binder::Gen(c),
        QueryNode::Bind(c) => Binder::Bind(c),
        _ => Binder::Other,
    }
}
