// "25: a type, field or table that does not fit. 26: a generator its monoid may not have."
#![tactic(auto)]

ghost use Rattle.std.specs.Prelude.{◌≡◌, true, false, ◌≤◌, ◌<◌};
ghost use Rattle.spec_calculus.specs.Lists.{pick};
ghost use Rattle.spec_checks.specs.Types.{may_stand};
ghost use Rattle.front_nodes.specs.NodeTable.{children_of, nodes_of};
ghost use Rattle.base_syntax.specs.MonoidWord.{monoid_of};
ghost use Rattle.base_syntax.specs.Numbers.{bin_of, fun_of};
ghost use Rattle.base_tables.specs.Description.{collection_number};
ghost use Rattle.front_typing.specs.declared.TypeHead.TheVariants.{Wrong};
ghost use Rattle.front_typing.specs.Shapes.{fits, is_number, is_truth, collects, collection_of, head_of, cell_shape, number_shape, truth_shape, bin_shape, part_shape, choice_shape, choice_of, open_shape, open_of, app_shape, comp_shape};
ghost use Rattle.front_typing.specs.ShapeWords.{numbered as numberedWord, shape_word, shape_in, shapes_in, collection_by, rules, MakerPost, table_at, part_at, field_at, element_at, parts_fit, may_range, qual_fits_at, quals_fit_at, record_at, comp_at, shape_of, shaped_up_to, Judges};

use base_scratch::{SHAPES, load_at, store};
use base_syntax::{BinOp, Fun, Monoid};
use front_nodes::QueryNode;

// What a node's type is at its head. A type can be exponentially large, so none is ever built: a record and a collection
// are told by the node that makes them, a row and a table by the table's number.
#[derive(Clone, Copy)]
pub enum TypeHead {
    Wrong,
    Number,
    Truth,
    Record(usize),
    Row(usize),
    Table(usize),
    Coll(usize),
}

// What a node makes that a shape can refer to.
#[derive(Clone, Copy)]
pub enum NodeMakes {
    Record,
    Comp(Monoid, usize),
    Other,
}

// ---- shapes

fn is_typed(a: TypeHead) -> bool
    ensures { result ≡ fits a }
{
    !matches!(a, TypeHead::Wrong)
}

fn is_number(a: TypeHead) -> bool
    ensures { result ≡ is_number a }
{
    matches!(a, TypeHead::Number)
}

fn is_truth(a: TypeHead) -> bool
    ensures { result ≡ is_truth a }
{
    matches!(a, TypeHead::Truth)
}

// ---- their words

#[tactic(auto, unfolding(spec_calculus::specs::Lists::pick))]
fn numbered(c: u64, j: usize) -> u64
    requires { c < 8 }
    ensures { result ≡ numberedWord c j }
{
    if j < 1152921504606846976 {
        c + 8 * j as u64
    } else {
        0
    }
}

#[tactic(auto, unfolding(crate::specs::ShapeWords::shape_word))]
fn packed(a: TypeHead) -> u64
    ensures { result ≡ shape_word a }
{
    match a {
        TypeHead::Wrong => 0,
        TypeHead::Number => 1,
        TypeHead::Truth => 2,
        TypeHead::Record(j) => numbered(3, j),
        TypeHead::Row(k) => numbered(4, k),
        TypeHead::Table(k) => numbered(5, k),
        TypeHead::Coll(j) => numbered(6, j),
    }
}

#[tactic(auto, unfolding(crate::specs::ShapeWords::shape_in))]
fn shape_in(w: u64) -> TypeHead
    ensures { result ≡ shape_in w }
{
    let j = (w / 8) as usize;
    match w % 8 {
        1 => TypeHead::Number,
        2 => TypeHead::Truth,
        3 => TypeHead::Record(j),
        4 => TypeHead::Row(j),
        5 => TypeHead::Table(j),
        6 => TypeHead::Coll(j),
        _ => TypeHead::Wrong,
    }
}

// The shape of node j.
fn shape_at(s: &[u64], j: usize) -> TypeHead
    ensures { result ≡ shapes_in s.now j }
{
    shape_in(load_at(s, SHAPES, j))
}

// ---- tables

// "25: .. table that does not fit"
fn table(s: &[u64], k: usize) -> TypeHead
    ensures { result ≡ table_at s.now k }
{
    given(base_tables::present(s, k), TypeHead::Table(k))
}

// ---- what a shape refers to

// What node j makes.
fn maker(s: &[u64], j: usize) -> NodeMakes
    ensures { MakerPost s.now j result }
{
    match front_nodes::look(s, j) {
        QueryNode::Record => NodeMakes::Record,
        QueryNode::Comp(m, h) => NodeMakes::Comp(m, h),
        _ => NodeMakes::Other,
    }
}

// Term k of the record or operator at node i.
#[tactic(auto, using(crate::proofs::Exits::nth_at, crate::proofs::Exits::nth_none))]
fn operand(s: &[u64], i: usize, k: usize) -> TypeHead
    ensures { result ≡ part_shape (shapes_in s.now) k (children_of s.now i) }
{
    match front_nodes::child(s, i, k) {
        Some(c) => shape_at(s, c),
        None => TypeHead::Wrong,
    }
}

// Part k of the record that node j makes.
#[tactic(auto, unfolding(crate::specs::Shapes::part_shape))]
fn part(s: &[u64], j: usize, k: usize) -> TypeHead
    ensures { result ≡ part_at s.now j k }
{
    match maker(s, j) {
        NodeMakes::Record => operand(s, j, k),
        _ => TypeHead::Wrong,
    }
}

// The head of the comprehension at node j.
fn head(s: &[u64], j: usize) -> usize
    ensures { result ≡ head_of (nodes_of s.now j) }
{
    match maker(s, j) {
        NodeMakes::Comp(_, h) => h,
        _ => 0,
    }
}

// The number of the collection that m makes; a list's where it makes none.
#[tactic(auto, unfolding(base_tables::specs::Description::collection_number))]
fn collection_of(m: Monoid) -> u64
    ensures { result ≡ collection_number (collects (monoid_of m)) }
{
    let k = m.number();
    if k < 4 { k } else { 1 }
}

// The number of the collection that the comprehension at node j makes; a list's where it makes none.
#[tactic(auto, unfolding(base_tables::specs::Description::collection_number))]
fn gathered(s: &[u64], j: usize) -> u64
    ensures { result ≡ collection_number (collection_of (nodes_of s.now j)) }
{
    match maker(s, j) {
        NodeMakes::Comp(m, _) => collection_of(m),
        _ => 1,
    }
}

// ---- the rules

// "field takes a record"
#[tactic(auto, unfolding(crate::specs::Shapes::field_shape))]
fn field(s: &[u64], k: usize, a: TypeHead) -> TypeHead
    ensures { result ≡ field_at s.now k a }
{
    match a {
        TypeHead::Record(j) => part(s, j, k),
        TypeHead::Row(t) => cell(k, base_tables::columns(base_tables::table(s, t))),
        _ => TypeHead::Wrong,
    }
}

// Column k of a row of so many.
fn cell(k: usize, columns: usize) -> TypeHead
    ensures { result ≡ cell_shape k columns }
{
    given(k < columns, TypeHead::Number)
}

// "a generator takes a collection": the shape of its elements.
#[tactic(auto, unfolding(crate::specs::Shapes::element_shape))]
fn element(s: &[u64], a: TypeHead) -> TypeHead
    ensures { result ≡ element_at s.now a }
{
    match a {
        TypeHead::Table(t) => TypeHead::Row(t),
        TypeHead::Coll(j) => shape_at(s, head(s, j)),
        _ => TypeHead::Wrong,
    }
}

// "A generator over a bag may not stand in a list; one over a set only in set, max, some or all." Min as max.
#[tactic(auto, using(crate::proofs::Exits::list_by), unfolding(spec_checks::specs::Types::may_stand))]
fn may_stand(c: u64, m: Monoid) -> bool
    ensures { result ≡ may_stand (collection_by c) (monoid_of m) }
{
    match c {
        2 => !matches!(m, Monoid::List),
        3 => !matches!(m, Monoid::List | Monoid::Bag | Monoid::Sum),
        _ => true,
    }
}

// The rule is asked only where it is switched on.
fn allowed(rule: bool, c: u64, m: Monoid) -> bool
    ensures { result ≡ rules rule (collection_by c) (monoid_of m) }
{
    !rule || may_stand(c, m)
}

// Whether a generator over this may stand in a comprehension of m.
#[tactic(auto, using(base_tables::proofs::TableWords::by_number), unfolding(crate::specs::Shapes::stands))]
fn may_range(s: &[u64], rule: bool, m: Monoid, a: TypeHead) -> bool
    ensures { result ≡ may_range rule s.now (monoid_of m) a }
{
    match a {
        TypeHead::Table(t) => allowed(rule, base_tables::collection(base_tables::table(s, t)), m),
        TypeHead::Coll(j) => allowed(rule, gathered(s, j), m),
        _ => false,
    }
}

// The shape r where the test holds, else none.
#[tactic(auto, unfolding(spec_calculus::specs::Lists::pick))]
fn given(test: bool, r: TypeHead) -> TypeHead
    ensures { result ≡ pick test r Wrong }
{
    if test { r } else { TypeHead::Wrong }
}

fn number(a: TypeHead) -> TypeHead
    ensures { result ≡ number_shape a }
{
    given(is_number(a), TypeHead::Number)
}

#[tactic(auto, unfolding(crate::specs::Shapes::truth_shape))]
fn truth(a: TypeHead) -> TypeHead
    ensures { result ≡ truth_shape a }
{
    given(is_truth(a), TypeHead::Truth)
}

// "Arithmetic, equal and less take numbers; and, or, not and conditions take truths"
#[tactic(auto, unfolding(crate::specs::Shapes::bin_shape, crate::specs::Shapes::two_numbers, crate::specs::Shapes::two_truths, spec_calculus::specs::Lists::pick))]
fn binary(o: BinOp, a: TypeHead, b: TypeHead) -> TypeHead
    ensures { result ≡ bin_shape (bin_of o) a b }
{
    match o {
        BinOp::Plus | BinOp::Minus | BinOp::Times => {
            given(is_number(a) && is_number(b), TypeHead::Number)
        }
        BinOp::Equal | BinOp::Less => given(is_number(a) && is_number(b), TypeHead::Truth),
        BinOp::And | BinOp::Or => given(is_truth(a) && is_truth(b), TypeHead::Truth),
    }
}

// "a truth, then two numbers or two truths" (document 02, E2)
#[tactic(auto, unfolding(crate::specs::Shapes::choice_shape, crate::specs::Shapes::alike_shape, crate::specs::Shapes::truth_shape, spec_calculus::specs::Lists::pick))]
fn choice(a: TypeHead, b: TypeHead, c: TypeHead) -> TypeHead
    ensures { result ≡ choice_shape a b c }
{
    if is_truth(a) {
        if is_number(b) {
            return number(c);
        }
        if is_truth(b) {
            return truth(c);
        }
    }
    TypeHead::Wrong
}

// The choice at node i, of no more than three terms.
fn choice_at(s: &[u64], i: usize) -> TypeHead
    ensures { result ≡ choice_of (shapes_in s.now) (children_of s.now i) }
{
    match front_nodes::child(s, i, 3) {
        Some(_) => TypeHead::Wrong,
        None => choice(operand(s, i, 0), operand(s, i, 1), operand(s, i, 2)),
    }
}

// "one number term" (document 02, E4)
fn opening(a: TypeHead) -> TypeHead
    ensures { result ≡ open_shape a }
{
    given(is_number(a), TypeHead::Truth)
}

// The minute of node i, of no more than one term.
fn open_at(s: &[u64], i: usize) -> TypeHead
    ensures { result ≡ open_of (shapes_in s.now) (children_of s.now i) }
{
    match front_nodes::child(s, i, 1) {
        Some(_) => TypeHead::Wrong,
        None => opening(operand(s, i, 0)),
    }
}

#[tactic(auto, unfolding(crate::specs::Shapes::app_shape))]
fn operator(s: &[u64], i: usize, f: Fun) -> TypeHead
    ensures { result ≡ app_shape (fun_of f) (shapes_in s.now) (children_of s.now i) }
{
    match f {
        Fun::Choice => choice_at(s, i),
        Fun::Open(n) => open_at(s, i),
    }
}

// ---- records and comprehensions

// Whether every part of the record at node i has a type.
fn all_typed(s: &[u64], i: usize) -> bool
    ensures { result ≡ parts_fit s.now i }
{
    if i == 0 {
        return true;
    }
    let mut e = i;
    for _ in 0..front_nodes::term_count(front_words::node_word(s, i)) {
        let c = front_nodes::prior(e);
        if !is_typed(shape_at(s, c)) {
            return false;
        }
        e = front_words::start_at(s, c);
    }
    true
}

// Whether the qualifier at node c fits into a comprehension of m.
fn qual_fits(s: &[u64], c: usize, m: Monoid, rule: bool) -> bool
    ensures { result ≡ qual_fits_at rule s.now (monoid_of m) c }
{
    match front_nodes::look(s, c) {
        QueryNode::Gen(a) => may_range(s, rule, m, shape_at(s, a)),
        QueryNode::Bind(a) => is_typed(shape_at(s, a)),
        QueryNode::Cond(a) => is_truth(shape_at(s, a)),
        _ => false,
    }
}

// Whether all qualifiers of the comprehension at node i do.
fn quals_fit(s: &[u64], i: usize, m: Monoid, rule: bool) -> bool
    ensures { result ≡ quals_fit_at rule s.now (monoid_of m) i }
{
    let first = front_words::start_at(s, i);
    let mut e = front_words::start_at(s, front_nodes::prior(i));
    while first < e {
        let c = e - 1;
        if !qual_fits(s, c, m, rule) {
            return false;
        }
        e = front_words::start_at(s, c);
    }
    true
}

// "Sum and max have number heads, some and all truth heads, the collections any head." Min as max.
#[tactic(auto, unfolding(crate::specs::Shapes::comp_shape, crate::specs::Shapes::truth_shape))]
fn comprehends(i: usize, m: Monoid, a: TypeHead) -> TypeHead
    ensures { result ≡ comp_shape i (monoid_of m) a }
{
    match m {
        Monoid::List | Monoid::Bag | Monoid::Set => given(is_typed(a), TypeHead::Coll(i)),
        Monoid::Sum | Monoid::Max | Monoid::Min => number(a),
        Monoid::Some | Monoid::All => truth(a),
    }
}

#[tactic(auto, unfolding(spec_calculus::specs::Lists::pick))]
fn comprehension(s: &[u64], i: usize, m: Monoid, h: usize, rule: bool) -> TypeHead
    ensures { result ≡ comp_at rule s.now i (monoid_of m) h }
{
    if quals_fit(s, i, m, rule) {
        comprehends(i, m, shape_at(s, h))
    } else {
        TypeHead::Wrong
    }
}

fn recorded(s: &[u64], i: usize) -> TypeHead
    ensures { result ≡ record_at s.now i }
{
    given(all_typed(s, i), TypeHead::Record(i))
}

// ---- the nodes in turn

// The shape of node i, from those of the nodes before it.
fn shape_of(s: &[u64], i: usize, rule: bool) -> TypeHead
    ensures { result ≡ shape_of rule s.now i }
{
    match front_nodes::look(s, i) {
        QueryNode::Number(_) => TypeHead::Number,
        QueryNode::Truth(_) => TypeHead::Truth,
        QueryNode::Name(x, _) => shape_at(s, x),
        QueryNode::Field(k, c) => field(s, k, shape_at(s, c)),
        QueryNode::Record => recorded(s, i),
        QueryNode::Two(o, a, b) => binary(o, shape_at(s, a), shape_at(s, b)),
        QueryNode::Not(c) => truth(shape_at(s, c)),
        QueryNode::Comp(m, h) => comprehension(s, i, m, h, rule),
        QueryNode::Table(k) => table(s, k),
        QueryNode::Gen(c) => element(s, shape_at(s, c)),
        QueryNode::Bind(c) => shape_at(s, c),
        QueryNode::Cond(c) => truth(shape_at(s, c)),
        QueryNode::Operator(f) => operator(s, i, f),
        QueryNode::Bad => TypeHead::Wrong,
    }
}

// The first n nodes get their shapes.
fn shapes(s: &mut [u64], n: usize, rule: bool)
    requires { n ≤ 256 }
    ensures { s.new ≡ shaped_up_to rule s.old n }
{
    for i in 0..n {
        let w = packed(shape_of(s, i, rule));
        store(s, SHAPES + i, w);
    }
}

// Whether the question of n nodes has a type, the rule on generators switched on or off.
fn judged(s: &mut [u64], n: usize, rule: bool) -> bool
    requires { n ≤ 256 }
    ensures { Judges rule s.old n s.new result }
{
    shapes(s, n, rule);
    is_typed(shape_at(s, front_nodes::prior(n)))
}

// 25: whether the question of n nodes has a type.
pub fn types_fit(s: &mut [u64], n: usize) -> bool
    requires { n ≤ 256 }
    ensures { Judges false s.old n s.new result }
{
    judged(s, n, false)
}

// 26: whether it has one with the rule on generators.
pub fn generators_fit(s: &mut [u64], n: usize) -> bool
    requires { n ≤ 256 }
    ensures { Judges true s.old n s.new result }
{
    judged(s, n, true)
}
