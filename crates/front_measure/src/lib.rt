// How much of the normal form each node writes: one loop over the nodes, each weighed by those before it.
#![tactic(auto)]

ghost use Rattle.std.specs.Prelude.{◌≡◌, true, ◌+◌, ◌-◌, min};
ghost use Rattle.spec_calculus.specs.Lists.{pick};
ghost use Rattle.base_syntax.specs.MonoidWord.{monoid_of};
ghost use Rattle.front_theory.specs.CappedOffsets.{limit};
ghost use Rattle.spec_normal_form.specs.Normal.{idempotent, gives_way};
ghost use Rattle.front_words.specs.NodeTree.{start_at};
ghost use Rattle.front_sizes.specs.SizeWords.{term_count, condition_count};
ghost use Rattle.front_nodes.specs.NodeTable.{depth_at, children_of, nodes_of};
ghost use Rattle.front_measure.specs.Measure.{beside, above, none, total};
ghost use Rattle.front_measure.specs.MeasurableNodes.{qualifies};
ghost use Rattle.front_measure.specs.KeptSizes.{MeasurePost};
ghost use Rattle.front_measure.specs.PartContracts.{joins, both_ways, condition_ways, splice_ways, no_ways, term_weight, scalar_weight, two_weight, table_weight, row_ways, qualifier_weight, kept_weight, form_weight, comp_at, way, FollowedPost, WeighPost, SmallWeight, storing};
ghost use Rattle.base_syntax.specs.Numbers.{bin_of};

use base_syntax::{BinOp, Monoid};
use front_nodes::QueryNode;
use front_resolve::{Form, LEVELS};
use front_sizes::{FormSize, TOO_MANY};

// What is written where "some" stays, and where it gives way.
#[derive(Clone, Copy)]
pub struct Ways {
    pub stays: FormSize,
    pub yields: FormSize,
}

// Of a term: as a term, as a condition, as a generator's term. Of a qualifier: what it writes, as a condition; what the
// qualifiers of its comprehension write up to it; and those before it.
#[derive(Clone, Copy)]
pub struct Weight {
    pub term: FormSize,
    pub condition: Ways,
    pub splice: Ways,
    pub before: Ways,
}

// Counted to TOO_MANY.
fn sum(a: u64, b: u64) -> u64
    ensures { result ≡ min (a + b) limit }
{
    a.saturating_add(b).min(TOO_MANY)
}

fn side(a: FormSize, b: FormSize) -> FormSize
    ensures { result ≡ beside a b }
{
    FormSize {
        size: sum(a.size, b.size),
        gens: sum(a.gens, b.gens),
    }
}

// One node above.
fn raise(a: FormSize) -> FormSize
    ensures { result ≡ above a }
{
    FormSize {
        size: sum(1, a.size),
        gens: sum(0, a.gens),
    }
}

fn both(a: Ways, b: Ways) -> Ways
    ensures { result ≡ both_ways a b }
{
    Ways {
        stays: side(a.stays, b.stays),
        yields: side(a.yields, b.yields),
    }
}

fn nothing() -> Ways
    ensures { result ≡ no_ways }
{
    let z = FormSize { size: 0, gens: 0 };
    Ways {
        stays: z,
        yields: z,
    }
}

fn conditions(s: &[u64], i: usize) -> Ways
    ensures { result ≡ condition_ways s.now i }
{
    Ways {
        stays: front_sizes::condition_count(s, i, false),
        yields: front_sizes::condition_count(s, i, true),
    }
}

// As `conditions`, for another reader: one function for both would take a closure, which is no plainer.
fn splices(s: &[u64], i: usize) -> Ways
    ensures { result ≡ splice_ways s.now i }
{
    Ways {
        stays: front_sizes::spliced_count(s, i, false),
        yields: front_sizes::spliced_count(s, i, true),
    }
}

// A term that is no collection, with its conditions.
fn value(t: FormSize, c: Ways) -> Weight
    ensures { result ≡ term_weight t c }
{
    let n = FormSize { size: 2, gens: 0 };
    Weight {
        term: t,
        condition: c,
        splice: Ways {
            stays: n,
            yields: n,
        },
        before: nothing(),
    }
}

// A term that is one condition, and no collection.
fn scalar(t: FormSize) -> Weight
    ensures { result ≡ scalar_weight t }
{
    let c = raise(t);
    value(
        t,
        Ways {
            stays: c,
            yields: c,
        },
    )
}

fn is_and(o: BinOp) -> bool
    ensures { result ≡ joins (bin_of o) }
{
    matches!(o, BinOp::And)
}

#[tactic(auto, unfolding(spec_calculus::specs::Lists::pick))]
fn two(s: &[u64], o: BinOp, a: usize, b: usize) -> Weight
    ensures { result ≡ two_weight s.now (bin_of o) a b }
{
    let t = raise(side(front_sizes::term_count(s, a), front_sizes::term_count(s, b)));
    if is_and(o) {
        return value(t, both(conditions(s, a), conditions(s, b)));
    }
    scalar(t)
}

// The terms of the record or operator at node i together.
fn terms(s: &[u64], i: usize) -> FormSize
    ensures { result ≡ total (term_count s.now) none (children_of s.now i) }
{
    let mut t = FormSize { size: 0, gens: 0 };
    // By hand: a range is no plainer here, for the first term that is missing ends the loop.
    let mut k: usize = 0;
    while let Some(c) = front_nodes::child(s, i, k) {
        t = side(t, front_sizes::term_count(s, c));
        k += 1;
    }
    t
}

fn is_qualifier(s: &[u64], i: usize) -> bool
    ensures { result ≡ qualifies (nodes_of s.now i) }
{
    matches!(
        front_nodes::look(s, i),
        QueryNode::Gen(_) | QueryNode::Bind(_) | QueryNode::Cond(_)
    )
}

// What is stored for the qualifier of depth d that ends at e: once it is measured, what the qualifiers of its comprehension
// write up to it. Nothing where none ends there.
#[tactic(auto, unfolding(crate::specs::MeasurableNodes::ends, spec_calculus::specs::Lists::pick))]
fn row(s: &[u64], d: usize, e: usize) -> Ways
    ensures { result ≡ row_ways s.now d e }
{
    if e == 0 {
        return nothing();
    }
    let c = e - 1;
    if front_nodes::depth_at(s, c) == d && is_qualifier(s, c) {
        splices(s, c)
    } else {
        nothing()
    }
}

#[tactic(auto, unfolding(spec_normal_form::specs::Normal::gives_way))]
fn gives_way(m: Monoid) -> bool
    ensures { result ≡ gives_way (monoid_of m) true }
{
    matches!(m, Monoid::Some)
}

// What is written where a comprehension of m is not spliced.
#[tactic(auto, unfolding(crate::specs::PartContracts::way))]
fn own(m: Monoid, a: Ways) -> FormSize
    ensures { result ≡ way a (idempotent (monoid_of m)) }
{
    if front_resolve::joined(false, m) {
        a.yields
    } else {
        a.stays
    }
}

// A comprehension of m as a condition, where "some" gives way: its qualifiers write a, its head h; else c.
#[tactic(auto, unfolding(spec_calculus::specs::Lists::pick))]
fn test(s: &[u64], m: Monoid, a: FormSize, h: usize, c: FormSize) -> FormSize
    ensures { result ≡ pick (gives_way (monoid_of m) true) (beside a (condition_count s.now h true)) c }
{
    if gives_way(m) {
        return side(a, front_sizes::condition_count(s, h, true));
    }
    c
}

// A comprehension of m with head h. "A 33rd level" is refused (23).
#[tactic(auto, unfolding(spec_calculus::specs::Lists::pick))]
fn comp(s: &[u64], i: usize, m: Monoid, h: usize) -> Weight
    ensures { result ≡ comp_at s.now i (monoid_of m) h }
{
    if LEVELS <= front_nodes::depth_at(s, i) {
        return scalar(FormSize { size: 1, gens: 0 });
    }
    let a = row(s, front_nodes::depth_at(s, h), front_words::start_at(s, h));
    let q = own(m, a);
    let t = raise(side(q, front_sizes::term_count(s, h)));
    let c = raise(t);
    let y = a.yields;
    Weight {
        term: t,
        condition: Ways {
            stays: c,
            yields: test(s, m, y, h, c),
        },
        splice: Ways {
            stays: q,
            yields: y,
        },
        before: nothing(),
    }
}

// A qualifier that writes w.
fn qualifier(s: &[u64], i: usize, w: Ways) -> Weight
    ensures { result ≡ qualifier_weight (row_ways s.now (depth_at s.now i) (start_at s.now i)) w }
{
    let b = row(s, front_nodes::depth_at(s, i), front_words::start_at(s, i));
    Weight {
        term: FormSize { size: 0, gens: 0 },
        condition: w,
        splice: both(b, w),
        before: b,
    }
}

fn table() -> Weight
    ensures { result ≡ table_weight }
{
    let c = FormSize { size: 5, gens: 1 };
    let g = FormSize { size: 2, gens: 1 };
    Weight {
        term: FormSize { size: 4, gens: 1 },
        condition: Ways {
            stays: c,
            yields: c,
        },
        splice: Ways {
            stays: g,
            yields: g,
        },
        before: nothing(),
    }
}

// What node j keeps, but for its offsets.
fn copy(s: &[u64], j: usize) -> Weight
    ensures { result ≡ kept_weight s.now j }
{
    Weight {
        term: front_sizes::term_count(s, j),
        condition: conditions(s, j),
        splice: splices(s, j),
        before: nothing(),
    }
}

// What a place has.
fn form(s: &[u64], j: usize, f: Form) -> Weight
    ensures { result ≡ form_weight s.now j f }
{
    match f {
        Form::Row(_) | Form::Bad => scalar(FormSize { size: 1, gens: 0 }),
        Form::Cell(_, _) => scalar(FormSize { size: 2, gens: 0 }),
        _ => copy(s, j),
    }
}

// A name or a field.
fn followed(s: &[u64], i: usize) -> Weight
    ensures { FollowedPost s.now i result }
{
    let mut env: [u16; LEVELS] = [0; LEVELS];
    let r = front_resolve::resolve(s, i, front_nodes::depth_at(s, i), &mut env);
    form(s, r.node, r.form)
}

// Node i, from the nodes before it.
fn weigh(s: &[u64], i: usize) -> Weight
    ensures { WeighPost s.now i result }
{
    match front_nodes::look(s, i) {
        QueryNode::Number(_) | QueryNode::Truth(_) | QueryNode::Bad => {
            scalar(FormSize { size: 1, gens: 0 })
        }
        QueryNode::Name(_, _) | QueryNode::Field(_, _) => followed(s, i),
        QueryNode::Record | QueryNode::Operator(_) => scalar(raise(terms(s, i))),
        QueryNode::Two(o, a, b) => two(s, o, a, b),
        QueryNode::Not(c) => scalar(raise(front_sizes::term_count(s, c))),
        QueryNode::Comp(m, h) => comp(s, i, m, h),
        QueryNode::Table(_) => table(),
        QueryNode::Gen(c) => qualifier(s, i, splices(s, c)),
        QueryNode::Bind(_) => qualifier(s, i, nothing()),
        QueryNode::Cond(c) => qualifier(s, i, conditions(s, c)),
    }
}

// The words of node i.
fn store(s: &mut [u64], i: usize, w: Weight)
    requires { SmallWeight w }
    ensures { s.new ≡ storing s.old i w }
{
    let offsets = FormSize {
        size: w.before.stays.gens,
        gens: w.before.yields.gens,
    };
    front_sizes::put_first(s, i, w.term, w.condition.stays, w.condition.yields);
    front_sizes::put_second(s, i, w.splice.stays, w.splice.yields, offsets);
}

// Every node below n, from the first on.
pub fn measure(s: &mut [u64], n: usize)
    ensures { MeasurePost s.old n s.new }
{
    for i in 0..n {
        let w = weigh(s, i);
        store(s, i, w);
    }
}

// The size that is stored for the last of n nodes: once `measure` has run, how many nodes the question has in its normal
// form, counted to TOO_MANY.
pub fn size(s: &[u64], n: usize) -> u64
    ensures { result ≡ (term_count s.now (n - 1)).size }
{
    front_sizes::term_count(s, front_nodes::prior(n)).size
}
