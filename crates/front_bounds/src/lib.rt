// Refusal 28: whether every number of the normal form has a bound of at most 2^62.
#![tactic(auto)]

ghost use Rattle.std.specs.Prelude.{◌≡◌, ◌&&◌, [], ◌∷◌, ◌+◌, ◌*◌, ◌≤◌};
ghost use Rattle.spec_normal_form.specs.Bound.{bin_bound, app_bound};
ghost use Rattle.base_syntax.specs.MonoidWord.{monoid_of};
ghost use Rattle.base_syntax.specs.Numbers.{bin_of, fun_of};
ghost use Rattle.base_scratch.specs.Map.{form_words};
ghost use Rattle.form_env.specs.Environment.{declared_in};
ghost use Rattle.front_bounds.specs.CutBounds.{cut, per_generator, per_generators, per_head, CheckedPost, UnboundedPost, FormSizePost, ClausesSizePost, RecordFitsPost, TermSizePost, OperatorSizePost, BoundFitsPost};

use base_signed::{NUMBER_LIMIT, magnitude};
use base_syntax::{BinOp, Fun, Monoid};
use form_env::declared;
use form_words::{Clause, FormNode, look, look_clause, next};

// What is over it is cut to this.
const OVER: u64 = NUMBER_LIMIT + 1;

// A form's bound, cut at 2^62 + 1, and whether every number in the form is within 2^62.
#[derive(Clone, Copy)]
pub struct Size {
    pub bound: u64,
    pub fits: bool,
}

// Sums and products stop at 2^62 + 1, so they never wrap and still tell what is over 2^62.
fn add(a: u64, b: u64) -> u64
    ensures { result ≡ cut (a + b) }
{
    a.saturating_add(b).min(OVER)
}

fn mul(a: u64, b: u64) -> u64
    ensures { result ≡ cut (a * b) }
{
    a.saturating_mul(b).min(OVER)
}

#[tactic(auto, unfolding(spec_normal_form::specs::Bound::bin_bound))]
fn binary_bound(o: BinOp, a: u64, b: u64) -> u64
    ensures { result ≡ cut (bin_bound (bin_of o) a b) }
{
    match o {
        BinOp::Plus | BinOp::Minus => add(a, b),
        BinOp::Times => mul(a, b),
        BinOp::Equal | BinOp::Less | BinOp::And | BinOp::Or => 0,
    }
}

// Of an operator's first three terms: "Its bound is the larger one." (document 02, E2) A truth has none.
#[tactic(auto, unfolding(spec_normal_form::specs::Bound::app_bound, spec_normal_form::specs::Bound::larger, spec_calculus::specs::Lists::pick))]
fn operator_bound(f: Fun, a: u64, b: u64, c: u64) -> u64
    ensures { result ≡ app_bound (fun_of f) (a ∷ b ∷ c ∷ []) }
{
    match f {
        Fun::Choice => b.max(c),
        Fun::Open(_) => 0,
    }
}

// A comprehension's bound with one generator more.
#[tactic(auto, unfolding(crate::specs::CutBounds::per_generator))]
fn per_generator(m: Monoid, a: u64) -> u64
    ensures { result ≡ per_generator (monoid_of m) a }
{
    match m {
        Monoid::Sum => mul(a, 1024),
        _ => a,
    }
}

// A comprehension's bound with no generator.
#[tactic(auto, unfolding(crate::specs::CutBounds::per_head))]
fn per_head(m: Monoid, a: u64) -> u64
    ensures { result ≡ per_head (monoid_of m) a }
{
    match m {
        Monoid::Sum | Monoid::Max | Monoid::Min => a,
        _ => 0,
    }
}

// A comprehension's bound with n generators more.
fn generators_bound(m: Monoid, n: usize, a: u64) -> u64
    ensures { result ≡ per_generators (monoid_of m) n a }
{
    let mut b = a;
    for _ in 0..n {
        b = per_generator(m, b);
    }
    b
}

// A number with this bound; `inside` says whether the numbers in it fit.
fn checked(bound: u64, inside: bool) -> Size
    ensures { CheckedPost bound inside result }
{
    Size {
        bound: bound,
        fits: bound <= NUMBER_LIMIT && inside,
    }
}

// What is no number has bound 0; `inside` says whether the numbers in it fit.
fn unbounded(inside: bool) -> Size
    ensures { UnboundedPost inside result }
{
    Size {
        bound: 0,
        fits: inside,
    }
}

// A cell has the bound that its column of the generator's table declares: "the bound rule .. use[s] it for 2^31" (document 02, E5).
#[cycle(clauses_size_form_size_operator_size_record_fits_term_size)]
pub fn form_size(s: &[u64], data: &[u8], i: usize) -> Size
    ensures { FormSizePost (declared_in «data».now s.now) s.now i result }
{
    match look(s, i) {
        FormNode::Number(z) => checked(magnitude(z), true),
        FormNode::Cell(c, g) => checked(declared(s, data, g, c), true),
        FormNode::Record(e) => unbounded(record_fits(s, data, i + 1, e)),
        FormNode::Binary(o, j) => {
            let a = form_size(s, data, i + 1);
            let b = form_size(s, data, j);
            checked(binary_bound(o, a.bound, b.bound), a.fits & b.fits)
        }
        FormNode::Negation => {
            let a = form_size(s, data, i + 1);
            unbounded(a.fits)
        }
        FormNode::Comprehension(m) => {
            let a = clauses_size(s, data, i + 1, m);
            checked(a.bound, a.fits)
        }
        FormNode::Operator(f, e) => operator_size(s, data, i + 1, e, f),
        FormNode::Truth(_)
        | FormNode::Row(_)
        | FormNode::Generator(_, _)
        | FormNode::Condition(_)
        | FormNode::Nothing => unbounded(true),
    }
}

// The clauses from i on and the head behind them, in a comprehension of m. A loop: a call for each would need stack for each.
#[cycle(clauses_size_form_size_operator_size_record_fits_term_size)]
fn clauses_size(s: &[u64], data: &[u8], i: usize, m: Monoid) -> Size
    ensures { ClausesSizePost (declared_in «data».now s.now) s.now i m result }
{
    let mut j = i;
    let mut n: usize = 0;
    let mut fits = true;
    loop {
        match look_clause(s, j) {
            Clause::Generator(g, k) => {
                n += 1;
                j += 1;
            }
            Clause::Condition(e) => {
                let t = form_size(s, data, j + 1);
                fits &= t.fits;
                j = e;
            }
            Clause::Head => {
                let a = form_size(s, data, j);
                return Size {
                    bound: generators_bound(m, n, per_head(m, a.bound)),
                    fits: fits & a.fits,
                };
            }
        }
    }
}

// The operator f over the terms from i to e: each is looked at once, the bounds of the first three are kept.
#[cycle(clauses_size_form_size_operator_size_record_fits_term_size)]
fn operator_size(s: &[u64], data: &[u8], i: usize, e: usize, f: Fun) -> Size
    requires { e ≤ form_words }
    ensures { OperatorSizePost (declared_in «data».now s.now) s.now i e f result }
{
    let a = term_size(s, data, i, e);
    let j = next(s, i);
    let b = term_size(s, data, j, e);
    let k = next(s, j);
    let c = term_size(s, data, k, e);
    let rest = record_fits(s, data, next(s, k), e);
    checked(
        operator_bound(f, a.bound, b.bound, c.bound),
        a.fits & b.fits & c.fits & rest,
    )
}

// The term at i, where one stands before e.
#[cycle(clauses_size_form_size_operator_size_record_fits_term_size)]
fn term_size(s: &[u64], data: &[u8], i: usize, e: usize) -> Size
    ensures { TermSizePost (declared_in «data».now s.now) s.now i e result }
{
    if e <= i {
        return unbounded(true);
    }
    form_size(s, data, i)
}

// The fields of a record, from i to e. A loop, as in `clauses_size`.
#[cycle(clauses_size_form_size_operator_size_record_fits_term_size)]
fn record_fits(s: &[u64], data: &[u8], i: usize, e: usize) -> bool
    requires { e ≤ form_words }
    ensures { RecordFitsPost (declared_in «data».now s.now) s.now i e result }
{
    let mut j = i;
    let mut fits = true;
    while j < e {
        let a = form_size(s, data, j);
        fits &= a.fits;
        j = next(s, j);
    }
    fits
}

pub fn bound_fits(s: &[u64], data: &[u8]) -> bool
    ensures { BoundFitsPost (declared_in «data».now s.now) s.now result }
{
    form_size(s, data, 0).fits
}
