// The head of a node: names and fields are followed, in an environment that is lent.
#![tactic(auto)]

ghost use Rattle.std.specs.Prelude.{◌≡◌, ◌||◌, ◌+◌, ◌*◌, ◌/◌, ◌^◌, ◌≤◌, ◌<◌, length, get_or, set};
ghost use Rattle.spec_normal_form.specs.Normal.{idempotent};
ghost use Rattle.front_theory.specs.NodeForms.{levels};
ghost use Rattle.front_theory.specs.CappedOffsets.{limit};
ghost use Rattle.base_syntax.specs.MonoidWord.{monoid_of};
ghost use Rattle.front_resolve.specs.Resolved.{under, odd, bit, offsets, Fine, FormAt, Heads, FollowPost, SplicePost, Stepped, ProjectPost, form_for};

use base_syntax::{BinOp, Fun, Monoid};
use front_nodes::{Binder, QueryNode};
use front_sizes::TOO_MANY;

// A question has at most so many levels.
pub const LEVELS: usize = 32;

// What is left of a node: no name, no field. A row is its generator's number, a cell a field of a row.
#[derive(Clone, Copy)]
pub enum Form {
    Number(i64),
    Truth(bool),
    Row(u64),
    Cell(usize, u64),
    Record,
    Two(BinOp, usize, usize),
    Not(usize),
    Comp(Monoid, usize),
    Table(usize),
    Operator(Fun),
    Bad,
}

// A form at a node, with so many comprehensions around it. The environment that goes with it has for each of these twice
// the first number of the copy in which we stand, plus 1 where "some" gives way in it. It is lent, and of 16 bits an entry,
// so that a level of a walk takes little stack.
#[derive(Clone, Copy)]
pub struct Head {
    pub form: Form,
    pub node: usize,
    pub depth: usize,
}

// A step of the walk: on to a node at a depth, or the head.
#[derive(Clone, Copy)]
pub enum Next {
    On(usize, usize),
    At(Head),
}

pub fn entry(env: &[u16; LEVELS], d: usize) -> u64
    requires { length env.now ≡ levels }
    ensures { result ≡ get_or env.now d 0 }
{
    if d < LEVELS { env[d] as u64 } else { 0 }
}

// The copy whose first number is n.
pub fn enter(env: &mut [u16; LEVELS], d: usize, n: u64, v: bool)
    requires { (d < levels) × (n ≤ limit) }
    ensures { env.new ≡ set env.old d (2 * n + bit v) }
{
    env[d] = (2 * n + v as u64) as u16;
}

// Whether "some" gives way in a copy of a comprehension of m that is spliced where v says so.
#[tactic(auto, unfolding(spec_normal_form::specs::Normal::idempotent))]
pub fn joined(v: bool, m: Monoid) -> bool
    ensures { result ≡ v || idempotent (monoid_of m) }
{
    v || !matches!(m, Monoid::List | Monoid::Bag | Monoid::Sum)
}

// The first number of what generator x writes, in the copy w; 513 where it is larger.
pub fn first_number(s: &[u64], x: usize, w: u64) -> u64
    ensures { (result ≡ offsets s.now x (odd w) (w / 2)) × (result ≤ limit) }
{
    (w / 2 + front_sizes::offset(s, x, w % 2 == 1)).min(TOO_MANY)
}

#[tactic(auto, unfolding(spec_calculus::specs::Lists::pick))]
fn form_of(n: QueryNode, depth: usize) -> Form
    ensures { result ≡ form_for depth n }
{
    match n {
        QueryNode::Number(z) => Form::Number(z),
        QueryNode::Truth(b) => Form::Truth(b),
        QueryNode::Record => Form::Record,
        QueryNode::Two(o, a, b) => Form::Two(o, a, b),
        QueryNode::Not(c) => Form::Not(c),
        QueryNode::Comp(m, h) if depth < LEVELS => Form::Comp(m, h),
        QueryNode::Table(k) => Form::Table(k),
        QueryNode::Operator(f) => Form::Operator(f),
        _ => Form::Bad,
    }
}

// What node i comes to. The environment becomes that of its head.
#[cycle(follow_resolve_step)]
pub fn resolve(s: &[u64], i: usize, depth: usize, env: &mut [u16; LEVELS]) -> Head
    requires { length env.old ≡ levels }
    ensures { Heads s.now i depth env.old (under env.new result) }
{
    let mut j = i;
    let mut d = depth;
    loop {
        match step(s, j, d, env) {
            Next::On(k, e) => {
                j = k;
                d = e;
            }
            Next::At(h) => {
                return h;
            }
        }
    }
}

// One step from node i: the walk calls itself only for what a field or a generator is of.
#[cycle(follow_resolve_step)]
fn step(s: &[u64], i: usize, depth: usize, env: &mut [u16; LEVELS]) -> Next
    requires { length env.old ≡ levels }
    ensures { Stepped s.now i env.new (Heads s.now i depth env.old) result }
{
    let n = front_nodes::look(s, i);
    match n {
        QueryNode::Name(x, d) => {
            if depth <= d {
                return Next::At(Head {
                    form: Form::Bad,
                    node: i,
                    depth: depth,
                });
            }
            follow(s, x, d, env)
        }
        QueryNode::Field(k, c) => {
            let h = resolve(s, c, depth, env);
            project(s, k, h)
        }
        _ => Next::At(Head {
            form: form_of(n, depth),
            node: i,
            depth: depth,
        }),
    }
}

// The name that node x binds, in a comprehension at depth d.
#[cycle(follow_resolve_step)]
fn follow(s: &[u64], x: usize, d: usize, env: &mut [u16; LEVELS]) -> Next
    requires { (d < 2 ^ 63) × (length env.old ≡ levels) }
    ensures { Stepped s.now x env.new (FollowPost s.now x d env.old) result }
{
    match front_nodes::bound_by(s, x) {
        Binder::Bind(c) => Next::On(c, d + 1),
        Binder::Gen(c) => {
            let w = entry(env, d);
            let h = resolve(s, c, d + 1, env);
            splice(s, h, w % 2 == 1, first_number(s, x, w), env)
        }
        Binder::Other => Next::At(Head {
            form: Form::Bad,
            node: x,
            depth: d + 1,
        }),
    }
}

// What a generator over h ranges through, from number n on.
fn splice(s: &[u64], h: Head, v: bool, n: u64, env: &mut [u16; LEVELS]) -> Next
    requires { Fine s.now (under env.old h) × (n ≤ limit) }
    ensures { Stepped s.now h.node env.new (SplicePost s.now (under env.old h) v n) result }
{
    match h.form {
        Form::Comp(m, k) => {
            enter(env, h.depth, n, joined(v, m));
            Next::On(k, h.depth + 1)
        }
        Form::Table(k) => Next::At(Head {
            form: Form::Row(n),
            ..h
        }),
        _ => Next::At(Head {
            form: Form::Bad,
            ..h
        }),
    }
}

// Field k of h, in whatever environment h stands.
fn project(s: &[u64], k: usize, h: Head) -> Next
    requires { FormAt s.now h.node h.depth h.form × (k < 2 ^ 33) }
    ensures { ProjectPost s.now k h result }
{
    match h.form {
        Form::Row(g) => Next::At(Head {
            form: Form::Cell(k, g),
            ..h
        }),
        Form::Record => match front_nodes::child(s, h.node, k) {
            Some(c) => Next::On(c, h.depth),
            None => Next::At(Head {
                form: Form::Bad,
                ..h
            }),
        },
        _ => Next::At(Head {
            form: Form::Bad,
            ..h
        }),
    }
}
