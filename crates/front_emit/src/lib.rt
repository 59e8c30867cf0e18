// The normal form of a question, written into scratch from its nodes. A node's word is written when the words below it are.
#![tactic(auto)]

ghost use Rattle.std.specs.Prelude.{◌≡◌, true, suc, ◌^◌, ◌<◌, ◌≤◌, length};
ghost use Rattle.spec_calculus.specs.Lists.{pick};
ghost use Rattle.spec_calculus.specs.Syntax.{of};
ghost use Rattle.front_theory.specs.NodeForms.{levels};
ghost use Rattle.front_theory.specs.CappedOffsets.{limit};
ghost use Rattle.base_syntax.specs.MonoidWord.{monoid_of};
ghost use Rattle.base_syntax.specs.declared.Monoid.TheVariants as Monoid;
ghost use Rattle.base_scratch.specs.Map.{form_words};
ghost use Rattle.front_nodes.specs.NodeTable.{chain, nodes_of, qualifiers_of};
ghost use Rattle.base_syntax.specs.declared.BinOp.TheVariants as BinOp;
ghost use Rattle.front_resolve.specs.Resolved.{under, env_of};
ghost use Rattle.front_resolve.specs.declared.Form.TheVariants.{Two, Not, Comp};
ghost use Rattle.front_emit.specs.ConditionShape.{IsComp, SplitOfPost};
ghost use Rattle.front_emit.specs.WriterStart.{collections, sem_s, place_s, table_s, simple_s, fields_s, flag_in, copy_env, Copies, FormRoom, EmitPre, ClausePre, QualifierPre, QualifiersPre, TermOf, Headed, Termed, FieldsPre, SourcePre, SinglePre, SimplePre, CopyOf, HeadingOfPost};
ghost use Rattle.front_emit.specs.WriterResult.{behind, LeafPost, ClosePost, GeneratorPost, Emitted, FieldsPost, SourcePost, ClausePost, QualifierPost, EmittedQ, SinglePost, NeverPost};
ghost use Rattle.front_emit.specs.WholeForm.{Writable, WriteFormPost};
ghost use Rattle.base_syntax.specs.Numbers.{bin_of, op_arg, monoid_arg};

use base_syntax::{BinOp, Monoid};
use front_nodes::QueryNode;
use front_resolve::{Form, Head, LEVELS};

// The next place among the words of the normal form, and the next generator number.
#[derive(Clone, Copy)]
pub struct WriterState {
    pub place: usize,
    pub next: u64,
}

// How a condition is written: as two, as the qualifiers of a "some" and its head, or as one.
#[derive(Clone, Copy)]
pub enum Split {
    And(usize, usize),
    Some(usize),
    One,
}

// The number of table k's collection, a list where there is no such table.
fn collection_number(s: &[u64], k: usize) -> u64
    ensures { (result ≡ monoid_arg (of (collections s.now k))) × (result < 8) }
{
    match base_tables::collection(base_tables::table(s, k)) {
        2 => 2,
        3 => 3,
        _ => 1,
    }
}

#[tactic(auto, unfolding(spec_calculus::specs::Lists::pick))]
fn truth_number(b: bool) -> u64
    ensures { (result ≡ pick b 1 0) × (result < 2) }
{
    b as u64
}

// Behind a word.
fn below(st: WriterState) -> WriterState
    requires { st.place < form_words }
    ensures { result ≡ behind st }
{
    WriterState {
        place: st.place + 1,
        ..st
    }
}

// A word with nothing below it.
fn leaf(s: &mut [u64], k: u64, a: u64, st: WriterState) -> WriterState
    requires { (k < 16) × (a < 2 ^ 50) × (st.place < form_words) }
    ensures { LeafPost k a s.old st s.new result }
{
    let p = st.place;
    form_words::put_word(s, p, k, 0, a);
    below(st)
}

// The word at p, below which words were written up to e.
fn close(s: &mut [u64], p: usize, e: usize, k: u64, a: u64)
    requires { (k < 16) × (a < 2 ^ 50) × (p < e) × (e ≤ form_words) }
    ensures { ClosePost k a p e s.old s.new }
{
    let n = e - (p + 1);
    form_words::put_word(s, p, k, n as u64, a);
}

// A generator over table k gets the next number.
fn generator(s: &mut [u64], k: usize, st: WriterState) -> WriterState
    requires { FormRoom st 1 × (k < 2 ^ 33) }
    ensures { GeneratorPost k s.old st s.new result }
{
    let p = st.place;
    form_words::put_word(
        s,
        p,
        form_words::GENERATOR,
        0,
        form_words::PAIR * st.next + k as u64,
    );
    WriterState {
        place: st.place + 1,
        next: st.next + 1,
    }
}

// A generator over what is no collection is a condition that is never met.
fn never(s: &mut [u64], st: WriterState) -> WriterState
    requires { FormRoom st 2 }
    ensures { NeverPost s.old st s.new result }
{
    let p = st.place;
    let r = leaf(s, form_words::TRUTH, 0, below(st));
    close(s, p, r.place, form_words::CONDITION, 0);
    r
}

// A table that is no generator's: a comprehension over its rows.
fn table(s: &mut [u64], k: usize, st: WriterState) -> WriterState
    requires { FormRoom st 3 × (k < 2 ^ 33) }
    ensures { Emitted (table_s s.old k) s.old st s.new result }
{
    let c = collection_number(s, k);
    let p = st.place;
    let g = st.next;
    let q = generator(s, k, below(st));
    let r = leaf(s, form_words::ROW, g, q);
    close(s, p, r.place, form_words::COMPREHENSION, c);
    r
}

// A form that has no nodes below it.
fn simple(s: &mut [u64], f: Form, i: usize, st: WriterState) -> WriterState
    requires { SimplePre s.old f i st }
    ensures { Emitted (simple_s s.old f) s.old st s.new result }
{
    match f {
        Form::Number(z) => leaf(
            s,
            form_words::NUMBER,
            front_words::arg(front_words::node_word(s, i)),
            st,
        ),
        Form::Truth(b) => leaf(s, form_words::TRUTH, truth_number(b), st),
        Form::Row(g) => leaf(s, form_words::ROW, g, st),
        Form::Cell(k, g) => leaf(s, form_words::CELL, form_words::PAIR * (k as u64) + g, st),
        Form::Table(k) => table(s, k, st),
        _ => leaf(s, form_words::NUMBER, base_syntax::ZERO, st),
    }
}

#[tactic(auto, unfolding(spec_normal_form::specs::Normal::gives_way))]
fn split_of(f: Form, v: bool) -> Split
    ensures { SplitOfPost f v result }
{
    match f {
        Form::Two(BinOp::And, a, b) => Split::And(a, b),
        Form::Comp(Monoid::Some, k) if v => Split::Some(k),
        _ => Split::One,
    }
}

// The environment goes on into the copy of a comprehension that begins with number n.
fn copy(h: Head, m: Monoid, v: bool, n: u64, env: &mut [u16; LEVELS])
    requires { (h.depth < levels) × (n ≤ limit) × (length env.old ≡ levels) }
    ensures { Copies (under env.old h) m v n env.new }
{
    front_resolve::enter(env, h.depth, n, front_resolve::joined(v, m));
}

// Node i as a term.
#[cycle(binary_clause_comprehension_copied_emit_fields_negated_placed_qualifier_qualifiers_recorded_single_source)]
fn emit(s: &mut [u64], i: usize, depth: usize, env: &[u16; LEVELS], st: WriterState) -> WriterState
    requires { EmitPre s.old i depth env.now st × (length env.now ≡ levels) }
    ensures { Emitted (sem_s s.old i depth (env_of env.now)) s.old st s.new result }
{
    let mut e = *env;
    let h = front_resolve::resolve(s, i, depth, &mut e);
    placed(s, h, &mut e, st)
}

// Kind and argument of the word over the terms of a record or an operator.
fn heading_of(f: Form) -> Option<(u64, u64)>
    ensures { HeadingOfPost f result }
{
    match f {
        Form::Record => Some((form_words::RECORD, 0)),
        Form::Operator(o) => Some((form_words::OPERATOR, o.number())),
        _ => None,
    }
}

#[cycle(binary_clause_comprehension_copied_emit_fields_negated_placed_qualifier_qualifiers_recorded_single_source)]
fn placed(s: &mut [u64], h: Head, env: &mut [u16; LEVELS], st: WriterState) -> WriterState
    requires { TermOf s.old (under env.old h) st }
    ensures { Emitted (place_s s.old (under env.old h)) s.old st s.new result }
{
    match heading_of(h.form) {
        Some((k, a)) => recorded(s, h, k, a, env, st),
        None => match h.form {
            Form::Two(o, a, b) => binary(s, h, o, a, b, env, st),
            Form::Not(c) => negated(s, h, c, env, st),
            Form::Comp(m, k) => comprehension(s, h, m, k, env, st),
            _ => simple(s, h.form, h.node, st),
        },
    }
}

// A record or an operator, whose word is of kind k with argument a.
#[cycle(binary_clause_comprehension_copied_emit_fields_negated_placed_qualifier_qualifiers_recorded_single_source)]
fn recorded(
    s: &mut [u64],
    h: Head,
    k: u64,
    a: u64,
    env: &[u16; LEVELS],
    st: WriterState,
) -> WriterState
    requires { TermOf s.old (under env.now h) st × Headed h.form k a }
    ensures { Emitted (place_s s.old (under env.now h)) s.old st s.new result }
{
    let p = st.place;
    let r = fields(s, h, env, below(st));
    close(s, p, r.place, k, a);
    r
}

// The terms of a record or an operator.
#[cycle(binary_clause_comprehension_copied_emit_fields_negated_placed_qualifier_qualifiers_recorded_single_source)]
fn fields(s: &mut [u64], h: Head, env: &[u16; LEVELS], st: WriterState) -> WriterState
    requires { FieldsPre s.old (under env.now h) 0 st × Termed h.form }
    ensures { FieldsPost (fields_s s.old (under env.now h) 0) s.old st s.new result }
{
    let mut r = st;
    // By hand: a range is no plainer here, for the first term that is missing ends the loop.
    let mut k = 0;
    while let Some(c) = front_nodes::child(s, h.node, k) {
        r = emit(s, c, h.depth, env, r);
        k += 1;
    }
    r
}

#[cycle(binary_clause_comprehension_copied_emit_fields_negated_placed_qualifier_qualifiers_recorded_single_source)]
fn binary(
    s: &mut [u64],
    h: Head,
    o: BinOp,
    a: usize,
    b: usize,
    env: &[u16; LEVELS],
    st: WriterState,
) -> WriterState
    requires { TermOf s.old (under env.now h) st × (h.form ≡ Two o a b) }
    ensures { Emitted (place_s s.old (under env.now h)) s.old st s.new result }
{
    let p = st.place;
    let q = emit(s, a, h.depth, env, below(st));
    let r = emit(s, b, h.depth, env, q);
    close(s, p, r.place, form_words::BINARY, o.number());
    r
}

#[cycle(binary_clause_comprehension_copied_emit_fields_negated_placed_qualifier_qualifiers_recorded_single_source)]
fn negated(s: &mut [u64], h: Head, c: usize, env: &[u16; LEVELS], st: WriterState) -> WriterState
    requires { TermOf s.old (under env.now h) st × (h.form ≡ Not c) }
    ensures { Emitted (place_s s.old (under env.now h)) s.old st s.new result }
{
    let p = st.place;
    let r = emit(s, c, h.depth, env, below(st));
    close(s, p, r.place, form_words::NEGATION, 0);
    r
}

#[cycle(binary_clause_comprehension_copied_emit_fields_negated_placed_qualifier_qualifiers_recorded_single_source)]
fn comprehension(
    s: &mut [u64],
    h: Head,
    m: Monoid,
    k: usize,
    env: &mut [u16; LEVELS],
    st: WriterState,
) -> WriterState
    requires { TermOf s.old (under env.old h) st × (h.form ≡ Comp m k) }
    ensures { Emitted (place_s s.old (under env.old h)) s.old st s.new result }
{
    let p = st.place;
    let q = copied(s, h, m, false, env, below(st));
    let r = emit(s, k, h.depth + 1, env, q);
    close(s, p, r.place, form_words::COMPREHENSION, m.bits());
    r
}

// The qualifiers of a comprehension, in the copy that begins with the next number. The environment becomes that of the copy.
#[cycle(binary_clause_comprehension_copied_emit_fields_negated_placed_qualifier_qualifiers_recorded_single_source)]
fn copied(
    s: &mut [u64],
    h: Head,
    m: Monoid,
    v: bool,
    env: &mut [u16; LEVELS],
    st: WriterState,
) -> WriterState
    requires { CopyOf s.old (under env.old h) m v st × IsComp m h.form }
    ensures { EmittedQ (nodes_of s.old) (sem_s s.old) (qualifiers_of s.old h.node) (suc h.depth) (copy_env (under env.old h) m v st.next) (flag_in v m) s.old st s.new result × Copies (under env.old h) m v st.next env.new }
{
    let i = h.node;
    let lo = front_words::start_at(s, i);
    let e = front_words::start_at(s, front_nodes::prior(i));
    copy(h, m, v, st.next, env);
    qualifiers(s, lo, e, h.depth + 1, env, front_resolve::joined(v, m), st)
}

// The qualifiers between lo and e, by walking back.
#[cycle(binary_clause_comprehension_copied_emit_fields_negated_placed_qualifier_qualifiers_recorded_single_source)]
fn qualifiers(
    s: &mut [u64],
    lo: usize,
    e: usize,
    depth: usize,
    env: &[u16; LEVELS],
    v: bool,
    st: WriterState,
) -> WriterState
    requires { QualifiersPre s.old lo e depth env.now v st × (length env.now ≡ levels) }
    ensures { EmittedQ (nodes_of s.old) (sem_s s.old) (chain s.old lo e) depth (env_of env.now) v s.old st s.new result }
{
    if e <= lo {
        return st;
    }
    let x = e - 1;
    let b = front_words::start_at(s, x);
    let q = qualifiers(s, lo, b, depth, env, v, st);
    qualifier(s, x, depth, env, v, q)
}

// One that writes nothing is not walked: there may be far more of them than words.
#[cycle(binary_clause_comprehension_copied_emit_fields_negated_placed_qualifier_qualifiers_recorded_single_source)]
fn qualifier(
    s: &mut [u64],
    x: usize,
    depth: usize,
    env: &[u16; LEVELS],
    v: bool,
    st: WriterState,
) -> WriterState
    requires { QualifierPre s.old x depth env.now v st × (length env.now ≡ levels) }
    ensures { QualifierPost (sem_s s.old) (nodes_of s.old x) depth (env_of env.now) v s.old st s.new result }
{
    if front_sizes::condition_count(s, x, v).size == 0 {
        return st;
    }
    match front_nodes::look(s, x) {
        QueryNode::Gen(c) => clause(s, c, depth, env, v, true, st),
        QueryNode::Cond(c) => clause(s, c, depth, env, v, false, st),
        _ => st,
    }
}

// Node i as a condition, or where it ranges as a generator's term. "a condition that is a "some" comprehension .. gives way
// to its qualifiers and then its head as a condition". One function for both, so that the callers keep no environment.
#[cycle(binary_clause_comprehension_copied_emit_fields_negated_placed_qualifier_qualifiers_recorded_single_source)]
fn clause(
    s: &mut [u64],
    i: usize,
    depth: usize,
    env: &[u16; LEVELS],
    v: bool,
    ranging: bool,
    st: WriterState,
) -> WriterState
    requires { ClausePre ranging s.old i depth env.now v st × (length env.now ≡ levels) }
    ensures { ClausePost ranging (sem_s s.old i depth (env_of env.now)) v s.old st s.new result }
{
    let mut e = *env;
    let mut j = i;
    let mut d = depth;
    let mut r = st;
    loop {
        let h = front_resolve::resolve(s, j, d, &mut e);
        if ranging {
            return source(s, h, v, &mut e, r);
        }
        match split_of(h.form, v) {
            Split::And(a, b) => {
                r = clause(s, a, h.depth, &e, v, false, r);
                j = b;
                d = h.depth;
            }
            Split::Some(k) => {
                r = copied(s, h, Monoid::Some, true, &mut e, r);
                j = k;
                d = h.depth + 1;
            }
            Split::One => {
                return single(s, h, &mut e, r);
            }
        }
    }
}

// A place as a generator's term.
#[cycle(binary_clause_comprehension_copied_emit_fields_negated_placed_qualifier_qualifiers_recorded_single_source)]
fn source(s: &mut [u64], h: Head, v: bool, env: &mut [u16; LEVELS], st: WriterState) -> WriterState
    requires { SourcePre s.old (under env.old h) v st }
    ensures { SourcePost (place_s s.old (under env.old h)) v s.old st s.new result }
{
    match h.form {
        Form::Comp(m, k) => copied(s, h, m, v, env, st),
        Form::Table(k) => generator(s, k, st),
        _ => never(s, st),
    }
}

#[cycle(binary_clause_comprehension_copied_emit_fields_negated_placed_qualifier_qualifiers_recorded_single_source)]
fn single(s: &mut [u64], h: Head, env: &mut [u16; LEVELS], st: WriterState) -> WriterState
    requires { SinglePre s.old (under env.old h) st }
    ensures { SinglePost (place_s s.old (under env.old h)) s.old st s.new result }
{
    let p = st.place;
    let r = placed(s, h, env, below(st));
    close(s, p, r.place, form_words::CONDITION, 0);
    r
}

// The whole question, whose node is i: how many words it has.
pub fn write_form(s: &mut [u64], i: usize) -> usize
    requires { Writable s.old i }
    ensures { WriteFormPost s.old i s.new result }
{
    let env: [u16; LEVELS] = [0; LEVELS];
    let r = emit(s, i, 0, &env, WriterState { place: 0, next: 0 });
    r.place
}
