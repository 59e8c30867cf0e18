// A value, raw in the answer buffer, is brought to its written form in place.
#![tactic(auto)]

ghost use Rattle.std.specs.Prelude.{◌≤◌};
ghost use Rattle.base_scratch.specs.Map.{form_words};
ghost use Rattle.answer_types.specs.Shape.{Shaped};
ghost use Rattle.answer_canonical.specs.CompactingWalk.{CarryPost, ArrangePost, WalkPost, WalkFieldsPost, WalkElementsPost, FinishPost, FinishCount};

use answer_sort::order;
use answer_types::{Layout, ValueType, element_layout, layout_at};
use base_buffer::{ahead, clear, mark, shift, step, tally};
use form_words::next;

// Where the next raw word is read, where the next written word goes, and the comparisons of the ordering steps so far.
#[derive(Clone, Copy)]
struct Ends {
    src: usize,
    dst: usize,
    comparisons: u64,
}

// How many words a value has when it is written, and the comparisons of all its ordering steps.
#[derive(Clone, Copy)]
pub struct Finished {
    pub length: usize,
    pub comparisons: u64,
}

// The next n words, which are written as they are, move down.
fn carry(o: &mut [i64], n: usize, e: Ends) -> Ends
    ensures { CarryPost n e o.old o.new result }
{
    let src = ahead(o, e.src, n);
    shift(o, e.dst, e.src, src);
    Ends {
        src: src,
        dst: ahead(o, e.dst, n),
        comparisons: e.comparisons,
    }
}

// A value of the type t at p, its parts written: the elements of a bag or a set are ordered, and the count is mended. It has
// several callers, so that it is not put in line in `walk`, whose frame is on the stack once for each level of a type.
fn arrange(s: &[u64], o: &mut [i64], t: Layout, p: usize, e: Ends) -> Ends
    requires { Shaped s.now t.place t.shape }
    ensures { ArrangePost s.now t.place p e o.old o.new result }
{
    let shape = t.shape;
    match shape {
        ValueType::Word => e,
        ValueType::Words(_) => e,
        ValueType::Fields(_) => e,
        ValueType::Elements(k, h) => {
            let u = element_layout(s, h);
            let n = tally(o, p);
            let first = step(o, p);
            let r = order(s, o, u, k, first, n, e.dst);
            mark(o, p, r.count);
            Ends {
                src: e.src,
                dst: r.end,
                comparisons: e.comparisons.saturating_add(r.comparisons),
            }
        }
    }
}

// A value of the type t, which the caller then arranges. Nested collections come first: each field and element is brought to
// written form and moved down.
#[cycle(walk_walk_elements_walk_fields)]
fn walk(s: &[u64], o: &mut [i64], t: Layout, e: Ends) -> Ends
    requires { Shaped s.now t.place t.shape }
    ensures { WalkPost s.now t.place e o.old o.new result }
{
    let shape = t.shape;
    match shape {
        ValueType::Word => carry(o, 1, e),
        ValueType::Words(n) => carry(o, n, e),
        ValueType::Fields(end) => walk_fields(s, o, t.place + 1, end, e),
        ValueType::Elements(_, h) => {
            let n = tally(o, e.src);
            let b = carry(o, 1, e);
            walk_elements(s, o, element_layout(s, h), n, b)
        }
    }
}

// Fields, their types from place c to end.
#[cycle(walk_walk_elements_walk_fields)]
fn walk_fields(s: &[u64], o: &mut [i64], c: usize, end: usize, e: Ends) -> Ends
    requires { end ≤ form_words }
    ensures { WalkFieldsPost s.now c end e o.old o.new result }
{
    let mut i = c;
    let mut g = e;
    while i < end {
        let t = layout_at(s, i);
        let p = g.dst;
        g = walk(s, o, t, g);
        g = arrange(s, o, t, p, g);
        i = next(s, i);
    }
    g
}

// Elements.
#[cycle(walk_walk_elements_walk_fields)]
fn walk_elements(s: &[u64], o: &mut [i64], t: Layout, count: usize, e: Ends) -> Ends
    requires { Shaped s.now t.place t.shape }
    ensures { WalkElementsPost s.now t.place count e o.old o.new result }
{
    let mut g = e;
    for _ in 0..count {
        let p = g.dst;
        g = walk(s, o, t, g);
        g = arrange(s, o, t, p, g);
    }
    g
}

// The value of the type at i whose raw words stand in front is brought to its written form.
pub fn finish(s: &[u64], o: &mut [i64], i: usize) -> Finished
    ensures finish_post { FinishPost s.now i o.old o.new result.length }
    ensures finish_count { FinishCount s.now i o.old result.comparisons }
{
    let t = layout_at(s, i);
    let b = Ends {
        src: 0,
        dst: 0,
        comparisons: 0,
    };
    let g = walk(s, o, t, b);
    let e = arrange(s, o, t, 0, g);
    clear(o, e.dst, e.src);
    Finished {
        length: e.dst,
        comparisons: e.comparisons,
    }
}
