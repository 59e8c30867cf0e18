// Takes a question through the passes and prints what each leaves in scratch, word by word with its fields: docs/WALK.md quotes it.
// The input is the listing: the data, then the question.
#![tactic(auto)]

ghost use Rattle.std.specs.Prelude.{◌<◌, ◌≤◌, length};
ghost use Rattle.base_scratch.specs.Map.{scratch_size};

use base_scratch::{
    BINDERS, DESCRIPTIONS, ENVIRONMENT, FORM, FORM_WORDS, NODES, SHAPES, SIZES, STARTS, TOTALS,
};
use std::io;
use std::io::Write;

// The bytes of the listing's data.
const DATA: usize = 66;

// How a word is taken apart.
#[derive(Clone, Copy)]
enum Format {
    Whole,
    Description,
    Node,
    Shape,
    Sizes,
    Form,
    Row,
    Total,
    Start,
}

fn say<W: Write>(to: &mut W, text: &[u8]) -> io::Result<()> {
    to.write_all(text)
}

fn decimal<W: Write>(to: &mut W, number: u64) -> io::Result<()> {
    write!(to, "{number}")
}

// Prints the lowest field of a word, a number below b, behind its name. Answers what is above it.
fn field<W: Write>(to: &mut W, name: &[u8], w: u64, b: u64) -> io::Result<u64>
    requires { 0 < b }
{
    say(to, b", ")?;
    say(to, name)?;
    say(to, b" ")?;
    decimal(to, w % b)?;
    Ok(w / b)
}

fn last<W: Write>(to: &mut W, name: &[u8], w: u64) -> io::Result<()> {
    say(to, b", ")?;
    say(to, name)?;
    say(to, b" ")?;
    decimal(to, w)
}

fn description<W: Write>(to: &mut W, w: u64) -> io::Result<()> {
    let a = field(to, b"collection", w, 4)?;
    let b = field(to, b"columns", a, 16)?;
    let c = field(to, b"rows", b, 2048)?;
    let d = field(to, b"kind", c, 2)?;
    let e = field(to, b"subset", d, 4096)?;
    last(to, b"cells at byte", e)
}

fn node<W: Write>(to: &mut W, w: u64) -> io::Result<()> {
    let a = field(to, b"kind", w, 32)?;
    let b = field(to, b"argument", a, 8589934592)?;
    let c = field(to, b"first", b, 512)?;
    last(to, b"depth", c)
}

fn shape<W: Write>(to: &mut W, w: u64) -> io::Result<()> {
    let a = field(to, b"class", w, 8)?;
    last(to, b"of", a)
}

fn pair<W: Write>(to: &mut W, name: &[u8], w: u64) -> io::Result<u64> {
    let a = field(to, name, w, 1024)?;
    field(to, b"generators", a, 1024)
}

fn sizes<W: Write>(to: &mut W, w: u64) -> io::Result<()> {
    let a = pair(to, b"nodes", w)?;
    let b = pair(to, b"nodes", a)?;
    pair(to, b"nodes", b)?;
    Ok(())
}

fn form<W: Write>(to: &mut W, w: u64) -> io::Result<()> {
    let a = field(to, b"kind", w, 16)?;
    let b = field(to, b"below", a, 1024)?;
    let c = field(to, b"low", b, 1024)?;
    let d = field(to, b"high", c, 1024)?;
    let e = field(to, b"mark", d, 1024)?;
    let f = field(to, b"next", e, 1024)?;
    last(to, b"far", f)
}

// A total is 2^62 more than its number; what is less is where a collection ends.
fn total<W: Write>(to: &mut W, w: u64) -> io::Result<()> {
    if w < 4611686018427387904 {
        return last(to, b"end", w);
    }
    last(to, b"total", w - 4611686018427387904)
}

fn row<W: Write>(to: &mut W, w: u64) -> io::Result<()> {
    let a = field(to, b"row", w, 2048)?;
    last(to, b"table + 1 =", a)
}

fn start<W: Write>(to: &mut W, w: u64) -> io::Result<()> {
    let a = field(to, b"unit", w, 2)?;
    last(to, b"begins", a)
}

fn fields<W: Write>(to: &mut W, f: Format, w: u64) -> io::Result<()> {
    match f {
        Format::Whole => Ok(()),
        Format::Description => description(to, w),
        Format::Node => node(to, w),
        Format::Shape => shape(to, w),
        Format::Sizes => sizes(to, w),
        Format::Form => form(to, w),
        Format::Row => row(to, w),
        Format::Total => total(to, w),
        Format::Start => start(to, w),
    }
}

fn line<W: Write>(to: &mut W, i: usize, w: u64, f: Format) -> io::Result<()> {
    say(to, b"  word ")?;
    decimal(to, i as u64)?;
    say(to, b": ")?;
    decimal(to, w)?;
    fields(to, f, w)?;
    say(to, b"\n")
}

// The words from a to b that are not 0.
fn show<W: Write>(to: &mut W, s: &[u64], a: usize, b: usize, f: Format) -> io::Result<()> {
    for i in a..b {
        if s.len() <= i {
            return Ok(());
        }
        if s[i] != 0 {
            line(to, i, s[i], f)?;
        }
    }
    Ok(())
}

// The front end: what stands in scratch when 27 has passed.
fn show_question<W: Write>(to: &mut W, s: &[u64], n: usize) -> io::Result<()> {
    say(to, b"tables (base_tables::read_data)\n")?;
    show(to, s, DESCRIPTIONS, NODES, Format::Description)?;
    say(to, b"nodes (front_parser::read_question)\n")?;
    show(to, s, NODES, BINDERS, Format::Node)?;
    say(to, b"binders (front_scope::binders)\n")?;
    show(to, s, BINDERS, SHAPES, Format::Whole)?;
    say(to, b"shapes (front_typing::types_fit, generators_fit)\n")?;
    show(to, s, SHAPES, SIZES, Format::Shape)?;
    say(to, b"sizes (front_measure::measure)\n")?;
    show(to, s, SIZES, FORM, Format::Sizes)?;
    say(to, b"nodes of the question: ")?;
    decimal(to, n as u64)?;
    say(to, b"\n")
}

// The first n bytes.
fn front<W: Write>(to: &mut W, text: &[u8], n: usize) -> io::Result<()> {
    if text.len() < n {
        return Ok(());
    }
    say(to, &text[0..n])
}

fn signed<W: Write>(to: &mut W, x: i64) -> io::Result<()> {
    let mut digits = [0u8; 20];
    let n = base_text::signed(&mut digits, 20, 0, x);
    front(to, &digits, n)
}

// The words of the answer's first places.
fn show_answer<W: Write>(to: &mut W, out: &[i64], n: usize) -> io::Result<()> {
    say(to, b"  answer")?;
    for i in 0..n {
        if out.len() <= i {
            return Ok(());
        }
        say(to, b" ")?;
        signed(to, out[i])?;
    }
    say(to, b"\n")
}

// The words that change while a plan runs, of the node at place i: of a comprehension (kind 8) its total or end and where it
// begins, of a generator (kind 9) its row.
fn show_node<W: Write>(to: &mut W, s: &[u64], i: usize) -> io::Result<()>
    requires { i < 512 }
{
    let w = form_words::word(s, i);
    match w % 16 {
        8 => {
            show(to, s, TOTALS + i, TOTALS + i + 1, Format::Total)?;
            show(to, s, STARTS + i, STARTS + i + 1, Format::Start)
        }
        9 => {
            let g = (w / 16777216 % 256) as usize;
            show(to, s, ENVIRONMENT + g, ENVIRONMENT + g + 1, Format::Row)
        }
        _ => Ok(()),
    }
}

// The same of all nodes, and the answer up to the limit.
fn show_state<W: Write>(to: &mut W, s: &[u64], out: &[i64], limit: usize) -> io::Result<()> {
    for i in 0..FORM_WORDS {
        show_node(to, s, i)?;
    }
    show_answer(to, out, limit)
}

// All rows of a pass, one offer after another; at most n of them.
fn offers<W: Write>(
    to: &mut W,
    s: &mut [u64],
    data: &[u8],
    out: &mut [i64],
    limit: usize,
    code: usize,
    n: usize,
) -> io::Result<()> {
    let mut at = code;
    for _ in 0..n {
        if at == 1 {
            return Ok(());
        }
        say(to, b"offer by the loop at ")?;
        decimal(to, (at / 2) as u64)?;
        say(to, b" (exec_step::offer)\n")?;
        let x = exec_step::offer(s, data, out, limit, at / 2, 0);
        at = x.at;
        show_state(to, s, out, limit)?;
    }
    Ok(())
}

// The pass that counts: G.
fn counted<W: Write>(
    to: &mut W,
    s: &mut [u64],
    data: &[u8],
    out: &mut [i64],
    first: usize,
) -> io::Result<usize> {
    let g = exec_pass::pass(s, data, out, 0, first);
    say(to, b"G (exec_pass::pass, limit 0): ")?;
    decimal(to, g as u64)?;
    say(to, b"\n")?;
    Ok(g)
}

// The pass that writes begins: the code of the loop that offers the first row.
fn begun<W: Write>(
    to: &mut W,
    s: &mut [u64],
    data: &[u8],
    out: &mut [i64],
    limit: usize,
    first: usize,
) -> io::Result<usize> {
    let code = exec_pass::start(s, data, out, limit, first);
    say(to, b"second pass begins (exec_pass::start)\n")?;
    show_state(to, s, out, limit)?;
    Ok(code)
}

fn closed<W: Write>(to: &mut W, s: &[u64], out: &mut [i64], limit: usize) -> io::Result<()> {
    exec_pass::close(s, out, limit);
    say(to, b"raw words (exec_pass::close)\n")?;
    show_answer(to, out, limit)
}

// Both passes.
fn run<W: Write>(
    to: &mut W,
    s: &mut [u64],
    data: &[u8],
    out: &mut [i64],
    first: usize,
) -> io::Result<()> {
    let g = counted(to, s, data, out, first)?;
    let code = begun(to, s, data, out, g, first)?;
    offers(to, s, data, out, g, code, 16)?;
    closed(to, s, out, g)
}

fn by_plan<W: Write>(to: &mut W, data: &[u8], s: &mut [u64]) -> io::Result<()> {
    let mut out = [0i64; 16];
    plan_marks::make_plan(s);
    say(to, b"marks (plan_marks::make_plan)\n")?;
    show(to, s, FORM, FORM + FORM_WORDS, Format::Form)?;
    let first = plan_links::link(s);
    say(to, b"links (plan_links::link), first ")?;
    decimal(to, first as u64)?;
    say(to, b"\n")?;
    show(to, s, FORM, FORM + FORM_WORDS, Format::Form)?;
    run(to, s, data, &mut out, first)
}

fn written<W: Write>(to: &mut W, data: &[u8], question: &[u8], s: &mut [u64]) -> io::Result<()> {
    let mut out = [0i64; 16];
    let a = engine::dislogha_answer_by_loops(data, b"", question, s, &mut out);
    say(to, b"by loops (engine::dislogha_answer_by_loops)\n")?;
    show_answer(to, &out, a.length as usize)?;
    let b = engine::dislogha_answer_by_plan(data, b"", question, s, &mut out);
    say(to, b"by plan (engine::dislogha_answer_by_plan)\n")?;
    show_answer(to, &out, b.length as usize)
}

fn walk<W: Write>(to: &mut W, data: &[u8], question: &[u8], s: &mut [u64]) -> io::Result<()>
    requires { scratch_size ≤ length s.old }
{
    if let Ok(n) = front_end::front_end(data, b"", question, s) {
        show_question(to, s, n)?;
    }
    let _ = front_end::prepare(data, b"", question, s);
    say(to, b"normal form (front_emit::write_form)\n")?;
    show(to, s, ENVIRONMENT, FORM, Format::Row)?;
    show(to, s, FORM, FORM + FORM_WORDS, Format::Form)?;
    by_plan(to, data, s)?;
    written(to, data, question, s)
}

fn listing<W: Write>(to: &mut W, input: &[u8], s: &mut [u64]) -> io::Result<()>
    requires { scratch_size ≤ length s.old }
{
    if input.len() < DATA {
        return Ok(());
    }
    walk(to, &input[0..DATA], &input[DATA..input.len()], s)
}

fn main(rt: HostRuntime) -> io::Result<()> {
    let mut input = [0u8; 4096];
    let n = base_input::read_full(&mut rt.reader(), &mut input)?;
    let mut scratch = [0u64; base_scratch::WORDS];
    listing(&mut io::writer(&rt), &input[..n], &mut scratch)
}
