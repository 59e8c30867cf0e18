// A question's bytes become node words: "a comprehension reads qualifiers, a qualifier reads terms, and a term may be a
// comprehension again". Each reader passes on the part of the bytes that starts behind a record's header.
#![tactic(auto)]

mod bytes;
mod value;

ghost use Rattle.std.specs.Prelude.{◌≡◌, ◌+◌, ◌≤◌, ◌<◌, length};
ghost use Rattle.base_scratch.specs.Map.{scratch_size};
ghost use Rattle.front_parser.specs.ReaderScratch.{NodeRoom};
ghost use Rattle.front_parser.specs.ReaderContracts.{behind_of, TermPost, TermsPost, CompoundPost, ContentRead, QualifierPost, PartsPost, ComprehensionPost, ReadQuestionPost};

use base_bytes::byte_at;
use base_refusals::Refusal;
use base_syntax::{KIND_COMPREHENSION, MONOIDS};
use bytes::{begin, read_header};
use value::{ContentKind, finish, fixed, leaf, look_ahead, shape_of};

// "21: over 4,096 bytes."
const QUESTION_BYTES: usize = 4096;

// "23: a 33rd level (the question is level 1) or a 257th record": so many more than the question's own.
const LEVELS: usize = 31;

const RECORDS: usize = 255;

// Where a reader stands: how many levels may still be opened and how many records begun, the next node, and how many
// comprehensions are around it.
#[derive(Clone, Copy)]
pub struct ParseState {
    pub levels: usize,
    pub left: usize,
    pub node: usize,
    pub depth: u64,
}

// How many terms a record's content may have, and how many bytes stand before them.
#[derive(Clone, Copy)]
pub struct Arity {
    pub least: usize,
    pub most: usize,
    pub skip: usize,
}

// A qualifier or the head at the front of some bytes: how many bytes it takes, how many records may still be begun, the next node.
#[derive(Clone, Copy)]
pub enum Item {
    Qualifier(usize, usize, usize),
    Head(usize, usize, usize),
}

// Where a reader stands behind what was read.
fn behind(p: ParseState, left: usize, node: usize) -> ParseState
    ensures { result ≡ behind_of p left node }
{
    ParseState {
        levels: p.levels,
        left,
        node,
        depth: p.depth,
    }
}

// The record at the front, where a term must stand: how many bytes it takes, how many records may still be begun, the next node.
#[cycle(compound_comprehension_content_parts_qualifier_term_terms)]
fn term(l: &[u8], s: &mut [u64], p: ParseState) -> Result<(usize, usize, usize), Refusal>
    requires { NodeRoom 0 s.old p }
    ensures { TermPost l.now s.old p s.new result }
{
    let (k, e, b) = begin(l, p)?;
    let (left, node) = content(k, &l[4..e], s, b)?;
    Ok((e, left, node))
}

// A term's content, by its kind: how many records may still be begun, and the next node.
#[cycle(compound_comprehension_content_parts_qualifier_term_terms)]
fn content(k: u64, c: &[u8], s: &mut [u64], p: ParseState) -> Result<(usize, usize), Refusal>
    requires { NodeRoom 1 s.old p }
    ensures { ContentRead k c.now s.old p s.new result }
{
    match shape_of(k) {
        ContentKind::Value => leaf(k, c, s, p),
        ContentKind::Terms(h) => compound(k, h, c, s, p),
        ContentKind::Comprehension => comprehension(c, s, p),
        ContentKind::Other => Err(Refusal::BrokenRecord),
    }
}

// Content that is terms, behind a field's index, a calendar's number or a name: kinds 4 to 13, document 02's and the qualifiers.
#[cycle(compound_comprehension_content_parts_qualifier_term_terms)]
fn compound(
    k: u64,
    h: Arity,
    c: &[u8],
    s: &mut [u64],
    p: ParseState,
) -> Result<(usize, usize), Refusal>
    requires { (k < 32) × NodeRoom 1 s.old p }
    ensures { CompoundPost k h c.now s.old p s.new result }
{
    let skip = h.skip;
    let a = fixed(skip, c).ok_or(Refusal::BrokenRecord)?;
    let (count, left, node) = terms(&c[skip..], s, p, h.most)?;
    if count < h.least {
        return Err(Refusal::BrokenRecord);
    }
    if skip == 0 {
        return Ok(finish(s, k, count as u64, p, left, node));
    }
    Ok(finish(s, k, a, p, left, node))
}

// Terms one behind the other, at most so many, up to the end of the bytes: how many, and as for `content`. A loop: a call for each
// would need stack for each. It steps by each record's length.
#[cycle(compound_comprehension_content_parts_qualifier_term_terms)]
fn terms(
    l: &[u8],
    s: &mut [u64],
    p: ParseState,
    most: usize,
) -> Result<(usize, usize, usize), Refusal>
    requires { NodeRoom 0 s.old p }
    ensures { TermsPost most l.now s.old p s.new result }
{
    let mut at: usize = 0;
    let mut q = p;
    let mut count: usize = 0;
    while at < l.len() {
        if most <= count {
            return Err(Refusal::BrokenRecord);
        }
        let (used, left, node) = term(&l[at..], s, q)?;
        at += used;
        q = behind(q, left, node);
        count += 1;
    }
    Ok((count, q.left, q.node))
}

// The content of kind 14: a monoid, qualifiers, a head.
#[cycle(compound_comprehension_content_parts_qualifier_term_terms)]
fn comprehension(c: &[u8], s: &mut [u64], p: ParseState) -> Result<(usize, usize), Refusal>
    requires { NodeRoom 1 s.old p }
    ensures { ComprehensionPost c.now s.old p s.new result }
{
    if c.len() == 0 {
        return Err(Refusal::BrokenRecord);
    }
    let m = byte_at(c, 0) as u64;
    if m == 0 {
        return Err(Refusal::BrokenRecord);
    }
    if MONOIDS < m {
        return Err(Refusal::BrokenRecord);
    }
    let inside = ParseState {
        levels: p.levels,
        left: p.left,
        node: p.node,
        depth: p.depth + 1,
    };
    let (left, node) = parts(&c[1..], s, inside)?;
    Ok(finish(s, KIND_COMPREHENSION, m, p, left, node))
}

// "Any count of qualifiers, then one head term", which fills the rest. A loop, as in `terms`.
#[cycle(compound_comprehension_content_parts_qualifier_term_terms)]
fn parts(l: &[u8], s: &mut [u64], p: ParseState) -> Result<(usize, usize), Refusal>
    requires { NodeRoom 0 s.old p }
    ensures { PartsPost l.now s.old p s.new result }
{
    let mut at: usize = 0;
    let mut q = p;
    loop {
        match qualifier(&l[at..], s, q)? {
            Item::Qualifier(used, left, node) => {
                at += used;
                q = behind(q, left, node);
            }
            Item::Head(used, left, node) => {
                if used < l.len() - at {
                    return Err(Refusal::BrokenRecord);
                }
                return Ok((left, node));
            }
        }
    }
}

// The record at the front, where a qualifier may stand; what is no qualifier is the head.
#[cycle(compound_comprehension_content_parts_qualifier_term_terms)]
fn qualifier(l: &[u8], s: &mut [u64], p: ParseState) -> Result<Item, Refusal>
    requires { NodeRoom 0 s.old p }
    ensures { QualifierPost l.now s.old p s.new result }
{
    let (k, e, b) = begin(l, p)?;
    let Some(h) = look_ahead(k) else {
        let (used, left, node) = term(l, s, p)?;
        return Ok(Item::Head(used, left, node));
    };
    let (left, node) = compound(k, h, &l[4..e], s, b)?;
    Ok(Item::Qualifier(e, left, node))
}

// "A question is one record of kind 14", and nothing behind it. Gives how many nodes it has.
pub fn read_question(l: &[u8], s: &mut [u64]) -> Result<usize, Refusal>
    requires { scratch_size ≤ length s.old }
    ensures { ReadQuestionPost l.now s.old s.new result }
{
    if QUESTION_BYTES < l.len() {
        return Err(Refusal::QuestionTooLong);
    }
    let (k, e) = read_header(l).ok_or(Refusal::BrokenRecord)?;
    if k != KIND_COMPREHENSION {
        return Err(Refusal::BrokenRecord);
    }
    let first = ParseState {
        levels: LEVELS,
        left: RECORDS,
        node: 0,
        depth: 0,
    };
    let (_, n) = comprehension(&l[4..e], s, first)?;
    if e < l.len() {
        return Err(Refusal::BrokenRecord);
    }
    Ok(n)
}
