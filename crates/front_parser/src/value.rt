// What a record's kind says of its content, and the records without records inside.
ghost use Rattle.std.specs.Prelude.{◌+◌, ◌<◌, get_or};
ghost use Rattle.spec_encoding.specs.Reader.{kinds, unknown, number, truth_k, name_k, table_k};
ghost use Rattle.front_parser.specs.ReaderScratch.{NodeRoom, FinishPre, FinishPost};
ghost use Rattle.front_parser.specs.RecordKinds.{ShapeOfPost, LookAheadPost, Valued, LeafKind, Fixed};
ghost use Rattle.front_parser.specs.ReaderContracts.{ContentRead};

use crate::{Arity, ParseState};
use base_bytes::{byte_at, two_at};
use base_refusals::Refusal;
use base_syntax::{
    KIND_BINDING, KIND_CHOICE, KIND_COMPREHENSION, KIND_CONDITION, KIND_FIELD, KIND_GENERATOR,
    KIND_NAME, KIND_NOT, KIND_NUMBER, KIND_OPEN, KIND_RECORD, KIND_TABLE, KIND_TRUTH, ZERO,
};
use front_words::put_node;

// "Name (2 bytes, 0 to 255)"
const LAST_NAME: u64 = 255;

// What a term's content is.
#[derive(Clone, Copy)]
pub enum ContentKind {
    Value,
    Terms(Arity),
    Comprehension,
    Other,
}

// By a kind behind those of document 01's terms: document 02's, or a qualifier, which is no term.
fn later_shape(k: u64) -> ContentKind
    requires { 15 < k }
    ensures { ShapeOfPost k result }
{
    match k {
        KIND_CHOICE => ContentKind::Terms(Arity {
            least: 3,
            most: 3,
            skip: 0,
        }),
        KIND_OPEN => ContentKind::Terms(Arity {
            least: 1,
            most: 1,
            skip: 1,
        }),
        _ => ContentKind::Other,
    }
}

pub fn shape_of(k: u64) -> ContentKind
    ensures { ShapeOfPost k result }
{
    if k == 0 {
        return ContentKind::Other;
    }
    if k <= KIND_NAME {
        return ContentKind::Value;
    }
    if KIND_TABLE < k {
        return later_shape(k);
    }
    match k {
        KIND_FIELD => ContentKind::Terms(Arity {
            least: 1,
            most: 1,
            skip: 1,
        }),
        KIND_RECORD => ContentKind::Terms(Arity {
            least: 1,
            most: 8,
            skip: 0,
        }),
        KIND_NOT => ContentKind::Terms(Arity {
            least: 1,
            most: 1,
            skip: 0,
        }),
        KIND_COMPREHENSION => ContentKind::Comprehension,
        KIND_TABLE => ContentKind::Value,
        _ => ContentKind::Terms(Arity {
            least: 2,
            most: 2,
            skip: 0,
        }),
    }
}

// What a qualifier's content is, where one stands ahead.
pub fn look_ahead(k: u64) -> Option<Arity>
    ensures { LookAheadPost k result }
{
    match k {
        KIND_GENERATOR => Some(Arity {
            least: 1,
            most: 1,
            skip: 2,
        }),
        KIND_BINDING => Some(Arity {
            least: 1,
            most: 1,
            skip: 2,
        }),
        KIND_CONDITION => Some(Arity {
            least: 1,
            most: 1,
            skip: 0,
        }),
        _ => None,
    }
}

// One byte: a field's index, a table's number.
fn index(c: &[u8]) -> Option<u64>
    ensures { Fixed 1 c.now result }
{
    if c.len() < 1 {
        return None;
    }
    Some(byte_at(c, 0) as u64)
}

fn short(c: &[u8]) -> Option<u64>
    ensures { Fixed 2 c.now result }
{
    if c.len() < 2 {
        return None;
    }
    let x = two_at(c, 0) as u64;
    if x <= LAST_NAME { Some(x) } else { None }
}

// The bytes before a record's terms: none, a field's index, or a name.
pub fn fixed(skip: usize, c: &[u8]) -> Option<u64>
    ensures { Fixed skip c.now result }
{
    match skip {
        0 => Some(0),
        1 => index(c),
        2 => short(c),
        _ => None,
    }
}

fn number(c: &[u8]) -> Option<u64>
    ensures { Valued number c.now result }
{
    if c.len() != 4 {
        return None;
    }
    let n = two_at(c, 0) as u64 + 65536 * two_at(c, 2) as u64;
    if n < ZERO {
        Some(n + ZERO)
    } else {
        Some(n - ZERO)
    }
}

fn truth(c: &[u8]) -> Option<u64>
    ensures { Valued truth_k c.now result }
{
    if c.len() != 1 {
        return None;
    }
    let b = byte_at(c, 0) as u64;
    if b <= 1 { Some(b) } else { None }
}

fn name(c: &[u8]) -> Option<u64>
    ensures { Valued name_k c.now result }
{
    if c.len() != 2 {
        return None;
    }
    short(c)
}

fn table(c: &[u8]) -> Option<u64>
    ensures { Valued table_k c.now result }
{
    if c.len() != 1 {
        return None;
    }
    index(c)
}

// Numbers, truths, names and tables.
fn argument(k: u64, c: &[u8]) -> Option<u64>
    requires { LeafKind k }
    ensures { Valued (get_or kinds k unknown) c.now result }
{
    match k {
        KIND_NUMBER => number(c),
        KIND_TRUTH => truth(c),
        KIND_NAME => name(c),
        _ => table(c),
    }
}

// A record's own node, behind the nodes inside it. Gives how many records may still be begun, and the next node.
pub fn finish(s: &mut [u64], k: u64, a: u64, p: ParseState, left: usize, i: usize) -> (usize, usize)
    requires { FinishPre s.old k a p i }
    ensures { FinishPost s.old k a p left i s.new result }
{
    put_node(s, i, k, a, p.node as u64, p.depth);
    (left, i + 1)
}

pub fn leaf(k: u64, c: &[u8], s: &mut [u64], p: ParseState) -> Result<(usize, usize), Refusal>
    requires { LeafKind k × NodeRoom 1 s.old p }
    ensures { ContentRead k c.now s.old p s.new result }
{
    let a = argument(k, c).ok_or(Refusal::BrokenRecord)?;
    Ok(finish(s, k, a, p, p.left, p.node))
}
