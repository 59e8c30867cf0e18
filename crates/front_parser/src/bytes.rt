// The front of some bytes: a record's header, and whether a record may begin.
ghost use Rattle.front_parser.specs.RecordFront.{ReadHeaderPost, BeginPost};

use crate::ParseState;
use base_bytes::two_at;
use base_refusals::Refusal;

// A whole record's kind, and where it ends. "Two bytes of content length, two bytes of kind, content."
pub fn read_header(l: &[u8]) -> Option<(u64, usize)>
    ensures { ReadHeaderPost l.now result }
{
    if l.len() < 4 {
        return None;
    }
    let n = two_at(l, 0);
    if l.len() - 4 < n {
        return None;
    }
    let k = two_at(l, 2) as u64;
    Some((k, 4 + n))
}

// A record that may begin: its kind, where it ends, and where the reader of its content stands. "23 first at one record"; but
// where no byte is left, 22.
pub fn begin(l: &[u8], p: ParseState) -> Result<(u64, usize, ParseState), Refusal>
    ensures { BeginPost l.now p result }
{
    if l.len() == 0 {
        return Err(Refusal::BrokenRecord);
    }
    if p.levels == 0 {
        return Err(Refusal::TooDeepOrTooManyRecords);
    }
    if p.left == 0 {
        return Err(Refusal::TooDeepOrTooManyRecords);
    }
    let (k, e) = read_header(l).ok_or(Refusal::BrokenRecord)?;
    let b = ParseState {
        levels: p.levels - 1,
        left: p.left - 1,
        node: p.node,
        depth: p.depth,
    };
    Ok((k, e, b))
}
