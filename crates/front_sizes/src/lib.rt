// How much each node writes, in scratch: the only readers and writers of these words.
#![tactic(auto)]

ghost use Rattle.std.specs.Prelude.{◌≡◌, ◌+◌, ◌<◌, set};
ghost use Rattle.front_sizes.specs.SizeWords.{place, word_at, pair_of, pack, SmallSize, term_count, condition_count, spliced_count, stored};

use base_scratch::{SIZES, load, store};

// A count of nodes, 512 being the most that are accepted; any more are these.
pub const TOO_MANY: u64 = 513;

// A pair is two counts; where the second and the third of a word's pairs begin.
const COUNTS: u64 = 1024;

const SECOND: u64 = 1048576;

const THIRD: u64 = 1099511627776;

// What something writes: its size and its generators. Of a qualifier's offsets: where "some" does not give way, where it does.
#[derive(Clone, Copy)]
pub struct FormSize {
    pub size: u64,
    pub gens: u64,
}

// Word k of node i; 0 where the scratch has none.
fn word(s: &[u64], i: usize, k: usize) -> u64
    requires { k < 2 }
    ensures { result ≡ word_at s.now i k }
{
    if i < s.len() {
        load(s, SIZES + 2 * i + k)
    } else {
        0
    }
}

// The pair in the low 20 bits.
fn pair(w: u64) -> FormSize
    ensures { result ≡ pair_of w }
{
    FormSize {
        size: w % COUNTS,
        gens: w / COUNTS % COUNTS,
    }
}

pub fn term_count(s: &[u64], i: usize) -> FormSize
    ensures { result ≡ term_count s.now i }
{
    pair(word(s, i, 0))
}

// `v` says whether "some" gives way.
#[tactic(auto, unfolding(crate::specs::SizeWords::condition_count, spec_calculus::specs::Lists::pick))]
pub fn condition_count(s: &[u64], i: usize, v: bool) -> FormSize
    ensures { result ≡ condition_count s.now i v }
{
    pair(word(s, i, 0) / if v { THIRD } else { SECOND })
}

#[tactic(auto, unfolding(crate::specs::SizeWords::spliced_count, spec_calculus::specs::Lists::pick))]
pub fn spliced_count(s: &[u64], i: usize, v: bool) -> FormSize
    ensures { result ≡ spliced_count s.now i v }
{
    pair(word(s, i, 1) / if v { SECOND } else { 1 })
}

// The offset that is stored for node i: once `measure` has run, how many generators the qualifiers before qualifier i write.
#[tactic(auto, unfolding(crate::specs::SizeWords::stored, spec_calculus::specs::Lists::pick))]
pub fn offset(s: &[u64], i: usize, v: bool) -> u64
    ensures { (result ≡ stored s.now i v) × (result < 1024) }
{
    let o = pair(word(s, i, 1) / THIRD);
    if v { o.gens } else { o.size }
}

// Three pairs as a word.
fn packed(a: FormSize, b: FormSize, c: FormSize) -> u64
    requires { SmallSize a × SmallSize b × SmallSize c }
    ensures { result ≡ pack a b c }
{
    let low = a.size + COUNTS * a.gens;
    let mid = b.size + COUNTS * b.gens;
    let high = c.size + COUNTS * c.gens;
    low + SECOND * (mid + SECOND * high)
}

// Node i gets word k. A store outside the scratch does nothing.
fn put(s: &mut [u64], i: usize, k: usize, w: u64)
    requires { k < 2 }
    ensures { s.new ≡ set s.old (place i k) w }
{
    if i < s.len() {
        store(s, SIZES + 2 * i + k, w);
    }
}

// Node i as a term, and as a condition where "some" does not give way and where it does.
pub fn put_first(s: &mut [u64], i: usize, term: FormSize, stays: FormSize, yields: FormSize)
    requires { SmallSize term × SmallSize stays × SmallSize yields }
    ensures { s.new ≡ set s.old (place i 0) (pack term stays yields) }
{
    put(s, i, 0, packed(term, stays, yields));
}

// Node i spliced, where "some" does not give way and where it does, and its offsets. One function for both words is no
// plainer: the names say what a word's three pairs are.
pub fn put_second(s: &mut [u64], i: usize, stays: FormSize, yields: FormSize, offsets: FormSize)
    requires { SmallSize stays × SmallSize yields × SmallSize offsets }
    ensures { s.new ≡ set s.old (place i 1) (pack stays yields offsets) }
{
    put(s, i, 1, packed(stays, yields, offsets));
}
