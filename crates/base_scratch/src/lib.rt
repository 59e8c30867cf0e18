// The scratch: the one map of its words, their only reader and writer, and how they are left empty.
#![tactic(auto)]

ghost use Rattle.std.specs.Prelude.{◌≡◌, ◌++◌, ◌+◌, ◌≤◌, length, get_or, drop, set, replicate};
ghost use Rattle.base_scratch.specs.Map.{scratch_size};
ghost use Rattle.base_scratch.specs.ZeroedWords.{WipePost};

// The map. specs/Map.antt has the same names and says what stands there.

// How many words a call needs, and clears.
pub const WORDS: usize = 2048;

// Always: the tables' descriptions, by number. Word 0 is free.
pub const DESCRIPTIONS: usize = 1;

// The words of a question begin here, and later those of answering: seven words behind the descriptions are free.
pub const NODES: usize = 16;

// A question has at most so many nodes, and so many names.
pub const MOST_NODES: usize = 256;

pub const NAMES: usize = 256;

// While a question is checked: its nodes, each name's binder, each node's shape, each node's sizes.
pub const BINDERS: usize = NODES + MOST_NODES;

pub const SHAPES: usize = BINDERS + NAMES;

pub const SIZES: usize = SHAPES + MOST_NODES;

// The normal form, behind two words of sizes for each node.
pub const FORM: usize = SIZES + 2 * MOST_NODES;

pub const FORM_WORDS: usize = 512;

// A generator is two nodes of the form, itself and its table, and one word.
pub const MOST_GENERATORS: usize = FORM_WORDS / 2;

// From the normal form on: each generator's table and row. The question's words are dead by then.
pub const ENVIRONMENT: usize = NODES;

// While a plan runs: for each comprehension its total or where its elements end, and where they begin.
pub const TOTALS: usize = ENVIRONMENT + MOST_GENERATORS;

pub const STARTS: usize = TOTALS + FORM_WORDS;

// While a plan is made: the mark of each generator's place, where its row will stand. No total stands there yet.
pub const REGISTERS: usize = TOTALS;

// Between the portions of an unfinished question: where it stands.
pub const STAGE: usize = FORM + FORM_WORDS;

pub const CODE: usize = STAGE + 1;

pub const LIMIT: usize = STAGE + 2;

pub const FIRST: usize = STAGE + 3;

// From the normal form on: a word for each column of each table, its checkpoint where the table is by columns.
pub const CHECKPOINTS: usize = FIRST + 1;

// Always, from the checks on: the lent calendars, so many words each.
pub const CALENDAR_WORDS: usize = 33;

pub const CALENDARS: usize = WORDS - 4 * CALENDAR_WORDS;

// Word i; 0 outside.
pub fn load(s: &[u64], i: usize) -> u64
    ensures { result ≡ get_or s.now i 0 }
{
    if i < s.len() { s[i] } else { 0 }
}

// Word i gets a value. A store outside does nothing.
pub fn store(s: &mut [u64], i: usize, w: u64)
    ensures { s.new ≡ set s.old i w }
{
    if i < s.len() {
        s[i] = w;
    }
}

// Word i of the words that begin at a place of the map; i may be any number.
pub fn load_at(s: &[u64], place: usize, i: usize) -> u64
    requires { place ≤ scratch_size }
    ensures { result ≡ get_or s.now (place + i) 0 }
{
    if i < s.len() { load(s, place + i) } else { 0 }
}

pub fn store_at(s: &mut [u64], place: usize, i: usize, w: u64)
    requires { place ≤ scratch_size }
    ensures { s.new ≡ set s.old (place + i) w }
{
    if i < s.len() {
        store(s, place + i, w);
    }
}

// The words from a up to b become 0, all others stay.
pub fn wipe(s: &mut [u64], a: usize, b: usize)
    requires { (a ≤ b) × (b ≤ length s.old) }
    ensures { WipePost a b s.old s.new }
{
    for i in a..b {
        s[i] = 0;
    }
}

// "After every call but 31 the first .. scratch words are 0, later ones unchanged": 2,048 of them by document 02, E13.
pub fn clear(s: &mut [u64])
    requires { scratch_size ≤ length s.old }
    ensures { s.new ≡ replicate scratch_size 0 ++ drop scratch_size s.old }
{
    wipe(s, 0, WORDS);
}
