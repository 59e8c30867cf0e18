// The nodes of a question in scratch, and the binders of its names: the only readers and writers of these words.
#![tactic(auto)]

ghost use Rattle.std.specs.Prelude.{◌≡◌, ◌+◌, ◌≤◌, ◌<◌, set};
ghost use Rattle.base_scratch.specs.Map.{nodes_at, names};
ghost use Rattle.front_words.specs.Binders.{binder_word, put_binder};
ghost use Rattle.front_words.specs.NodeWord.{node_kind_of, arg_of, start_of, depth_of, pack, node_word};
ghost use Rattle.front_words.specs.NodeTree.{start_at};

use base_scratch::{BINDERS, NAMES, NODES, load, load_at, store, store_at};

// A node's word: kind, argument, the first node of its subtree, depth; so many of each, and where the last two begin.
const KINDS: u64 = 32;

const ARGUMENTS: u64 = 8589934592;

const FIRSTS: u64 = 512;

const DEPTHS: u64 = 64;

const START_AT: u64 = 274877906944;

const DEPTH_AT: u64 = 140737488355328;

// The word of node i; 0 where the scratch has none.
pub fn node_word(s: &[u64], i: usize) -> u64
    ensures { result ≡ node_word s.now i }
{
    load_at(s, NODES, i)
}

pub fn kind(w: u64) -> u64
    ensures { result ≡ node_kind_of w }
{
    w % KINDS
}

pub fn arg(w: u64) -> u64
    ensures { result ≡ arg_of w }
{
    w / KINDS % ARGUMENTS
}

pub fn start(w: u64) -> u64
    ensures { result ≡ start_of w }
{
    w / START_AT % FIRSTS
}

pub fn depth(w: u64) -> u64
    ensures { result ≡ depth_of w }
{
    w / DEPTH_AT % DEPTHS
}

// Where the subtree of node i begins, which is where the node before it ends; i where the word says a later node.
pub fn start_at(s: &[u64], i: usize) -> usize
    ensures { (result ≡ start_at s.now i) × (result ≤ i) }
{
    let b = start(node_word(s, i)) as usize;
    if b < i { b } else { i }
}

// A node's word of its parts.
pub fn packed(k: u64, a: u64, start: u64, depth: u64) -> u64
    requires { (k < 32) × (a < 8589934592) × (start < 512) × (depth < 64) }
    ensures { result ≡ pack k a start depth }
{
    k + KINDS * (a + ARGUMENTS * (start + FIRSTS * depth))
}

// Node i gets its word. A store outside the scratch does nothing.
pub fn put_node(s: &mut [u64], i: usize, k: u64, a: u64, start: u64, depth: u64)
    requires { (k < 32) × (a < 8589934592) × (start < 512) × (depth < 64) }
    ensures { s.new ≡ set s.old (nodes_at + i) (pack k a start depth) }
{
    let w = packed(k, a, start, depth);
    store_at(s, NODES, i, w);
}

// One more than the number of the node that binds name x; 0 where none does.
pub fn binder_word(s: &[u64], x: u64) -> u64
    ensures { result ≡ binder_word s.now x }
{
    let i = x as usize;
    if i < NAMES { load(s, BINDERS + i) } else { 0 }
}

pub fn put_binder(s: &mut [u64], x: usize, w: u64)
    requires { x < names }
    ensures { s.new ≡ put_binder s.old x w }
{
    store(s, BINDERS + x, w);
}
