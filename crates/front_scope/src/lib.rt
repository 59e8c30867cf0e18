// "24: a name out of scope or bound twice."
#![tactic(auto)]

ghost use Rattle.std.specs.Prelude.{◌≡◌, false, ◌&&◌, ◌+◌, ◌≤◌, ◌<◌, ◌^◌, length, get_or};
ghost use Rattle.base_scratch.specs.Map.{names as mostNames};
ghost use Rattle.front_words.specs.NodeWord.{node_kind_of, node_word};
ghost use Rattle.front_words.specs.NodeTree.{arg_at};
ghost use Rattle.front_scope.specs.Binders.{cleared, noted, binders_of};
ghost use Rattle.front_scope.specs.ScopePass.{names, Full, binds};
ghost use Rattle.front_scope.specs.PassContract.{TermPost, LeafPost, OperandsPost, ComprehensionPost, TermsPost, QualsPost, QualifierPost, NamesHoldPost};

use base_scratch::NAMES;
use base_syntax::{
    KIND_BINDING, KIND_CHOICE, KIND_COMPREHENSION, KIND_CONDITION, KIND_FIELD, KIND_GENERATOR,
    KIND_NAME, KIND_NOT, KIND_OPEN, KIND_OR, KIND_PLUS, KIND_RECORD,
};
use front_words::{put_binder, start_at};

fn kind_at(s: &[u64], i: usize) -> u64
    ensures { result ≡ node_kind_of (node_word s.now i) }
{
    front_words::kind(front_words::node_word(s, i))
}

fn arg_at(s: &[u64], i: usize) -> u64
    ensures { result ≡ arg_at s.now i }
{
    front_words::arg(front_words::node_word(s, i))
}

// `seen`: "a [false; 256] array of names seen, carried through the scope check and marked at each binder". `scope`: the
// names that hold here. `ok`: whether no rule is broken so far. The arrays are lent, so that a call does not copy them.

// A name is used.
fn used(scope: &[bool; NAMES], x: u64, ok: bool) -> bool
    requires { length scope.now ≡ mostNames }
    ensures { result ≡ ok && get_or scope.now x false }
{
    if x < NAMES as u64 {
        let i = x as usize;
        if scope[i] {
            return ok;
        }
    }
    false
}

// A name is bound.
fn bound(seen: &mut [bool; NAMES], scope: &mut [bool; NAMES], x: u64, ok: bool) -> bool
    requires { Full (names seen.old scope.old ok) }
    ensures { names seen.new scope.new result ≡ binds x (names seen.old scope.old ok) }
{
    if NAMES as u64 <= x {
        return false;
    }
    let i = x as usize;
    let twice = seen[i];
    seen[i] = true;
    scope[i] = true;
    if twice {
        return false;
    }
    ok
}

// Node 0, which nothing lies before: a name, or nothing to check.
fn leaf(s: &[u64], scope: &[bool; NAMES], ok: bool) -> bool
    requires { length scope.now ≡ mostNames }
    ensures { LeafPost s.now scope.now ok result }
{
    if kind_at(s, 0) == KIND_NAME {
        return used(scope, arg_at(s, 0), ok);
    }
    ok
}

// The term that ends at e.
#[cycle(comprehension_operands_qualifier_quals_term_terms)]
fn term(s: &[u64], e: usize, seen: &mut [bool; NAMES], scope: &mut [bool; NAMES], ok: bool) -> bool
    requires { Full (names seen.old scope.old ok) }
    ensures { TermPost s.now e (names seen.old scope.old ok) (names seen.new scope.new result) }
{
    if e <= 1 {
        return leaf(s, scope, ok);
    }
    let i = e - 1;
    match kind_at(s, i) {
        KIND_NAME => used(scope, arg_at(s, i), ok),
        KIND_FIELD => term(s, i, seen, scope, ok),
        KIND_RECORD => terms(s, start_at(s, i), i, seen, scope, ok),
        KIND_PLUS..=KIND_OR => operands(s, i, seen, scope, ok),
        KIND_NOT => term(s, i, seen, scope, ok),
        KIND_COMPREHENSION => comprehension(s, i, seen, scope, ok),
        KIND_CHOICE => terms(s, start_at(s, i), i, seen, scope, ok),
        KIND_OPEN => terms(s, start_at(s, i), i, seen, scope, ok),
        _ => ok,
    }
}

// The two operands of node i: the second ends at i, the first where the second begins.
#[cycle(comprehension_operands_qualifier_quals_term_terms)]
fn operands(
    s: &[u64],
    i: usize,
    seen: &mut [bool; NAMES],
    scope: &mut [bool; NAMES],
    ok: bool,
) -> bool
    requires { (1 ≤ i) × Full (names seen.old scope.old ok) }
    ensures { OperandsPost s.now i (names seen.old scope.old ok) (names seen.new scope.new result) }
{
    let b = start_at(s, i - 1);
    let k = term(s, b, seen, scope, ok);
    term(s, i, seen, scope, k)
}

// The qualifiers and the head of node i. "A name holds from the end of its qualifier to the end of its comprehension."
#[cycle(comprehension_operands_qualifier_quals_term_terms)]
fn comprehension(
    s: &[u64],
    i: usize,
    seen: &mut [bool; NAMES],
    scope: &mut [bool; NAMES],
    ok: bool,
) -> bool
    requires { (1 ≤ i) × Full (names seen.old scope.old ok) }
    ensures { ComprehensionPost s.now i (names seen.old scope.old ok) (names seen.new scope.new result) }
{
    let a = start_at(s, i);
    let b = start_at(s, i - 1);
    let before = *scope;
    let q = quals(s, a, b, seen, scope, ok);
    let h = term(s, i, seen, scope, q);
    *scope = before;
    h
}

// The terms between lo and e.
#[cycle(comprehension_operands_qualifier_quals_term_terms)]
fn terms(
    s: &[u64],
    lo: usize,
    e: usize,
    seen: &mut [bool; NAMES],
    scope: &mut [bool; NAMES],
    ok: bool,
) -> bool
    requires { Full (names seen.old scope.old ok) }
    ensures { TermsPost s.now lo e (names seen.old scope.old ok) (names seen.new scope.new result) }
{
    if e <= lo {
        return ok;
    }
    let b = start_at(s, e - 1);
    let k = terms(s, lo, b, seen, scope, ok);
    term(s, e, seen, scope, k)
}

// The qualifiers between lo and e.
#[cycle(comprehension_operands_qualifier_quals_term_terms)]
fn quals(
    s: &[u64],
    lo: usize,
    e: usize,
    seen: &mut [bool; NAMES],
    scope: &mut [bool; NAMES],
    ok: bool,
) -> bool
    requires { Full (names seen.old scope.old ok) }
    ensures { QualsPost s.now lo e (names seen.old scope.old ok) (names seen.new scope.new result) }
{
    if e <= lo {
        return ok;
    }
    let b = start_at(s, e - 1);
    let k = quals(s, lo, b, seen, scope, ok);
    qualifier(s, e - 1, seen, scope, k)
}

// The qualifier that is node i: its term, then the name that it binds.
#[cycle(comprehension_operands_qualifier_quals_term_terms)]
fn qualifier(
    s: &[u64],
    i: usize,
    seen: &mut [bool; NAMES],
    scope: &mut [bool; NAMES],
    ok: bool,
) -> bool
    requires { Full (names seen.old scope.old ok) }
    ensures { QualifierPost s.now i (names seen.old scope.old ok) (names seen.new scope.new result) }
{
    match kind_at(s, i) {
        KIND_GENERATOR => {
            let k = term(s, i, seen, scope, ok);
            bound(seen, scope, arg_at(s, i), k)
        }
        KIND_BINDING => {
            let k = term(s, i, seen, scope, ok);
            bound(seen, scope, arg_at(s, i), k)
        }
        KIND_CONDITION => term(s, i, seen, scope, ok),
        _ => ok,
    }
}

// Whether the names of the tree that ends at n hold.
pub fn names_hold(s: &[u64], n: usize) -> bool
    ensures { NamesHoldPost s.now n result }
{
    let mut seen = [false; NAMES];
    let mut scope = [false; NAMES];
    term(s, n, &mut seen, &mut scope, true)
}

// No name has a binder.
fn clear(s: &mut [u64])
    ensures { s.new ≡ cleared s.old mostNames }
{
    for x in 0..NAMES {
        put_binder(s, x, 0);
    }
}

// Node i is noted as the binder of its name, if it binds one.
fn note(s: &mut [u64], i: usize)
    requires { i + 1 < 2 ^ 64 }
    ensures { s.new ≡ noted s.old i }
{
    let k = kind_at(s, i);
    let x = arg_at(s, i);
    if k < KIND_GENERATOR {
        return;
    }
    if KIND_BINDING < k {
        return;
    }
    if x < NAMES as u64 {
        put_binder(s, x as usize, i as u64 + 1);
    }
}

// Each name's binder among the first n nodes.
pub fn binders(s: &mut [u64], n: usize)
    ensures { s.new ≡ binders_of s.old n }
{
    clear(s);
    for i in 0..n {
        note(s, i);
    }
}
