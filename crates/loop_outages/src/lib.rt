// Outages counted: an accepted question stands in scratch and is answered by loops over each subset of one table's rows.
#![tactic(auto)]

ghost use Rattle.std.specs.Prelude.{◌≡◌, ◌≤◌, ◌<◌, ◌^◌};
ghost use Rattle.form_prepared.specs.AnswerContract.{Asked};
ghost use Rattle.loop_outages.specs.Contract.{truth_asked, countable_in, HoldsPre, HoldsPost, TruthsPre, TruthsPost, CountPost};

use base_refusals::Refusal;
use base_scratch::{DESCRIPTIONS, store};
use base_tables::{SUBSET_ROWS, present, rows, table, without};
use form_arith::{Sort, sort_of};
use form_words::monoid_of;
use loop_scalar::scalar;

// "The counts, true first, are the answer's two words."
pub const ANSWER_WORDS: usize = 2;

// "a question whose monoid is some or all"
fn asks_truth(s: &[u64]) -> bool
    ensures { result ≡ truth_asked s.now }
{
    match monoid_of(s, 0) {
        Some(m) => sort_of(m) == Sort::Truth,
        None => false,
    }
}

// "56, an absent table or one with more than 12 rows": not so.
fn countable(s: &[u64], k: usize) -> bool
    ensures { result ≡ countable_in s.now k }
{
    if present(s, k) {
        return rows(table(s, k)) <= SUBSET_ROWS;
    }
    false
}

// How many subsets n rows have.
fn subsets(n: usize) -> u64
    requires { n ≤ 12 }
    ensures { (result ≡ 2 ^ n) × (result ≤ 4096) }
{
    1 << n
}

// Whether the question is true over the rows of table k that m does not leave out, where w describes them all: 1, else 0.
fn holds(s: &mut [u64], data: &[u8], k: usize, w: u64, m: u64) -> u64
    requires { HoldsPre «data».now s.old k w m }
    ensures { HoldsPost «data».now s.old k w m s.new result }
{
    store(s, DESCRIPTIONS + k, without(w, m));
    if scalar(s, data, 0, Sort::Truth) == 0 {
        return 0;
    }
    1
}

// Over how many of the n subsets of its rows.
fn truths(s: &mut [u64], data: &[u8], k: usize, n: u64) -> u64
    requires { TruthsPre «data».now s.old k n }
    ensures { TruthsPost «data».now s.old k n s.new result }
{
    let w = table(s, k);
    let mut t = 0;
    for m in 0..n {
        t += holds(s, data, k, w, m);
    }
    t
}

// The two counts in the answer buffer. Answers how many words they are.
pub fn count(s: &mut [u64], data: &[u8], k: usize, out: &mut [i64]) -> Result<usize, Refusal>
    requires { Asked «data».now s.old }
    ensures { CountPost «data».now s.old k out.old s.new out.new result }
{
    if !asks_truth(s) {
        return Err(Refusal::NeitherSomeNorAll);
    }
    if !countable(s, k) {
        return Err(Refusal::OutageTableOutOfRange);
    }
    if out.len() < ANSWER_WORDS {
        return Err(Refusal::AnswerTooShort);
    }
    let n = subsets(rows(table(s, k)));
    let t = truths(s, data, k, n);
    out[0] = t as i64;
    out[1] = (n - t) as i64;
    Ok(ANSWER_WORDS)
}
