// The one reader of a lent tariff: whether it keeps its layout (44), how deep it reaches, and the charge for a draught. The steps are read off its bytes each
// time. c is a record's content.
#![tactic(auto)]

ghost use Rattle.std.specs.Prelude.{◌≡◌, ◌+◌, ◌*◌, ◌≤◌, ◌<◌, ◌^◌, max, pos, nat_abs};
ghost use Rattle.spec_encoding.specs.Record.{byte, four};
ghost use Rattle.spec_outcome.specs.Directions.{is_alone};
ghost use Rattle.spec_tariff.specs.Tariff.{metres_begun, charge, last_upper, in_reach};
ghost use Rattle.spec_tariff.specs.TariffBytes.{steps_from, tariff_of, rising, rates_fit, layout_fits, is_tariff};
ghost use Rattle.base_tariff.specs.Contract.{tariff_in, IsTariff, RatePost, ChargePost};

use base_bytes::{byte_at, two_at};
use base_signed::magnitude;
use base_tables::word_at;

// "a record of kind 22"
const KIND_TARIFF: usize = 22;

// Two bytes of length and two of kind stand before a record's content.
const HEADER: usize = 4;

// "one byte of steps (1 to 16); the steps"
const MOST_STEPS: usize = 16;

const FIRST_STEP: usize = 1;

// "each an upper draught .. and a rate .., each number four unsigned bytes"
const STEP_BYTES: usize = 8;

const RATE_AT: usize = 4;

const MINIMUM_BYTES: usize = 4;

// "Rates and minimum are at most 10,000,000."
const MOST_CENTS: u64 = 10000000;

// "metres begun are the draught divided by 100, rounded up"
const METRE: u64 = 100;

// The upper draught and the rate of step k.
fn upper(c: &[u8], k: usize) -> u64
    requires { k < 256 }
    ensures { (result ≡ four c.now (1 + 8 * k)) × (result < 2 ^ 32) }
{
    u64::from(word_at(c, FIRST_STEP + STEP_BYTES * k))
}

fn rate(c: &[u8], k: usize) -> u64
    requires { k < 256 }
    ensures { (result ≡ four c.now (1 + 8 * k + 4)) × (result < 2 ^ 32) }
{
    u64::from(word_at(c, FIRST_STEP + STEP_BYTES * k + RATE_AT))
}

// The minimum charge stands behind the steps.
fn minimum(c: &[u8], n: usize) -> u64
    requires { n < 256 }
    ensures { (result ≡ four c.now (1 + 8 * n)) × (result < 2 ^ 32) }
{
    u64::from(word_at(c, FIRST_STEP + STEP_BYTES * n))
}

// "rising strictly"
fn uppers_rise(c: &[u8], n: usize) -> bool
    requires { n < 256 }
    ensures { result ≡ rising (steps_from c.now 1 n) }
{
    for k in 1..n {
        let x = upper(c, k - 1);
        if upper(c, k) <= x {
            return false;
        }
    }
    true
}

fn rates_fit(c: &[u8], n: usize) -> bool
    requires { n < 256 }
    ensures { result ≡ rates_fit (steps_from c.now 1 n) }
{
    for k in 0..n {
        if MOST_CENTS < rate(c, k) {
            return false;
        }
    }
    true
}

fn layout_fits(c: &[u8]) -> bool
    ensures { result ≡ layout_fits c.now }
{
    let n = byte_at(c, 0);
    if n < 1 {
        return false;
    }
    if MOST_STEPS < n {
        return false;
    }
    if c.len() != FIRST_STEP + STEP_BYTES * n + MINIMUM_BYTES {
        return false;
    }
    let rise = uppers_rise(c, n);
    if !rise {
        return false;
    }
    let fit = rates_fit(c, n);
    if !fit {
        return false;
    }
    minimum(c, n) <= MOST_CENTS
}

// One whole record of kind 22, nothing behind it.
fn is_alone(l: &[u8]) -> bool
    ensures { result ≡ is_alone 22 l.now }
{
    if l.len() < HEADER {
        return false;
    }
    if two_at(l, 2) != KIND_TARIFF {
        return false;
    }
    l.len() == HEADER + two_at(l, 0)
}

// Not "a tariff outside these ranges or this layout", which is 44.
pub fn tariff_fits(l: &[u8]) -> bool
    ensures { result ≡ is_tariff l.now }
{
    if is_alone(l) {
        return layout_fits(&l[HEADER..]);
    }
    false
}

// The upper draught of "the last step".
fn last_upper(c: &[u8]) -> u64
    requires { 1 ≤ byte c.now 0 }
    ensures { (result ≡ last_upper (tariff_of c.now).steps) × (result < 2 ^ 32) }
{
    upper(c, byte_at(c, 0) - 1)
}

// How deep a tariff reaches.
pub fn reach(l: &[u8]) -> u64
    requires { IsTariff l.now }
    ensures { result ≡ last_upper (tariff_in l.now).steps }
{
    last_upper(&l[HEADER..])
}

// Not "a draught below 0 or above the last step", which is 46.
pub fn in_reach(deepest: u64, x: i64) -> bool
    ensures { result ≡ in_reach deepest x }
{
    if x < 0 {
        return false;
    }
    magnitude(x) <= deepest
}

// "The rate is that of the first step whose upper draught is not below the ship's"
fn rate_of(c: &[u8], h: u64) -> u64
    ensures { RatePost c.now h result }
{
    let n = byte_at(c, 0);
    for k in 0..n {
        if h <= upper(c, k) {
            return rate(c, k);
        }
    }
    0
}

fn metres_begun(h: u64) -> u64
    requires { h ≤ 2 ^ 63 }
    ensures { result ≡ metres_begun h }
{
    (h + (METRE - 1)) / METRE
}

// The charge by a content for the draught h, in centimetres: "the greater of rate times metres and minimum".
fn charge(c: &[u8], h: u64) -> u64
    requires { h ≤ 2 ^ 63 }
    ensures { ChargePost c.now h result }
{
    let x = rate_of(c, h);
    let m = metres_begun(h);
    (x * m).max(minimum(c, byte_at(c, 0)))
}

// The cents of a draught that 46 lets pass.
pub fn cents(l: &[u8], x: i64) -> i64
    requires { IsTariff l.now }
    ensures { result ≡ pos (charge (tariff_in l.now) (nat_abs x)) }
{
    charge(&l[HEADER..], magnitude(x)) as i64
}
