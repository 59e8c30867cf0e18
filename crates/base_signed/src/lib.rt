// 64-bit signed arithmetic: the bound of numbers, magnitudes, and laws. See proofs/.
#![tactic(auto)]

ghost use Rattle.std.specs.Prelude.{◌≡◌, nat_abs};

// "28: a number in the normal form with bound over 2^62."
pub const NUMBER_LIMIT: u64 = 4611686018427387904;

pub const NUMBER_MOST: i64 = NUMBER_LIMIT as i64;

pub const NUMBER_LEAST: i64 = -NUMBER_MOST;

// A cell is four signed bytes: its magnitude is at most 2^31.
pub const CELL_LIMIT: u64 = 2147483648;

pub const CELL_MOST: i64 = CELL_LIMIT as i64;

pub const CELL_LEAST: i64 = -CELL_MOST;

// Counts and places in a buffer stop at NUMBER_LIMIT, too.
pub const COUNT_LIMIT: usize = NUMBER_LIMIT as usize;

pub fn magnitude(x: i64) -> u64
    ensures { result ≡ nat_abs x }
{
    x.unsigned_abs()
}
