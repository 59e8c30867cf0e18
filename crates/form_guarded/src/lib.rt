// Operators and monoids on any words. Where the operands' magnitudes allow a result beyond 2^62, the result is 0. Refusal 28 keeps
// accepted questions from this, but scratch may hold anything.
#![tactic(auto)]

ghost use Rattle.std.specs.Prelude.{◌≡◌, ◌+◌, ◌*◌, ◌<◌, ◌^◌, leb};
ghost use Rattle.base_syntax.specs.MonoidWord.{monoid_of};
ghost use Rattle.base_syntax.specs.Numbers.{bin_of};
ghost use Rattle.form_arith.specs.WordSorts.{operate_bound};
ghost use Rattle.form_guarded.specs.GuardedWords.{merge_room, OperatePost, MergePost};

use base_signed::{CELL_LIMIT, NUMBER_LIMIT, magnitude};
use base_syntax::{BinOp, Monoid};

fn sum_fits(x: u64, y: u64) -> bool
    ensures { result ≡ leb (x + y) (2 ^ 62) }
{
    if NUMBER_LIMIT < x {
        return false;
    }
    y <= NUMBER_LIMIT - x
}

// Without a division where both are cells' magnitudes.
fn product_fits(x: u64, y: u64) -> bool
    ensures { result ≡ leb (x * y) (2 ^ 62) }
{
    if x <= CELL_LIMIT {
        if y <= CELL_LIMIT {
            return true;
        }
    }
    if y == 0 {
        return true;
    }
    x <= NUMBER_LIMIT / y
}

#[tactic(auto, unfolding(spec_normal_form::specs::Bound::bin_bound))]
fn bounded(o: BinOp, x: u64, y: u64) -> bool
    ensures { result ≡ leb (operate_bound (bin_of o) x y) (2 ^ 62) }
{
    match o {
        BinOp::Plus => sum_fits(x, y),
        BinOp::Minus => sum_fits(x, y),
        BinOp::Times => product_fits(x, y),
        BinOp::Equal => true,
        BinOp::Less => true,
        BinOp::And => true,
        BinOp::Or => true,
    }
}

pub fn operate(o: BinOp, a: i64, b: i64) -> i64
    ensures { OperatePost o a b result }
{
    if bounded(o, magnitude(a), magnitude(b)) {
        return form_arith::operate(o, a, b);
    }
    0
}

fn mergeable(m: Monoid, x: u64, y: u64) -> bool
    ensures { result ≡ leb (merge_room (monoid_of m) x y) (2 ^ 62) }
{
    match m {
        Monoid::List => sum_fits(x, y),
        Monoid::Bag => sum_fits(x, y),
        Monoid::Set => sum_fits(x, y),
        Monoid::Sum => sum_fits(x, y),
        Monoid::Max => true,
        Monoid::Some => true,
        Monoid::All => true,
        Monoid::Min => true,
    }
}

pub fn merge(m: Monoid, a: i64, b: i64) -> i64
    ensures { MergePost m a b result }
{
    if mergeable(m, magnitude(a), magnitude(b)) {
        return m.merge(a, b);
    }
    0
}
