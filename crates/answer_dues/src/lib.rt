// The raw words of a bag of ships stand at the buffer's front: each draught gives way to its cents, and then the words are brought to their written form, so
// that the bag is ordered by what is charged.
#![tactic(auto)]

ghost use Rattle.std.specs.Prelude.{◌≡◌};
ghost use Rattle.base_tariff.specs.Contract.{tariff_in, IsTariff};
ghost use Rattle.answer_dues.specs.Contract.{charged_at, ChargePre, charged_from, SettleDuesPost};

use answer_canonical::finish;
use base_tariff::cents;

// Behind the count stand two words for each ship, its draught second.
const FIRST_DRAUGHT: usize = 2;

const SHIP_WORDS: usize = 2;

// The draught at p.
fn charge_at(t: &[u8], o: &mut [i64], p: usize)
    requires { IsTariff t.now }
    ensures { o.new ≡ charged_at (tariff_in t.now) p o.old }
{
    if p < o.len() {
        let x = o[p];
        o[p] = cents(t, x);
    }
}

// The draughts of n ships.
fn charge_all(t: &[u8], o: &mut [i64], n: usize)
    requires { ChargePre t.now n }
    ensures { o.new ≡ charged_from (tariff_in t.now) 2 n o.old }
{
    for k in 0..n {
        charge_at(t, o, FIRST_DRAUGHT + SHIP_WORDS * k);
    }
}

// How many words the dues of n ships have.
pub fn settle_dues(s: &[u64], t: &[u8], o: &mut [i64], n: usize) -> usize
    requires { ChargePre t.now n }
    ensures { SettleDuesPost s.now (tariff_in t.now) n o.old o.new result }
{
    charge_all(t, o, n);
    finish(s, o, 0).length
}
