// Answering with a tariff, by loops: an accepted question stands in scratch, the dues on its answer go to the buffer. Its type is asked first (45), then
// whether the words have room (32), then each draught (46), and only then is a word written.
#![tactic(auto)]

ghost use Rattle.base_tariff.specs.Contract.{tariff_in, IsTariff};
ghost use Rattle.form_prepared.specs.AnswerContract.{Asked};
ghost use Rattle.loop_dues.specs.Contract.{DuesPost};

use answer_dues::settle_dues;
use answer_ships::gives_ships;
use base_refusals::Refusal;
use base_syntax::Monoid;
use base_tariff::reach;
use loop_collect::write;
use loop_draughts::{Judged, judge};

// Two words for each ship, and their count.
const SHIP_WORDS: usize = 2;

pub fn answer(s: &mut [u64], data: &[u8], tariff: &[u8], out: &mut [i64]) -> Result<usize, Refusal>
    requires { Asked «data».now s.old × IsTariff tariff.now }
    ensures { DuesPost (tariff_in tariff.now) «data».now s.old out.old s.new out.new result }
{
    let fits = gives_ships(s);
    if !fits {
        return Err(Refusal::NotShipsAndDraughts);
    }
    let none = Judged {
        count: Monoid::no_elements(),
        within: true,
    };
    let e = judge(s, data, reach(tariff), 1, none);
    let n = e.count;
    let g = 1 + SHIP_WORDS * n;
    if out.len() < g {
        return Err(Refusal::AnswerTooShort);
    }
    let within = e.within;
    if !within {
        return Err(Refusal::DraughtOutOfRange);
    }
    write(s, data, out, g, 0, 0);
    Ok(settle_dues(s, tariff, out, n))
}
