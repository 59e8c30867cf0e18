// The raw words of an accepted question's value stand at the buffer's front, whichever way they came there: they are brought to
// their written form, and that settles the question.
#![tactic(auto)]

ghost use Rattle.answer_settle.specs.SettleContract.{SettlePost};

use answer_canonical::finish;

// How many words the answer has.
pub fn settle(s: &[u64], out: &mut [i64]) -> usize
    ensures { SettlePost s.now out.old out.new result }
{
    finish(s, out, 0).length
}
