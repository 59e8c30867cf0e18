// A call for the tests, beside the open ones and in an archive of its own: how many comparisons of two elements an answer takes.
#![tactic(auto)]

ghost use Rattle.form_prepared.specs.AnswerContract.{Asked};
ghost use Rattle.spec_outcome.specs.Acceptance.{lent_as};
ghost use Rattle.spec_outcome.specs.Gives.{Gives};
ghost use Rattle.test_comparisons.specs.ComparedAnswer.{compared};
ghost use Rattle.test_comparisons.specs.Contract.{CountPost};

use base_refusals::Refusal;
use engine::{Reply, admit, finish};
use loop_collect::raw_answer;

// Answers the accepted question in scratch by loops, and adds up the comparisons of all ordering steps, 2^64 - 1 at most.
fn count(s: &mut [u64], data: &[u8], out: &mut [i64]) -> Result<usize, Refusal>
    requires { Asked «data».now s.old }
    ensures { CountPost «data».now s.old out.old s.new out.new result }
{
    let g = raw_answer(s, data, out);
    if out.len() < g {
        return Err(Refusal::AnswerTooShort);
    }
    let r = answer_canonical::finish(s, out, 0);
    Ok(r.comparisons as usize)
}

// The number and the buffer of answering by loops; with 0 the length is the number of comparisons, 2^64 - 1 at most.
pub fn dislogha_comparisons(
    tables: &[u8],
    calendars: &[u8],
    question: &[u8],
    scratch: &mut [u64],
    answer: &mut [i64],
) -> Reply
    ensures { Gives (compared tables.now (lent_as calendars.now question.now) scratch.old answer.old) result.number result.length answer.new scratch.new }
{
    match admit(tables, calendars, question, scratch) {
        Err(reply) => reply,
        Ok(()) => {
            let counted = Reply::from(count(scratch, tables, answer));
            finish(scratch, counted.number, counted.length)
        }
    }
}
