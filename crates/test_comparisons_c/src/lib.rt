// The tests' count of comparisons as C sees it.
#![tactic(auto)]

ghost use Rattle.spec_outcome.specs.Acceptance.{lent_as};
ghost use Rattle.spec_outcome.specs.Gives.{Gives};
ghost use Rattle.test_comparisons.specs.ComparedAnswer.{compared};

use engine::Reply;

#[unsafe(no_mangle)]
pub extern "C" fn dislogha_comparisons(
    tables: &[u8],
    calendars: &[u8],
    question: &[u8],
    scratch: &mut [u64],
    answer: &mut [i64],
) -> Reply
    ensures { Gives (compared tables.now (lent_as calendars.now question.now) scratch.old answer.old) result.number result.length answer.new scratch.new }
{
    test_comparisons::dislogha_comparisons(tables, calendars, question, scratch, answer)
}
