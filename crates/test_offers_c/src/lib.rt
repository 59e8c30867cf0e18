// The tests' count of offered rows as C sees it.
#![tactic(auto)]

ghost use Rattle.std.specs.Prelude.{[]};
ghost use Rattle.spec_outcome.specs.Acceptance.{lent_as};
ghost use Rattle.spec_outcome.specs.Gives.{Gives};
ghost use Rattle.test_offers.specs.OfferedRows.{offered};

use engine::Reply;

#[unsafe(no_mangle)]
pub extern "C" fn dislogha_offered_rows(
    tables: &[u8],
    calendars: &[u8],
    question: &[u8],
    scratch: &mut [u64],
) -> Reply
    ensures { Gives (offered tables.now (lent_as calendars.now question.now) scratch.old) result.number result.length [] scratch.new }
{
    test_offers::dislogha_offered_rows(tables, calendars, question, scratch)
}
