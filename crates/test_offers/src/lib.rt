// A call for the tests, beside the open ones and in an archive of its own: how many rows a pass offers.
#![tactic(auto)]

ghost use Rattle.std.specs.Prelude.{[]};
ghost use Rattle.exec_batch.specs.Contract.{Waiting};
ghost use Rattle.form_prepared.specs.AnswerContract.{Asked};
ghost use Rattle.spec_outcome.specs.Acceptance.{lent_as};
ghost use Rattle.spec_outcome.specs.Gives.{Gives};
ghost use Rattle.test_offers.specs.OfferedRows.{offered};
ghost use Rattle.test_offers.specs.Contract.{CountPost, RowsOfPost};

use engine::{Reply, admit, finish};
use exec_batch::portion;
use exec_pass::start;
use plan_links::link;
use plan_marks::make_plan;

// Offers the rows that are left, one at a time: nothing is written, and the question's words stay. Answers how many they are,
// 2^64 - 1 at most.
fn count(s: &mut [u64], data: &[u8], out: &mut [i64], code: usize) -> u64
    requires { Waiting «data».now s.old out.old 0 code }
    ensures { CountPost «data».now s.old out.old code s.new out.new result }
{
    let mut at = code;
    for n in 0..u64::MAX {
        if at == 1 {
            return n;
        }
        at = portion(s, data, out, 0, at, 1);
    }
    u64::MAX
}

// How many rows a pass offers over the accepted question in scratch, 2^64 - 1 at most: it is planned, linked and run. With
// limit 0 nothing is written, so any buffer does. Words from 2,048 on stay.
fn rows_of(s: &mut [u64], data: &[u8]) -> u64
    requires { Asked «data».now s.old }
    ensures { RowsOfPost «data».now s.old s.new result }
{
    make_plan(s);
    let first = link(s);
    let mut none = [0i64; 1];
    let code = start(s, data, &mut none, 0, first);
    count(s, data, &mut none, code)
}

// The checker's number; with 0 the length is the number of rows that a pass offers, 2^64 - 1 at most.
pub fn dislogha_offered_rows(
    tables: &[u8],
    calendars: &[u8],
    question: &[u8],
    scratch: &mut [u64],
) -> Reply
    ensures { Gives (offered tables.now (lent_as calendars.now question.now) scratch.old) result.number result.length [] scratch.new }
{
    match admit(tables, calendars, question, scratch) {
        Err(reply) => reply,
        Ok(()) => {
            let n = rows_of(scratch, tables);
            finish(scratch, 0, n)
        }
    }
}
