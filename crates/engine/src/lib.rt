// The open calls.
#![tactic(auto)]

ghost use Rattle.std.specs.Prelude.{◌≡◌, [], ◌≤◌, ◌<◌, length};
ghost use Rattle.spec_calendar.specs.Dates.{on};
ghost use Rattle.spec_hours.specs.Calls.{first_opened, day_numbered, dated};
ghost use Rattle.base_refusals.specs.Numbers.{number_of, outcome_number, outcome_length};
ghost use Rattle.base_dates.specs.Contract.{day_in, date_in};
ghost use Rattle.base_hours.specs.Contract.{open_in};
ghost use Rattle.spec_outcome.specs.Acceptance.{lent_as};
ghost use Rattle.spec_outcome.specs.Outcome.{by_loops, by_plan, checked, plan_lines, scratch_words};
ghost use Rattle.spec_outcome.specs.Gives.{Gives};
ghost use Rattle.spec_outcome.specs.Directions.{table_to_columns, table_to_rows, Fills};
ghost use Rattle.spec_logs.specs.PairLogs.{pair_logs};
ghost use Rattle.spec_tariff.specs.WithTariff.{with_tariff};
ghost use Rattle.spec_outages.specs.Outages.{count_outages};
ghost use Rattle.engine.specs.Replies.{AdmitPost, Replies};
ghost use Rattle.engine.specs.Portions.{BeginPost, PortionPost, Says, EndedPost};
ghost use Rattle.engine.specs.Rota.{seat_of, SeatPost, TwoSeatsPost, RoundPost};

use base_dates::{DateTold, DayTold};
use base_hours::OpenTold;
use base_refusals::Refusal;
use base_rota::rota_fits;
use base_scratch::WORDS;
use base_tariff::tariff_fits;
use exec_portions::Progress;

// "47, a portion of 0 or above 65,535"
const MOST_ROWS: u64 = 65535;

// "An answer is 0 and its length ..; a refusal its number and length 0."
#[repr(C)]
#[derive(Clone, Copy)]
pub struct Reply {
    pub number: u64,
    pub length: u64,
}

impl From<Result<usize, Refusal>> for Reply {
    ghost from_gives = { λ outcome reply. (reply.number ≡ outcome_number outcome) × (reply.length ≡ outcome_length outcome) };

    fn from(outcome: Result<usize, Refusal>) -> Reply {
        match outcome {
            Ok(n) => Reply {
                number: 0,
                length: n as u64,
            },
            Err(e) => Reply {
                number: e.number(),
                length: 0,
            },
        }
    }
}

// How every call but 31 ends.
pub fn finish(s: &mut [u64], k: u64, n: u64) -> Reply
    requires { scratch_words ≤ length s.old }
    ensures { Replies s.old s.new k n result }
{
    base_scratch::clear(s);
    Reply {
        number: k,
        length: n,
    }
}

// The same with an outcome.
fn conclude(s: &mut [u64], outcome: Result<usize, Refusal>) -> Reply
    requires { scratch_words ≤ length s.old }
    ensures { Replies s.old s.new (outcome_number outcome) (outcome_length outcome) result }
{
    let reply = Reply::from(outcome);
    finish(s, reply.number, reply.length)
}

// How every call begins: the checker's reply where that is a refusal, else an accepted question in scratch. "31: scratch under .. words.
// Scratch stays untouched": under 2,048 by document 02, E13. Then the checks. Scratch keeps the calendars as long as the question stands in it.
pub fn admit(
    tables: &[u8],
    calendars: &[u8],
    question: &[u8],
    scratch: &mut [u64],
) -> Result<(), Reply>
    ensures { AdmitPost tables.now (lent_as calendars.now question.now) scratch.old scratch.new result }
{
    if scratch.len() < WORDS {
        return Err(Reply::from(Err(Refusal::ScratchTooShort)));
    }
    match front_end::prepare(tables, calendars, question, scratch) {
        Ok(()) => Ok(()),
        Err(e) => Err(conclude(scratch, Err(e))),
    }
}

// "The checker takes no answer buffer and ends after 28."
pub fn dislogha_check(
    tables: &[u8],
    calendars: &[u8],
    question: &[u8],
    scratch: &mut [u64],
) -> Reply
    ensures { Gives (checked tables.now (lent_as calendars.now question.now) scratch.old) result.number result.length [] scratch.new }
{
    match admit(tables, calendars, question, scratch) {
        Err(reply) => reply,
        Ok(()) => conclude(scratch, Ok(0)),
    }
}

// By loops: the value of the question as typed.
pub fn dislogha_answer_by_loops(
    tables: &[u8],
    calendars: &[u8],
    question: &[u8],
    scratch: &mut [u64],
    answer: &mut [i64],
) -> Reply
    ensures { Gives (by_loops tables.now (lent_as calendars.now question.now) scratch.old answer.old) result.number result.length answer.new scratch.new }
{
    match admit(tables, calendars, question, scratch) {
        Err(reply) => reply,
        Ok(()) => {
            let outcome = loop_answer::answer(scratch, tables, answer);
            conclude(scratch, outcome)
        }
    }
}

// Over every subset of a table's rows: how many give true and how many false.
pub fn dislogha_count_outages(
    tables: &[u8],
    calendars: &[u8],
    question: &[u8],
    table: u64,
    scratch: &mut [u64],
    answer: &mut [i64],
) -> Reply
    ensures { Gives (count_outages tables.now (lent_as calendars.now question.now) table scratch.old answer.old) result.number result.length answer.new scratch.new }
{
    match admit(tables, calendars, question, scratch) {
        Err(reply) => reply,
        Ok(()) => {
            let outcome = loop_outages::count(scratch, tables, table as usize, answer);
            conclude(scratch, outcome)
        }
    }
}

// By plan: the value of the plan under the operators' definitions.
pub fn dislogha_answer_by_plan(
    tables: &[u8],
    calendars: &[u8],
    question: &[u8],
    scratch: &mut [u64],
    answer: &mut [i64],
) -> Reply
    ensures { Gives (by_plan tables.now (lent_as calendars.now question.now) scratch.old answer.old) result.number result.length answer.new scratch.new }
{
    match admit(tables, calendars, question, scratch) {
        Err(reply) => reply,
        Ok(()) => {
            let outcome = exec_answer::answer(scratch, tables, answer);
            conclude(scratch, outcome)
        }
    }
}

// "One more call writes the plan's lines .. into a lent byte buffer; its length is in bytes."
pub fn dislogha_plan_lines(
    tables: &[u8],
    calendars: &[u8],
    question: &[u8],
    scratch: &mut [u64],
    text: &mut [u8],
) -> Reply
    ensures { Gives (plan_lines tables.now (lent_as calendars.now question.now) scratch.old text.old) result.number result.length text.new scratch.new }
{
    match admit(tables, calendars, question, scratch) {
        Err(reply) => reply,
        Ok(()) => {
            let outcome = plan_lines::plan_lines(scratch, text);
            conclude(scratch, outcome)
        }
    }
}

// What a portion says: whether its question is finished, how many rows it offered, and number and length as in a reply. Not finished
// and number 0: unfinished; not finished and another number: refused.
#[repr(C)]
#[derive(Clone, Copy)]
pub struct Portioned {
    pub finished: u64,
    pub offered: u64,
    pub number: u64,
    pub length: u64,
}

// "One call begins, with all refusals to 28." Then scratch holds the unfinished question.
pub fn dislogha_begin(
    tables: &[u8],
    calendars: &[u8],
    question: &[u8],
    scratch: &mut [u64],
) -> Reply
    ensures { BeginPost scratch_words tables.now (lent_as calendars.now question.now) scratch.old scratch.new result }
{
    match admit(tables, calendars, question, scratch) {
        Err(reply) => reply,
        Ok(()) => {
            exec_portions::begin(scratch);
            Reply::from(Ok(0))
        }
    }
}

// What is told of a seat that is not visited.
fn idle() -> Portioned
    ensures { Says result 0 0 0 0 }
{
    Portioned {
        finished: 0,
        offered: 0,
        number: 0,
        length: 0,
    }
}

// A refused portion: no row is offered.
fn declined(e: Refusal) -> Portioned
    ensures { Says result 0 0 (number_of e) 0 }
{
    Portioned {
        finished: 0,
        offered: 0,
        number: e.number(),
        length: 0,
    }
}

// The last portion of a question.
fn ended(s: &mut [u64], rows: u64, outcome: Result<usize, Refusal>) -> Portioned
    requires { scratch_words ≤ length s.old }
    ensures { EndedPost s.old s.new rows (outcome_number outcome) (outcome_length outcome) result }
{
    let x = conclude(s, outcome);
    Portioned {
        finished: 1,
        offered: rows,
        number: x.number,
        length: x.length,
    }
}

// "Each later one offers exactly a given number of rows .. and says unfinished, or all that remain, if no more, and says finished
// and how many." Scratch has the calendars since the question was begun; they are lent to every call that runs one.
pub fn dislogha_portion(
    tables: &[u8],
    calendars: &[u8],
    scratch: &mut [u64],
    answer: &mut [i64],
    rows: u64,
) -> Portioned
    ensures { PortionPost scratch_words tables.now rows scratch.old answer.old scratch.new answer.new result }
{
    if rows == 0 {
        return declined(Refusal::RowsOutOfRange);
    }
    if MOST_ROWS < rows {
        return declined(Refusal::RowsOutOfRange);
    }
    if scratch.len() < WORDS {
        return declined(Refusal::ScratchTooShort);
    }
    match exec_portions::advance(scratch, tables, answer, rows as usize) {
        Progress::Nothing => declined(Refusal::NothingUnfinished),
        Progress::Unfinished => Portioned {
            finished: 0,
            offered: rows,
            number: 0,
            length: 0,
        },
        Progress::Short(k) => ended(scratch, k as u64, Err(Refusal::AnswerTooShort)),
        Progress::Length(k, n) => ended(scratch, k as u64, Ok(n)),
    }
}

// A round at seat i: a portion of its quota, if the rota has that seat.
fn seat(
    tables: &[u8],
    calendars: &[u8],
    quotas: &[u64],
    i: usize,
    s: &mut [u64],
    o: &mut [i64],
) -> Portioned
    ensures { SeatPost scratch_words tables.now quotas.now i (seat_of s.old o.old) (seat_of s.new o.new) result }
{
    if quotas.len() <= i {
        return idle();
    }
    let q = quotas[i];
    dislogha_portion(tables, calendars, s, o, q)
}

// What is told of two seats.
#[derive(Clone, Copy)]
pub struct TwoSeats {
    pub first: Portioned,
    pub second: Portioned,
}

// A round at seat i and at the next.
fn two_seats(
    tables: &[u8],
    calendars: &[u8],
    quotas: &[u64],
    i: usize,
    s0: &mut [u64],
    o0: &mut [i64],
    s1: &mut [u64],
    o1: &mut [i64],
) -> TwoSeats
    requires { i < 4 }
    ensures { TwoSeatsPost scratch_words tables.now quotas.now i (seat_of s0.old o0.old) (seat_of s1.old o1.old) (seat_of s0.new o0.new) (seat_of s1.new o1.new) result }
{
    let first = seat(tables, calendars, quotas, i, s0, o0);
    let second = seat(tables, calendars, quotas, i + 1, s1, o1);
    TwoSeats { first, second }
}

// What a round tells: 0 or 49, and what each seat's portion said.
#[repr(C)]
#[derive(Clone, Copy)]
pub struct Round {
    pub number: u64,
    pub first: Portioned,
    pub second: Portioned,
    pub third: Portioned,
    pub fourth: Portioned,
}

// "A round visits the seats in order." Of a refused rota nothing is told but 49.
pub fn dislogha_round(
    tables: &[u8],
    calendars: &[u8],
    quotas: &[u64],
    scratch1: &mut [u64],
    answer1: &mut [i64],
    scratch2: &mut [u64],
    answer2: &mut [i64],
    scratch3: &mut [u64],
    answer3: &mut [i64],
    scratch4: &mut [u64],
    answer4: &mut [i64],
) -> Round
    ensures { RoundPost scratch_words tables.now quotas.now (seat_of scratch1.old answer1.old) (seat_of scratch2.old answer2.old) (seat_of scratch3.old answer3.old) (seat_of scratch4.old answer4.old) (seat_of scratch1.new answer1.new) (seat_of scratch2.new answer2.new) (seat_of scratch3.new answer3.new) (seat_of scratch4.new answer4.new) result }
{
    let fits = rota_fits(quotas);
    if !fits {
        let nothing = idle();
        return Round {
            number: Refusal::RotaOutOfRange.number(),
            first: nothing,
            second: nothing,
            third: nothing,
            fourth: nothing,
        };
    }
    let a = two_seats(
        tables, calendars, quotas, 0, scratch1, answer1, scratch2, answer2,
    );
    let b = two_seats(
        tables, calendars, quotas, 2, scratch3, answer3, scratch4, answer4,
    );
    let first = a.first;
    let second = a.second;
    let third = b.first;
    let fourth = b.second;
    Round {
        number: 0,
        first,
        second,
        third,
        fourth,
    }
}

// "Give both directions into a lent buffer": a table's record of kind 20 as kind 23.
pub fn dislogha_table_to_columns(source: &[u8], target: &mut [u8]) -> Reply
    ensures { Fills (table_to_columns source.now target.old) result.number result.length target.new }
{
    Reply::from(base_columns::to_columns(source, target))
}

// And of kind 23 as kind 20: "each undoes the other".
pub fn dislogha_table_to_rows(source: &[u8], target: &mut [u8]) -> Reply
    ensures { Fills (table_to_rows source.now target.old) result.number result.length target.new }
{
    Reply::from(base_columns::to_rows(source, target))
}

// "Ship's log against quay log": the pairs and singles of two tables as three records, one behind the other.
pub fn dislogha_pair_logs(
    tables: &[u8],
    first: u64,
    second: u64,
    tolerance: u64,
    target: &mut [u8],
) -> Reply
    ensures { Fills (pair_logs tables.now first second tolerance target.old) result.number result.length target.new }
{
    Reply::from(base_logs::pair_logs(tables, first, second, tolerance, target))
}

// "Answering with a tariff": the value of the question as typed, a bag of ships with their draughts, as the bag of their dues. "44 .., after 31", before the
// data.
pub fn dislogha_answer_with_tariff(
    tables: &[u8],
    calendars: &[u8],
    question: &[u8],
    tariff: &[u8],
    scratch: &mut [u64],
    answer: &mut [i64],
) -> Reply
    ensures { Gives (with_tariff tariff.now tables.now (lent_as calendars.now question.now) scratch.old answer.old) result.number result.length answer.new scratch.new }
{
    if scratch.len() < WORDS {
        return Reply::from(Err(Refusal::ScratchTooShort));
    }
    let fits = tariff_fits(tariff);
    if !fits {
        return conclude(scratch, Err(Refusal::TariffOutOfRange));
    }
    match admit(tables, calendars, question, scratch) {
        Err(reply) => reply,
        Ok(()) => {
            let outcome = loop_dues::answer(scratch, tables, tariff, answer);
            conclude(scratch, outcome)
        }
    }
}

// "a call giving the first open minute at or after a given signed one, or none exactly if no such minute exists"
pub fn dislogha_first_open(calendars: &[u8], calendar: u64, minute: i64) -> OpenTold
    ensures { open_in result ≡ first_opened calendars.now calendar minute }
{
    base_hours::first_open(calendars, calendar, minute)
}

// "from year, month, day to day number"
pub fn dislogha_day_number(year: u64, month: u64, day: u64) -> DayTold
    ensures { day_in result ≡ day_numbered (on year month day) }
{
    base_dates::day_number(year, month, day)
}

// "and back"
pub fn dislogha_date(day: u64) -> DateTold
    ensures { date_in result ≡ dated day }
{
    base_dates::date_of(day)
}
