// The open calls as C sees them: the archive's exports.
#![tactic(auto)]

ghost use Rattle.std.specs.Prelude.{◌≡◌, []};
ghost use Rattle.spec_calendar.specs.Dates.{on};
ghost use Rattle.spec_hours.specs.Calls.{first_opened, day_numbered, dated};
ghost use Rattle.base_dates.specs.Contract.{day_in, date_in};
ghost use Rattle.base_hours.specs.Contract.{open_in};
ghost use Rattle.spec_outcome.specs.Acceptance.{lent_as};
ghost use Rattle.spec_outcome.specs.Outcome.{by_loops, by_plan, checked, plan_lines, scratch_words};
ghost use Rattle.spec_outcome.specs.Gives.{Gives};
ghost use Rattle.spec_outcome.specs.Directions.{table_to_columns, table_to_rows, Fills};
ghost use Rattle.spec_logs.specs.PairLogs.{pair_logs};
ghost use Rattle.spec_tariff.specs.WithTariff.{with_tariff};
ghost use Rattle.spec_outages.specs.Outages.{count_outages};
ghost use Rattle.engine.specs.Portions.{BeginPost, PortionPost};
ghost use Rattle.engine.specs.Rota.{seat_of, RoundPost};

use base_dates::{DateTold, DayTold};
use base_hours::OpenTold;
use engine::{Portioned, Reply, Round};

#[unsafe(no_mangle)]
pub extern "C" fn dislogha_check(
    tables: &[u8],
    calendars: &[u8],
    question: &[u8],
    scratch: &mut [u64],
) -> Reply
    ensures { Gives (checked tables.now (lent_as calendars.now question.now) scratch.old) result.number result.length [] scratch.new }
{
    engine::dislogha_check(tables, calendars, question, scratch)
}

#[unsafe(no_mangle)]
pub extern "C" fn dislogha_answer_by_loops(
    tables: &[u8],
    calendars: &[u8],
    question: &[u8],
    scratch: &mut [u64],
    answer: &mut [i64],
) -> Reply
    ensures { Gives (by_loops tables.now (lent_as calendars.now question.now) scratch.old answer.old) result.number result.length answer.new scratch.new }
{
    engine::dislogha_answer_by_loops(tables, calendars, question, scratch, answer)
}

#[unsafe(no_mangle)]
pub extern "C" fn dislogha_count_outages(
    tables: &[u8],
    calendars: &[u8],
    question: &[u8],
    table: u64,
    scratch: &mut [u64],
    answer: &mut [i64],
) -> Reply
    ensures { Gives (count_outages tables.now (lent_as calendars.now question.now) table scratch.old answer.old) result.number result.length answer.new scratch.new }
{
    engine::dislogha_count_outages(tables, calendars, question, table, scratch, answer)
}

#[unsafe(no_mangle)]
pub extern "C" fn dislogha_answer_by_plan(
    tables: &[u8],
    calendars: &[u8],
    question: &[u8],
    scratch: &mut [u64],
    answer: &mut [i64],
) -> Reply
    ensures { Gives (by_plan tables.now (lent_as calendars.now question.now) scratch.old answer.old) result.number result.length answer.new scratch.new }
{
    engine::dislogha_answer_by_plan(tables, calendars, question, scratch, answer)
}

#[unsafe(no_mangle)]
pub extern "C" fn dislogha_plan_lines(
    tables: &[u8],
    calendars: &[u8],
    question: &[u8],
    scratch: &mut [u64],
    text: &mut [u8],
) -> Reply
    ensures { Gives (plan_lines tables.now (lent_as calendars.now question.now) scratch.old text.old) result.number result.length text.new scratch.new }
{
    engine::dislogha_plan_lines(tables, calendars, question, scratch, text)
}

#[unsafe(no_mangle)]
pub extern "C" fn dislogha_begin(
    tables: &[u8],
    calendars: &[u8],
    question: &[u8],
    scratch: &mut [u64],
) -> Reply
    ensures { BeginPost scratch_words tables.now (lent_as calendars.now question.now) scratch.old scratch.new result }
{
    engine::dislogha_begin(tables, calendars, question, scratch)
}

#[unsafe(no_mangle)]
pub extern "C" fn dislogha_portion(
    tables: &[u8],
    calendars: &[u8],
    scratch: &mut [u64],
    answer: &mut [i64],
    rows: u64,
) -> Portioned
    ensures { PortionPost scratch_words tables.now rows scratch.old answer.old scratch.new answer.new result }
{
    engine::dislogha_portion(tables, calendars, scratch, answer, rows)
}

#[unsafe(no_mangle)]
pub extern "C" fn dislogha_round(
    tables: &[u8],
    calendars: &[u8],
    quotas: &[u64],
    scratch1: &mut [u64],
    answer1: &mut [i64],
    scratch2: &mut [u64],
    answer2: &mut [i64],
    scratch3: &mut [u64],
    answer3: &mut [i64],
    scratch4: &mut [u64],
    answer4: &mut [i64],
) -> Round
    ensures { RoundPost scratch_words tables.now quotas.now (seat_of scratch1.old answer1.old) (seat_of scratch2.old answer2.old) (seat_of scratch3.old answer3.old) (seat_of scratch4.old answer4.old) (seat_of scratch1.new answer1.new) (seat_of scratch2.new answer2.new) (seat_of scratch3.new answer3.new) (seat_of scratch4.new answer4.new) result }
{
    engine::dislogha_round(
        tables, calendars, quotas, scratch1, answer1, scratch2, answer2, scratch3, answer3,
        scratch4, answer4,
    )
}

#[unsafe(no_mangle)]
pub extern "C" fn dislogha_table_to_columns(source: &[u8], target: &mut [u8]) -> Reply
    ensures { Fills (table_to_columns source.now target.old) result.number result.length target.new }
{
    engine::dislogha_table_to_columns(source, target)
}

#[unsafe(no_mangle)]
pub extern "C" fn dislogha_table_to_rows(source: &[u8], target: &mut [u8]) -> Reply
    ensures { Fills (table_to_rows source.now target.old) result.number result.length target.new }
{
    engine::dislogha_table_to_rows(source, target)
}

#[unsafe(no_mangle)]
pub extern "C" fn dislogha_pair_logs(
    tables: &[u8],
    first: u64,
    second: u64,
    tolerance: u64,
    target: &mut [u8],
) -> Reply
    ensures { Fills (pair_logs tables.now first second tolerance target.old) result.number result.length target.new }
{
    engine::dislogha_pair_logs(tables, first, second, tolerance, target)
}

#[unsafe(no_mangle)]
pub extern "C" fn dislogha_answer_with_tariff(
    tables: &[u8],
    calendars: &[u8],
    question: &[u8],
    tariff: &[u8],
    scratch: &mut [u64],
    answer: &mut [i64],
) -> Reply
    ensures { Gives (with_tariff tariff.now tables.now (lent_as calendars.now question.now) scratch.old answer.old) result.number result.length answer.new scratch.new }
{
    engine::dislogha_answer_with_tariff(tables, calendars, question, tariff, scratch, answer)
}

#[unsafe(no_mangle)]
pub extern "C" fn dislogha_first_open(calendars: &[u8], calendar: u64, minute: i64) -> OpenTold
    ensures { open_in result ≡ first_opened calendars.now calendar minute }
{
    engine::dislogha_first_open(calendars, calendar, minute)
}

#[unsafe(no_mangle)]
pub extern "C" fn dislogha_day_number(year: u64, month: u64, day: u64) -> DayTold
    ensures { day_in result ≡ day_numbered (on year month day) }
{
    engine::dislogha_day_number(year, month, day)
}

#[unsafe(no_mangle)]
pub extern "C" fn dislogha_date(day: u64) -> DateTold
    ensures { date_in result ≡ dated day }
{
    engine::dislogha_date(day)
}
