// The refusals of documents 01 and 02, with their numbers, as include/dislogha.h has them.
#![tactic(auto)]

ghost use Rattle.std.specs.Prelude.{◌≡◌};
ghost use Rattle.base_refusals.specs.Numbers.{number_of};

// Why a call is refused.
#[derive(Clone, Copy, Debug, PartialEq, Eq)]
pub enum Refusal {
    // A record of the data is cut short or of neither kind 20 nor 23.
    NotATable = 11,
    TableOutOfRange = 12,
    TooManyTables = 13,
    QuestionTooLong = 21,
    BrokenRecord = 22,
    TooDeepOrTooManyRecords = 23,
    NameDoesNotHold = 24,
    TypeDoesNotFit = 25,
    GeneratorNotAllowed = 26,
    NormalFormTooLarge = 27,
    NumberOutOfBounds = 28,
    ScratchTooShort = 31,
    AnswerTooShort = 32,
    LinesTooShort = 33,
    // A record of the calendars is no calendar, or a fifth one; of the date calls, a date or day number of no year from 2000 to 2399.
    CalendarOrDateOutOfRange = 41,
    CalendarNotLent = 42,
    // A column's bound is over 2^31, or a cell is beyond it.
    CellBeyondBound = 43,
    TariffOutOfRange = 44,
    // A question that gives no bag of ships with their draughts.
    NotShipsAndDraughts = 45,
    DraughtOutOfRange = 46,
    RowsOutOfRange = 47,
    NothingUnfinished = 48,
    RotaOutOfRange = 49,
    // A table's number is above 7.
    TableNumberOutOfRange = 50,
    // A record before has this number.
    TableNumberUsed = 51,
    // The target of a turned table, or of paired logs, is shorter than what is written there.
    TargetTooShort = 52,
    // A table that is to be paired is absent or no list, or its times fall.
    NotALog = 53,
    ToleranceOutOfRange = 54,
    // Outages are counted of a question whose monoid is some or all.
    NeitherSomeNorAll = 55,
    // The table whose outages are counted is absent, or has more than 12 rows.
    OutageTableOutOfRange = 56,
}

impl Refusal {
    // Its number in the documents.
    pub fn number(self) -> u64
        ensures { result ≡ number_of self }
    {
        self as u64
    }
}
