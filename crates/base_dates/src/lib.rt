// Days of the years 2000 to 2399: weekdays; from year, month, day to day number and back.
#![tactic(auto)]

ghost use Rattle.std.specs.Prelude.{◌≡◌, ◌<◌, ◌≤◌};
ghost use Rattle.spec_calendar.specs.Dates.{is_leap, first_day, month_start, on, date_exists, day_number, weekday_of};
ghost use Rattle.spec_calendar.proofs.Dates.{Exists};
ghost use Rattle.spec_hours.specs.Calls.{day_numbered, dated};
ghost use Rattle.base_dates.specs.Contract.{day_in, date_in, InYear, InMonth};

use base_refusals::Refusal;

// "years 2000 to 2399, 146,097 days"
const FIRST_YEAR: u64 = 2000;

const LAST_YEAR: u64 = 2399;

const YEARS: usize = 400;

// "Gregorian"
const CENTURY: u64 = 100;

const FOUR_CENTURIES: u64 = 400;

pub const DAYS: u64 = 146097;

const MONTHS: usize = 12;

// No year has more days.
const YEAR_DAYS: u64 = 366;

// A day number, or the refusal's number and 0. No Result (kept: the C interface).
#[repr(C)]
#[derive(Clone, Copy)]
pub struct DayTold {
    pub number: u64,
    pub day: u64,
}

// A date, or the refusal's number and zeros. No Result (kept: the C interface).
#[repr(C)]
#[derive(Clone, Copy)]
pub struct DateTold {
    pub number: u64,
    pub year: u64,
    pub month: u64,
    pub day: u64,
}

// "The first day number of each of the 400 years is a constant table"
const FIRST_DAYS: [u64; YEARS] = [
    0, 366, 731, 1096, 1461, 1827, 2192, 2557, 2922, 3288, 3653, 4018, 4383, 4749, 5114, 5479,
    5844, 6210, 6575, 6940, 7305, 7671, 8036, 8401, 8766, 9132, 9497, 9862, 10227, 10593, 10958,
    11323, 11688, 12054, 12419, 12784, 13149, 13515, 13880, 14245, 14610, 14976, 15341, 15706,
    16071, 16437, 16802, 17167, 17532, 17898, 18263, 18628, 18993, 19359, 19724, 20089, 20454,
    20820, 21185, 21550, 21915, 22281, 22646, 23011, 23376, 23742, 24107, 24472, 24837, 25203,
    25568, 25933, 26298, 26664, 27029, 27394, 27759, 28125, 28490, 28855, 29220, 29586, 29951,
    30316, 30681, 31047, 31412, 31777, 32142, 32508, 32873, 33238, 33603, 33969, 34334, 34699,
    35064, 35430, 35795, 36160, 36525, 36890, 37255, 37620, 37985, 38351, 38716, 39081, 39446,
    39812, 40177, 40542, 40907, 41273, 41638, 42003, 42368, 42734, 43099, 43464, 43829, 44195,
    44560, 44925, 45290, 45656, 46021, 46386, 46751, 47117, 47482, 47847, 48212, 48578, 48943,
    49308, 49673, 50039, 50404, 50769, 51134, 51500, 51865, 52230, 52595, 52961, 53326, 53691,
    54056, 54422, 54787, 55152, 55517, 55883, 56248, 56613, 56978, 57344, 57709, 58074, 58439,
    58805, 59170, 59535, 59900, 60266, 60631, 60996, 61361, 61727, 62092, 62457, 62822, 63188,
    63553, 63918, 64283, 64649, 65014, 65379, 65744, 66110, 66475, 66840, 67205, 67571, 67936,
    68301, 68666, 69032, 69397, 69762, 70127, 70493, 70858, 71223, 71588, 71954, 72319, 72684,
    73049, 73414, 73779, 74144, 74509, 74875, 75240, 75605, 75970, 76336, 76701, 77066, 77431,
    77797, 78162, 78527, 78892, 79258, 79623, 79988, 80353, 80719, 81084, 81449, 81814, 82180,
    82545, 82910, 83275, 83641, 84006, 84371, 84736, 85102, 85467, 85832, 86197, 86563, 86928,
    87293, 87658, 88024, 88389, 88754, 89119, 89485, 89850, 90215, 90580, 90946, 91311, 91676,
    92041, 92407, 92772, 93137, 93502, 93868, 94233, 94598, 94963, 95329, 95694, 96059, 96424,
    96790, 97155, 97520, 97885, 98251, 98616, 98981, 99346, 99712, 100077, 100442, 100807, 101173,
    101538, 101903, 102268, 102634, 102999, 103364, 103729, 104095, 104460, 104825, 105190, 105556,
    105921, 106286, 106651, 107017, 107382, 107747, 108112, 108478, 108843, 109208, 109573, 109938,
    110303, 110668, 111033, 111399, 111764, 112129, 112494, 112860, 113225, 113590, 113955, 114321,
    114686, 115051, 115416, 115782, 116147, 116512, 116877, 117243, 117608, 117973, 118338, 118704,
    119069, 119434, 119799, 120165, 120530, 120895, 121260, 121626, 121991, 122356, 122721, 123087,
    123452, 123817, 124182, 124548, 124913, 125278, 125643, 126009, 126374, 126739, 127104, 127470,
    127835, 128200, 128565, 128931, 129296, 129661, 130026, 130392, 130757, 131122, 131487, 131853,
    132218, 132583, 132948, 133314, 133679, 134044, 134409, 134775, 135140, 135505, 135870, 136236,
    136601, 136966, 137331, 137697, 138062, 138427, 138792, 139158, 139523, 139888, 140253, 140619,
    140984, 141349, 141714, 142080, 142445, 142810, 143175, 143541, 143906, 144271, 144636, 145002,
    145367, 145732,
];

// Days before each month, and in all, of a year that is no leap year.
const MONTH_STARTS: [u64; MONTHS + 1] = [
    0, 31, 59, 90, 120, 151, 181, 212, 243, 273, 304, 334, 365,
];

fn first_day(k: usize) -> u64
    requires { k < 400 }
    ensures { result ≡ first_day k }
{
    FIRST_DAYS[k]
}

fn leap(y: u64) -> bool
    ensures { result ≡ is_leap y }
{
    if y % 4 != 0 {
        return false;
    }
    if y % CENTURY != 0 {
        return true;
    }
    y % FOUR_CENTURIES == 0
}

// The days of a year before its k-th month.
fn month_start(leap: bool, k: usize) -> u64
    requires { k ≤ 12 }
    ensures { result ≡ month_start leap k }
{
    let start = MONTH_STARTS[k];
    if leap {
        if 1 < k {
            return start + 1;
        }
    }
    start
}

// "0 Monday to 6 Sunday"; day 0 is a Saturday.
pub fn weekday(n: u64) -> u64
    ensures { result ≡ weekday_of n }
{
    (n % 7 + 5) % 7
}

fn date_exists(year: u64, month: u64, day: u64) -> bool
    ensures { result ≡ date_exists (on year month day) }
{
    if year < FIRST_YEAR {
        return false;
    }
    if LAST_YEAR < year {
        return false;
    }
    if month < 1 {
        return false;
    }
    if (MONTHS as u64) < month {
        return false;
    }
    if day < 1 {
        return false;
    }
    let k = (month - 1) as usize;
    let l = leap(year);
    day <= month_start(l, k + 1) - month_start(l, k)
}

// The days of the years before it, of the months before it, and of its month.
fn number_of(year: u64, month: u64, day: u64) -> u64
    requires { Exists (on year month day) }
    ensures { result ≡ day_number (on year month day) }
{
    let start = month_start(leap(year), (month - 1) as usize);
    first_day((year - FIRST_YEAR) as usize) + (start + (day - 1))
}

// "from year, month, day to day number"
pub fn day_number(year: u64, month: u64, day: u64) -> DayTold
    ensures { day_in result ≡ day_numbered (on year month day) }
{
    if date_exists(year, month, day) {
        return DayTold {
            number: 0,
            day: number_of(year, month, day),
        };
    }
    DayTold {
        number: Refusal::CalendarOrDateOutOfRange.number(),
        day: 0,
    }
}

// The year, from 0, that has day n; the table is entered where it cannot be later.
fn year_of(n: u64) -> usize
    requires { n < 146097 }
    ensures { InYear n result }
{
    for k in (n / YEAR_DAYS) as usize..YEARS - 1 {
        if n < first_day(k + 1) {
            return k;
        }
    }
    YEARS - 1
}

// The month, from 0, that has day n of a year.
fn month_of(leap: bool, n: u64) -> usize
    requires { n < month_start leap 12 }
    ensures { InMonth leap n result }
{
    for k in 0..MONTHS - 1 {
        if n < month_start(leap, k + 1) {
            return k;
        }
    }
    MONTHS - 1
}

// "and back"
pub fn date_of(n: u64) -> DateTold
    ensures { date_in result ≡ dated n }
{
    if DAYS <= n {
        return DateTold {
            number: Refusal::CalendarOrDateOutOfRange.number(),
            year: 0,
            month: 0,
            day: 0,
        };
    }
    let k = year_of(n);
    let y = FIRST_YEAR + (k as u64);
    let l = leap(y);
    let rest = n - first_day(k);
    let m = month_of(l, rest);
    DateTold {
        number: 0,
        year: y,
        month: (m as u64) + 1,
        day: rest - month_start(l, m) + 1,
    }
}
