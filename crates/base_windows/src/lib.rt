// The lent calendars' windows in scratch: laid there once a call, and whether a minute is open by them.
#![tactic(auto)]

ghost use Rattle.std.specs.Prelude.{◌≡◌, ◌+◌, ◌≤◌, ◌<◌, length, set};
ghost use Rattle.spec_calendar.specs.Hours.{calendar_of, in_window, open_at};
ghost use Rattle.spec_hours.specs.CalendarBytes.{windows_of, calendars_of};
ghost use Rattle.base_calendars.specs.Contract.{window_in};
ghost use Rattle.base_windows.specs.KeptCalendars.{packed, window_of, calendar_in, laid_from, laid, kept_in};

use base_calendars::{DAY_MINUTES, Window, find, read_window, window_count};
use base_dates::{DAYS, weekday};
use base_hours::window_holds;
use base_scratch::{CALENDAR_WORDS, CALENDARS, load, store};
use base_signed::magnitude;

// "up to 4"
const MOST_CALENDARS: usize = 4;

// How many windows a word can say.
const COUNTS: u64 = 64;

// A window's word has its weekday in three bits, its first minute in eleven, its end in eleven.
const WEEKDAYS: u64 = 8;

const MINUTES: u64 = 2048;

// "minute 0 is its midnight"
const FIRST_MINUTE: i64 = 0;

fn pack(x: Window) -> u64
    ensures { result ≡ packed (window_in x) }
{
    x.weekday % WEEKDAYS + WEEKDAYS * (x.first % MINUTES) + WEEKDAYS * MINUTES * (x.end % MINUTES)
}

fn unpack(w: u64) -> Window
    ensures { window_in result ≡ window_of w }
{
    Window {
        weekday: w % WEEKDAYS,
        first: w / WEEKDAYS % MINUTES,
        end: w / (WEEKDAYS * MINUTES) % MINUTES,
    }
}

// How many windows the content has, and each behind it, from word a on.
fn lay(s: &mut [u64], a: usize, c: &[u8])
    requires { a ≤ 2048 }
    ensures { s.new ≡ laid_from (a + 1) (windows_of «c».now) (set s.old a (length (windows_of «c».now))) }
{
    let n = window_count(c);
    store(s, a, n as u64);
    for k in 0..n {
        store(s, a + 1 + k, pack(read_window(c, k)));
    }
}

// Calendar n; one that is not lent has no windows.
fn keep_one(s: &mut [u64], calendars: &[u8], n: usize)
    requires { n < 4 }
    ensures { s.new ≡ laid n (calendar_of (calendars_of calendars.now) n) s.old }
{
    let a = CALENDARS + CALENDAR_WORDS * n;
    match find(calendars, n as u64) {
        Some((from, next)) => lay(s, a, &calendars[from..next]),
        None => store(s, a, 0),
    }
}

// All that are lent.
pub fn keep(s: &mut [u64], calendars: &[u8])
    ensures { s.new ≡ kept_in (calendar_of (calendars_of calendars.now)) s.old }
{
    keep_one(s, calendars, 0);
    keep_one(s, calendars, 1);
    keep_one(s, calendars, 2);
    keep_one(s, calendars, 3);
}

fn in_window(s: &[u64], n: usize, w: u64, m: u64) -> bool
    ensures { result ≡ in_window (calendar_in s.now n) w m }
{
    if MOST_CALENDARS <= n {
        return false;
    }
    let a = CALENDARS + CALENDAR_WORDS * n;
    let e = (load(s, a) % COUNTS) as usize;
    for k in 0..e {
        if window_holds(unpack(load(s, a + 1 + k)), w, m) {
            return true;
        }
    }
    false
}

// "true when that minute lies in a window of its weekday. Minutes outside the years are not open."
pub fn open_at(s: &[u64], n: usize, minute: i64) -> bool
    ensures { result ≡ open_at (calendar_in s.now n) minute }
{
    if minute < FIRST_MINUTE {
        return false;
    }
    let t = magnitude(minute);
    let day = t / DAY_MINUTES;
    if DAYS <= day {
        return false;
    }
    in_window(s, n, weekday(day), t % DAY_MINUTES)
}
