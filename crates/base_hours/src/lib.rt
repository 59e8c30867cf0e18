// The first open minute of a lent calendar; what a window holds.
#![tactic(auto)]

ghost use Rattle.std.specs.Prelude.{◌≡◌, ◌<◌};
ghost use Rattle.spec_calendar.specs.Hours.{holds, not_before, first_open};
ghost use Rattle.spec_hours.specs.CalendarBytes.{windows_of};
ghost use Rattle.spec_hours.specs.Calls.{first_opened};
ghost use Rattle.base_calendars.specs.Contract.{window_in};
ghost use Rattle.base_hours.specs.Contract.{open_in, minute_in, NextPost, LeastPost};

use base_calendars::{DAY_MINUTES, Window, calendars_fit, find, read_window, window_count};
use base_dates::weekday;
use base_refusals::Refusal;
use base_signed::magnitude;

// "minute 0 is its midnight"; so many minutes have the years, and a week.
const FIRST_MINUTE: i64 = 0;

const MINUTES: u64 = 210379680;

const WEEK_MINUTES: u64 = 10080;

// Whether there is an open minute, and which; or the refusal's number and zeros. No Result (kept: the C interface).
#[repr(C)]
#[derive(Clone, Copy)]
pub struct OpenTold {
    pub number: u64,
    pub found: u64,
    pub minute: u64,
}

// "A window includes its first minute and not its end."
pub fn window_holds(x: Window, w: u64, m: u64) -> bool
    ensures { result ≡ holds (window_in x) w m }
{
    if x.weekday != w {
        return false;
    }
    if m < x.first {
        return false;
    }
    m < x.end
}

// The first minute from f on that lies in a window, if it is one of the years: in the next window of this weekday, or at f in one that has begun,
// or a week on. Where there is none, the end of the years.
fn next_in(x: Window, f: u64) -> u64
    requires { f < 210379680 }
    ensures { NextPost (window_in x) f result }
{
    if 6 < x.weekday {
        return MINUTES;
    }
    if x.end <= x.first {
        return MINUTES;
    }
    if DAY_MINUTES <= x.first {
        return MINUTES;
    }
    let day = f / DAY_MINUTES;
    let ahead = (x.weekday + 7 - weekday(day)) % 7;
    let start = (day + ahead) * DAY_MINUTES + x.first;
    if f <= start {
        return start;
    }
    if f % DAY_MINUTES < x.end {
        return f;
    }
    start + WEEK_MINUTES
}

// The first one of all windows.
fn first_in(c: &[u8], f: u64) -> u64
    requires { f < 210379680 }
    ensures { LeastPost (windows_of c.now) f result }
{
    let n = window_count(c);
    let mut r = MINUTES;
    for k in 0..n {
        r = r.min(next_in(read_window(c, k), f));
    }
    r
}

fn not_before(minute: i64) -> u64
    ensures { result ≡ not_before minute }
{
    magnitude(minute.max(FIRST_MINUTE))
}

// "the first open minute at or after a given signed one"; the end of the years where there is none.
fn first_from(c: &[u8], minute: i64) -> u64
    ensures { minute_in result ≡ first_open (windows_of c.now) minute }
{
    let f = not_before(minute);
    if f < MINUTES {
        return first_in(c, f);
    }
    MINUTES
}

// The call's outcome: 41, 42, none, or a minute.
pub fn first_open(calendars: &[u8], k: u64, minute: i64) -> OpenTold
    ensures { open_in result ≡ first_opened calendars.now k minute }
{
    if !calendars_fit(calendars) {
        return OpenTold {
            number: Refusal::CalendarOrDateOutOfRange.number(),
            found: 0,
            minute: 0,
        };
    }
    let Some((from, next)) = find(calendars, k) else {
        return OpenTold {
            number: Refusal::CalendarNotLent.number(),
            found: 0,
            minute: 0,
        };
    };
    let t = first_from(&calendars[from..next], minute);
    if t < MINUTES {
        return OpenTold {
            number: 0,
            found: 1,
            minute: t,
        };
    }
    OpenTold {
        number: 0,
        found: 0,
        minute: 0,
    }
}
