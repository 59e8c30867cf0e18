// The one reader of the lent calendars: whether they keep their layout (41), where each stands (42), and their windows.
#![tactic(auto)]

ghost use Rattle.std.specs.Prelude.{◌≡◌, ◌&&◌, ◌+◌, ◌-◌, ◌*◌, ◌<◌, ltb, length};
ghost use Rattle.spec_encoding.specs.Record.{byte, content_of};
ghost use Rattle.spec_hours.specs.CalendarBytes.{window_at, windows_from, window_fits, windows_fit, content_fits, is_calendar, calendars_fit, most_calendars, calendars_of};
ghost use Rattle.base_calendars.specs.Contract.{window_in, FindPost};

use base_bytes::{byte_at, two_at};

// "up to 4"
const MOST_CALENDARS: u64 = 4;

// "each a record of kind 24"
const KIND_CALENDAR: usize = 24;

// "one byte of windows (0 to 32), then the windows"
const MOST_WINDOWS: usize = 32;

const FIRST_WINDOW: usize = 1;

// "each a weekday byte .., a first minute and an end minute of two bytes"
const WINDOW_BYTES: usize = 5;

const LAST_WEEKDAY: u64 = 6;

pub const DAY_MINUTES: u64 = 1440;

// Two bytes of length and two of kind stand before a record's content.
const HEADER: usize = 4;

#[derive(Clone, Copy)]
pub struct Window {
    pub weekday: u64,
    pub first: u64,
    pub end: u64,
}

// How many windows a content has.
pub fn window_count(c: &[u8]) -> usize
    ensures { (result ≡ byte c.now 0) × (result < 256) }
{
    byte_at(c, 0)
}

// Window k of a content.
pub fn read_window(c: &[u8], k: usize) -> Window
    requires { k < 256 }
    ensures { window_in result ≡ window_at c.now (1 + 5 * k) }
{
    let i = FIRST_WINDOW + WINDOW_BYTES * k;
    Window {
        weekday: byte_at(c, i) as u64,
        first: two_at(c, i + 1) as u64,
        end: two_at(c, i + 3) as u64,
    }
}

fn window_fits(x: Window) -> bool
    ensures { result ≡ window_fits (window_in x) }
{
    if LAST_WEEKDAY < x.weekday {
        return false;
    }
    if DAY_MINUTES < x.first {
        return false;
    }
    if DAY_MINUTES < x.end {
        return false;
    }
    x.first < x.end
}

fn windows_fit(c: &[u8], n: usize) -> bool
    requires { n < 256 }
    ensures { result ≡ windows_fit (windows_from c.now 1 n) }
{
    for k in 0..n {
        if !window_fits(read_window(c, k)) {
            return false;
        }
    }
    true
}

fn content_fits(c: &[u8]) -> bool
    ensures { result ≡ content_fits c.now }
{
    let n = window_count(c);
    if MOST_WINDOWS < n {
        return false;
    }
    if c.len() != FIRST_WINDOW + WINDOW_BYTES * n {
        return false;
    }
    windows_fit(c, n)
}

// A whole record of kind 24 stands in front.
fn is_calendar(s: &[u8]) -> bool
    ensures { result ≡ is_calendar s.now }
{
    if s.len() < HEADER {
        return false;
    }
    if s.len() - HEADER < two_at(s, 0) {
        return false;
    }
    two_at(s, 2) == KIND_CALENDAR
}

fn record_fits(s: &[u8]) -> bool
    ensures { result ≡ (is_calendar s.now && content_fits (content_of s.now)) }
{
    if is_calendar(s) {
        let end = HEADER + two_at(s, 0);
        return content_fits(&s[HEADER..end]);
    }
    false
}

// Neither "a calendar record that breaks this layout" nor "a fifth one".
pub fn calendars_fit(s: &[u8]) -> bool
    ensures { result ≡ calendars_fit most_calendars s.now }
{
    let mut p = 0;
    let mut n = 0;
    while p < s.len() {
        if n == MOST_CALENDARS {
            return false;
        }
        if record_fits(&s[p..]) {
            p += HEADER + two_at(s, p);
            n += 1;
        } else {
            return false;
        }
    }
    true
}

// Where the content of calendar k, "numbered by position from 0", begins and ends; of a record that is cut short, what is there.
pub fn find(s: &[u8], k: u64) -> Option<(usize, usize)>
    ensures { FindPost s.now k result }
{
    if MOST_CALENDARS <= k {
        return None;
    }
    let mut p = 0;
    let mut n = 0;
    while p < s.len() {
        let from = (p + HEADER).min(s.len());
        let next = (p + HEADER + two_at(s, p)).min(s.len());
        if n == k {
            return Some((from, next));
        }
        p = next;
        n += 1;
    }
    None
}

// Not "a calendar not lent", which is 42.
pub fn is_lent(s: &[u8], k: u64) -> bool
    ensures { result ≡ ltb k (length (calendars_of s.now)) }
{
    find(s, k).is_some()
}
