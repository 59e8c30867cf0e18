// Whether every calendar that a question names is lent: 42.
#![tactic(auto)]

ghost use Rattle.std.specs.Prelude.{◌≡◌, length};
ghost use Rattle.spec_hours.specs.CalendarBytes.{calendars_of};
ghost use Rattle.front_calendars.specs.LentNodes.{lent_at, lent_from};

use base_calendars::is_lent;
use base_syntax::KIND_OPEN;

// At node i.
fn node_lent(s: &[u64], calendars: &[u8], i: usize) -> bool
    ensures { result ≡ lent_at (length (calendars_of calendars.now)) s.now i }
{
    let w = front_words::node_word(s, i);
    if front_words::kind(w) == KIND_OPEN {
        return is_lent(calendars, front_words::arg(w));
    }
    true
}

// At the first n nodes.
pub fn calendars_lent(s: &[u64], calendars: &[u8], n: usize) -> bool
    ensures { result ≡ lent_from (length (calendars_of calendars.now)) s.now 0 n }
{
    for i in 0..n {
        if !node_lent(s, calendars, i) {
            return false;
        }
    }
    true
}
