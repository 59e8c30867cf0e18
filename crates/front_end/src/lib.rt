// From bytes to an accepted question in scratch: the passes in document 01's order of refusals.
#![tactic(auto)]

ghost use Rattle.std.specs.Prelude.{◌-◌, ◌≤◌, length};
ghost use Rattle.base_scratch.specs.Map.{scratch_size};
ghost use Rattle.front_emit.specs.WholeForm.{Writable};
ghost use Rattle.spec_outcome.specs.Acceptance.{lent_as};
ghost use Rattle.front_end.specs.PartContracts.{SizedPost, TypedPost, JudgedPost, FrontEndPost};
ghost use Rattle.front_end.specs.PrepareContract.{FormedPost, PreparePost};

use base_refusals::Refusal;
use base_scratch::{FORM, FORM_WORDS, NODES};

// "27: a normal form over 512 nodes." These checks give the number of the question's nodes.
fn sized(s: &mut [u64], n: usize) -> Result<usize, Refusal>
    requires { n ≤ 256 }
    ensures { SizedPost s.old s.new n result }
{
    front_measure::measure(s, n);
    let z = front_measure::size(s, n);
    if (FORM_WORDS as u64) < z {
        return Err(Refusal::NormalFormTooLarge);
    }
    Ok(n)
}

// "25: a type, field or table that does not fit. 26: a generator its monoid may not have." Between them 42, "a calendar not lent" (document 02, E4).
fn typed(s: &mut [u64], c: &[u8], n: usize) -> Result<usize, Refusal>
    requires { n ≤ 256 }
    ensures { TypedPost c.now s.old s.new n result }
{
    let a = front_typing::types_fit(s, n);
    if !a {
        return Err(Refusal::TypeDoesNotFit);
    }
    let v = front_calendars::calendars_lent(s, c, n);
    if !v {
        return Err(Refusal::CalendarNotLent);
    }
    let b = front_typing::generators_fit(s, n);
    if !b {
        return Err(Refusal::GeneratorNotAllowed);
    }
    sized(s, n)
}

// "24: a name out of scope or bound twice."
fn judged(s: &mut [u64], c: &[u8], n: usize) -> Result<usize, Refusal>
    requires { n ≤ 256 }
    ensures { JudgedPost c.now s.old s.new n result }
{
    let a = front_scope::names_hold(s, n);
    if !a {
        return Err(Refusal::NameDoesNotHold);
    }
    front_scope::binders(s, n);
    typed(s, c, n)
}

// The data, then 41, then 21 to 23, then 24 to 27: the checks but the last, in their order.
pub fn front_end(d: &[u8], c: &[u8], l: &[u8], s: &mut [u64]) -> Result<usize, Refusal>
    requires { scratch_size ≤ length s.old }
    ensures { FrontEndPost d.now (lent_as c.now l.now) s.old s.new result }
{
    base_tables::read_data(d, s)?;
    let x = base_calendars::calendars_fit(c);
    if !x {
        return Err(Refusal::CalendarOrDateOutOfRange);
    }
    let n = front_parser::read_question(l, s)?;
    judged(s, c, n)
}

// "28: a number in the normal form with bound over 2^62." Once the form is written the question's words below it are dead. They are
// wiped and the generators' slots name their tables there before anything reads the form, so that whatever does, bounds first, finds
// each generator's table in its slot. So are the calendars that the form's operators read.
fn formed(d: &[u8], c: &[u8], s: &mut [u64], n: usize) -> Result<(), Refusal>
    requires { (1 ≤ n) × Writable s.old (n - 1) }
    ensures { FormedPost d.now c.now s.old s.new n result }
{
    front_emit::write_form(s, n - 1);
    base_scratch::wipe(s, NODES, FORM);
    base_checkpoints::checkpoint_tables(s, d);
    base_windows::keep(s, c);
    form_env::name_tables(s);
    let a = front_bounds::bound_fits(s, d);
    if !a {
        return Err(Refusal::NumberOutOfBounds);
    }
    Ok(())
}

// All checks, in their order: answering and planning may begin behind them.
pub fn prepare(d: &[u8], c: &[u8], l: &[u8], s: &mut [u64]) -> Result<(), Refusal>
    requires { scratch_size ≤ length s.old }
    ensures { PreparePost d.now (lent_as c.now l.now) s.old s.new result }
{
    let n = front_end(d, c, l, s)?;
    formed(d, c, s, n)
}
