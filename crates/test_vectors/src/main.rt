// Asks the engine about each recorded case, and prints a line for each: its place, what the checker
// says, and where the answer is known the number, the length and the words, first by loops, then by
// plan; then the lines of its plan.
// A case is one byte that says whether its answer is known (1) or too long for any engine (0), two
// bytes of data's length, two of the calendars', two of the question's, little-endian, then all three.
#![tactic(auto)]

ghost use Rattle.std.specs.Prelude.{◌+◌, ◌*◌, ◌<◌, ◌≤◌, ◌≡◌, length, get_or, replicate};

use std::fs::File;
use std::io;
use std::io::Write;

fn wide(byte: u8) -> usize
    ensures { (result ≡ byte) × (result < 256) }
{
    byte as usize
}

// Two bytes, little-endian.
fn length_at(s: &[u8], at: usize) -> usize
    requires { at + 2 ≤ length s.now }
    ensures { (result ≡ get_or s.now at 0 + 256 * get_or s.now (at + 1) 0) × (result < 65536) }
{
    wide(s[at]) + 256 * wide(s[at + 1])
}

fn print_next<W: Write>(out: &mut W, number: u64) -> io::Result<()> {
    write!(out, " {number}")
}

fn print_signed<W: Write>(out: &mut W, x: i64) -> io::Result<()> {
    let mut digits = [0u8; 20];
    let n = base_text::signed(&mut digits, 20, 0, x);
    out.write_all(&digits[..n])
}

// The first words, as many as the count says.
fn print_words<W: Write>(out: &mut W, words: &[i64], count: u64) -> io::Result<()> {
    for i in 0..words.len() {
        if count <= (i as u64) {
            return Ok(());
        }
        out.write_all(b" ")?;
        print_signed(out, words[i])?;
    }
    Ok(())
}

fn print_reply<W: Write>(out: &mut W, number: u64, length: u64, words: &[i64]) -> io::Result<()> {
    print_next(out, number)?;
    print_next(out, length)?;
    print_words(out, words, length)
}

// In a buffer of its own, in which nothing of the loops' answer stands.
fn answer_by_plan<W: Write>(
    out: &mut W,
    tables: &[u8],
    calendars: &[u8],
    question: &[u8],
    scratch: &mut [u64],
) -> io::Result<()> {
    let mut words = [0i64; 4096];
    let reply = engine::dislogha_answer_by_plan(tables, calendars, question, scratch, &mut words);
    print_reply(out, reply.number, reply.length, &words)
}

fn answer<W: Write>(
    out: &mut W,
    known: bool,
    tables: &[u8],
    calendars: &[u8],
    question: &[u8],
    scratch: &mut [u64],
    words: &mut [i64],
) -> io::Result<()> {
    if !known {
        return Ok(());
    }
    let reply = engine::dislogha_answer_by_loops(tables, calendars, question, scratch, words);
    print_reply(out, reply.number, reply.length, words)?;
    answer_by_plan(out, tables, calendars, question, scratch)
}

// The first bytes.
fn print_front<W: Write>(out: &mut W, text: &[u8], count: usize) -> io::Result<()>
    requires { count ≤ length text.now }
{
    out.write_all(&text[0..count])
}

// The plan's lines, which 32,768 bytes hold whatever the question; none where it is refused.
fn plan<W: Write>(
    out: &mut W,
    tables: &[u8],
    calendars: &[u8],
    question: &[u8],
    scratch: &mut [u64],
) -> io::Result<()> {
    let mut text = [0u8; 32768];
    let reply = engine::dislogha_plan_lines(tables, calendars, question, scratch, &mut text);
    let count = reply.length as usize;
    if 32768 < count {
        return Ok(());
    }
    print_front(out, &text, count)
}

fn ask<W: Write>(
    out: &mut W,
    known: bool,
    tables: &[u8],
    calendars: &[u8],
    question: &[u8],
    scratch: &mut [u64],
    words: &mut [i64],
) -> io::Result<()> {
    let reply = engine::dislogha_check(tables, calendars, question, scratch);
    print_next(out, reply.number)?;
    answer(out, known, tables, calendars, question, scratch, words)?;
    out.write_all(b"\n")?;
    plan(out, tables, calendars, question, scratch)
}

fn ask_all<W: Write>(
    out: &mut W,
    s: &[u8],
    scratch: &mut [u64],
    words: &mut [i64],
) -> io::Result<()> {
    let mut place: usize = 0;
    let mut at = 0;
    while s.len() - at >= 7 {
        let start = at + 7;
        let split = start + length_at(s, at + 1);
        let second = split + length_at(s, at + 3);
        let end = second + length_at(s, at + 5);
        if s.len() < end {
            return Ok(());
        }
        write!(out, "{place}")?;
        ask(
            out,
            s[at] == 1,
            &s[start..split],
            &s[split..second],
            &s[second..end],
            scratch,
            words,
        )?;
        place += 1;
        at = end;
    }
    Ok(())
}

fn space() -> [u8; 524288]
    ensures { (524288 ≡ length result) × (result ≡ replicate 524288 0) }
{
    [0; 524288]
}

fn main(rt: HostRuntime) -> io::Result<()> {
    let mut file = File::open(&rt, "cases")?;
    let mut cases = space();
    let n = base_input::read_full(&mut file, &mut cases)?;
    let mut scratch = [0u64; base_scratch::WORDS];
    let mut words = [0i64; 4096];
    ask_all(&mut io::writer(&rt), &cases[..n], &mut scratch, &mut words)
}
