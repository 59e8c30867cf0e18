// What the desk program prints, laid into a lent buffer. Reading and printing are the desk's.
#![tactic(auto)]

ghost use Rattle.std.specs.Prelude.{◌≡◌, ◌+◌, ◌*◌, ◌≤◌, length};
ghost use Rattle.spec_outcome.specs.Outcome.{scratch_words, cleared, by_loops};
ghost use Rattle.spec_outcome.specs.Gives.{Gives};
ghost use Rattle.base_scratch.specs.Map.{scratch_size};
ghost use Rattle.base_text.specs.LaidText.{Lays};
ghost use Rattle.spec_desk.specs.LentBuffers.{words_left, scratch_left};
ghost use Rattle.spec_desk.specs.TablesEnd.{tables_end};
ghost use Rattle.spec_desk.specs.Desk.{text_bytes, alone, spaced, answer_line, refusal_line, asked, desk};
ghost use Rattle.spec_desk.specs.TextInBuffer.{Prints, FrontLength};

use base_tables::read_header;
use base_text::{decimal, put, say, signed};
use engine::{Reply, dislogha_answer_by_loops, dislogha_plan_lines};

// "the question from the first record that is not a whole kind 20": how many bytes stand before it.
fn tables_end(input: &[u8]) -> usize
    ensures { (result ≡ tables_end input.now) × (result ≤ length input.now) }
{
    let mut p = 0;
    while p < input.len() {
        let Some(n) = read_header(&input[p..]) else {
            return p;
        };
        p += 4 + n;
    }
    p
}

// Each word behind a space, from place p on. Answers the place behind them, as the two below do.
fn spaced_words(text: &mut [u8], limit: usize, p: usize, words: &[i64]) -> usize
    ensures lays { Lays limit (spaced words.now) text.old p text.new result }
    ensures words_len_bound { length (spaced words.now) ≤ 21 * length words.now }
{
    let mut q = p;
    for i in 0..words.len() {
        q = put(text, limit, q, b' ');
        q = signed(text, limit, q, words[i]);
    }
    q
}

// "answer", the words and byte 10.
fn answer_line(text: &mut [u8], limit: usize, p: usize, words: &[i64]) -> usize
    ensures lays { Lays limit (answer_line words.now) text.old p text.new result }
    ensures words_len_bound { length (answer_line words.now) ≤ 7 + 21 * length words.now }
{
    let q = say(text, limit, p, b"answer");
    let r = spaced_words(text, limit, q, words);
    put(text, limit, r, b'\n')
}

// "refused", the number and byte 10, at the buffer's front.
fn refusal_line(text: &mut [u8], limit: usize, number: u64) -> usize
    ensures { Lays limit (refusal_line number) text.old 0 text.new result }
{
    let p = say(text, limit, 0, b"refused ");
    let q = decimal(text, limit, p, number as usize);
    put(text, limit, q, b'\n')
}

// The one place that says by which way the desk answers.
fn answer(tables: &[u8], question: &[u8], scratch: &mut [u64], words: &mut [i64]) -> Reply
    ensures { Gives (by_loops tables.now (alone question.now) scratch.old words.old) result.number result.length words.new scratch.new }
{
    dislogha_answer_by_loops(tables, b"", question, scratch, words)
}

// "refused" and the number, or the plan and answer. Answers the text's length. The words are left as by answering, the scratch
// is cleared.
fn reply(
    tables: &[u8],
    question: &[u8],
    scratch: &mut [u64],
    words: &mut [i64],
    text: &mut [u8],
) -> usize
    requires { (scratch_size ≤ length scratch.old) × (length words.old ≡ 4096) × (text_bytes ≤ length text.old) }
    ensures prints { Prints (asked tables.now question.now) text.old text.new result }
    ensures words_after { words.new ≡ (by_loops tables.now (alone question.now) scratch.old words.old).buffer }
    ensures scratch_after { scratch.new ≡ cleared scratch_words scratch.old }
{
    let limit = text.len();
    let given = answer(tables, question, scratch, words);
    if given.number != 0 {
        return refusal_line(text, limit, given.number);
    }
    let plan = dislogha_plan_lines(tables, b"", question, scratch, text);
    let n = given.length as usize;
    answer_line(text, limit, plan.length as usize, &words[..n])
}

// What is printed for the input, at the buffer's front. Answers its length.
pub fn printout(input: &[u8], scratch: &mut [u64], words: &mut [i64], text: &mut [u8]) -> usize
    requires { (scratch_size ≤ length scratch.old) × (length words.old ≡ 4096) × (text_bytes ≤ length text.old) }
    ensures words_after { words.new ≡ words_left input.now scratch.old words.old }
    ensures scratch_after { scratch.new ≡ scratch_left input.now scratch.old }
    ensures prints { Prints (desk input.now) text.old text.new result }
    ensures front_length { FrontLength result text.new }
{
    let limit = text.len();
    if 65536 < input.len() {
        return say(text, limit, 0, b"too long\n");
    }
    let at = tables_end(input);
    reply(&input[..at], &input[at..], scratch, words, text)
}
