// The desk program: reads standard input, and prints what `printout` says of it.
#![tactic(auto)]

use std::io;
use std::io::Write;

fn main(rt: HostRuntime) -> io::Result<()> {
    let mut input = [0u8; 65537];
    let n = base_input::read_full(&mut rt.reader(), &mut input)?;
    let mut scratch = [0u64; base_scratch::WORDS];
    let mut words = [0i64; 4096];
    let mut text = [0u8; 118791];
    let count = desk_text::printout(&input[..n], &mut scratch, &mut words, &mut text);
    io::writer(&rt).write_all(&text[..count])
}
