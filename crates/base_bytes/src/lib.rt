// Bytes and little-endian numbers of what is lent; outside they are 0.
#![tactic(auto)]

ghost use Rattle.std.specs.Prelude.{◌≡◌, ◌<◌, ◌^◌};
ghost use Rattle.spec_encoding.specs.Record.{byte, two};

pub fn byte_at(s: &[u8], i: usize) -> usize
    ensures { (result ≡ byte s.now i) × (result < 256) }
{
    if i < s.len() { usize::from(s[i]) } else { 0 }
}

pub fn two_at(s: &[u8], i: usize) -> usize
    requires { i < 2 ^ 62 }
    ensures { (result ≡ two s.now i) × (result < 65536) }
{
    byte_at(s, i) + 256 * byte_at(s, i + 1)
}
