// Text laid into a byte buffer below a limit: bytes, and numbers in decimal. With limit 0 nothing is written, and the place
// behind it is its length.
#![tactic(auto)]

ghost use Rattle.std.specs.Prelude.{◌≡◌, ◌∷◌, []};
ghost use Rattle.spec_plan.specs.Lines.{digits, signed_decimal};
ghost use Rattle.base_text.specs.LaidText.{bump, laid, Lays, Text};

use base_signed::magnitude;

// One more, at most 2^63: nothing wraps.
fn more(p: usize) -> usize
    ensures { result ≡ bump p }
{
    if p < 9223372036854775808 { p + 1 } else { p }
}

fn lay(text: &mut [u8], limit: usize, p: usize, b: u8)
    ensures { text.new ≡ laid limit p b text.old }
{
    if p < limit {
        if p < text.len() {
            text[p] = b;
        }
    }
}

// A byte at p where that is below the limit; the next place.
pub fn put(text: &mut [u8], limit: usize, p: usize, b: u8) -> usize
    ensures { Lays limit (b ∷ []) text.old p text.new result }
{
    lay(text, limit, p, b);
    more(p)
}

pub fn say(text: &mut [u8], limit: usize, p: usize, b: &[u8]) -> usize
    ensures { Lays limit b.now text.old p text.new result }
{
    let mut q = p;
    for i in 0..b.len() {
        q = put(text, limit, q, b[i]);
    }
    q
}

// One digit more for each division by 10.
pub fn decimal(text: &mut [u8], limit: usize, p: usize, n: usize) -> usize
    ensures { Text n (λ f. digits f n) limit text.old p text.new result }
{
    if n < 10 {
        return put(text, limit, p, (48 + n) as u8);
    }
    let q = decimal(text, limit, p, n / 10);
    put(text, limit, q, (48 + n % 10) as u8)
}

// A word, with a minus before it where it is negative.
pub fn signed(text: &mut [u8], limit: usize, p: usize, x: i64) -> usize
    ensures { Lays limit (signed_decimal x) text.old p text.new result }
{
    if x < 0 {
        let q = put(text, limit, p, b'-');
        return decimal(text, limit, q, magnitude(x) as usize);
    }
    decimal(text, limit, p, magnitude(x) as usize)
}
