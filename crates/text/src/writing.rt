// Bytes and numbers written at a place of a lent buffer: whole if they fit, else not at all. The answer is the place after them.
// Two parameters for the buffer and its place: docs/PROMISES.md has the two functions so; `listing` holds both in one struct, Page.

ghost use Rattle.std.specs.Prelude.{◌≡◌, length};
ghost use Rattle.text.specs.Writing.{filled, put_of, width_of, digits, digit_of, decimal};

use crate::marks::DIGIT_ZERO;

// A number of 64 bits has at most 20 digits.
const WIDTH_MOST: usize = 20;

// The place itself and no None where the text does not fit: docs/PROMISES.md has this answer, of put_number as well.
#[tactic(auto, using(crate::proofs::Puts::part_fit, crate::proofs::Puts::put_not))]
pub fn put_bytes(out: &mut [u8], at: usize, text: &[u8]) -> usize
    ensures { filled result out.new ≡ put_of text.now (filled at out.old) }
{
    match at.checked_add(text.len()) {
        Some(end) if end <= out.len() => {
            out[at..end].copy_from_slice(text);
            end
        }
        _ => at,
    }
}

// A twin of put_bytes in its match alone: one function of both would take the length and a closure with a contract, no plainer.
#[tactic(auto, using(crate::proofs::Puts::number_part, crate::proofs::Puts::number_not))]
pub fn put_number(out: &mut [u8], at: usize, v: u64) -> usize
    ensures { filled result out.new ≡ put_of (decimal v) (filled at out.old) }
{
    match at.checked_add(width(v)) {
        Some(end) if end <= out.len() => {
            fill_digits(&mut out[at..end], v);
            end
        }
        _ => at,
    }
}

// How many digits a number has.
fn width(v: u64) -> usize
    ensures { result ≡ width_of v }
{
    let mut rest = v;
    for w in 1..WIDTH_MOST {
        if rest < 10 {
            return w;
        }
        rest /= 10;
    }
    WIDTH_MOST
}

// The last digits of v, as many as there are places, from the right.
// By hand: std, which README has alone, tells what `write!` wrote only on Ok, and no clause says that it is Ok where the bytes fit.
fn fill_digits(out: &mut [u8], v: u64)
    ensures { out.new ≡ digits (length out.old) v }
{
    let mut rest = v;
    for i in (0..out.len()).rev() {
        out[i] = digit(rest);
        rest /= 10;
    }
}

fn digit(x: u64) -> u8
    ensures { result ≡ digit_of x }
{
    DIGIT_ZERO + (x % 10) as u8
}
