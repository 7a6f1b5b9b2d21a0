// A number field: at least one digit, no leading zero but for 0, at most 4294967295.

ghost use Rattle.std.specs.Prelude.{◌≡◌, Some, length};
ghost use Rattle.text.specs.Decimals.{push, field_of};

use crate::marks::DIGIT_ZERO;

// The number that the bytes from `from` up to `end` write.
// Two places and no slice: field_of has an answer for every two, also where they are none of s.
pub fn read_number(s: &[u8], from: usize, end: usize) -> Option<u32>
    ensures { result ≡ field_of s.now from end }
{
    number_in(s.get(from..end)?)
}

// The number that a field writes.
pub(crate) fn number_in(field: &[u8]) -> Option<u32>
    ensures { result ≡ field_of field.now 0 (length field.now) }
{
    if *field.first()? == DIGIT_ZERO {
        return (field.len() == 1).then_some(0);
    }
    let mut number = 0;
    for digit in field {
        number = pushed(number, *digit)?;
    }
    Some(number)
}

// One more digit.
#[tactic(auto, unfolding(crate::specs::Decimals::push))]
fn pushed(number: u32, digit: u8) -> Option<u32>
    ensures { result ≡ push digit (Some number) }
{
    if !digit.is_ascii_digit() {
        return None;
    }
    number
        .checked_mul(10)?
        .checked_add(u32::from(digit - DIGIT_ZERO))
}
