//! Words at the front of a text, each read in one pass over its bytes and the byte that ends it.

ghost use Rattle.std.specs.Prelude.{◌≡◌, ◌<◌, ◌≤◌, ◌^◌, ◌++◌, ◌∷◌, IfSome};
ghost use Rattle.script_words.specs.Forms.{decimal, decimal_in, hexadecimal};
ghost use Rattle.script_words.specs.Front.{Front};

use crate::forms::hexadecimal;
use crate::text::is_word;
use crate::value::digit;

/// The most bytes of a decimal number and of the byte that ends it.
const MOST_BYTES: usize = 11;

/// The text after this word and a space.
#[inline(always)]
pub fn after_name<'a>(text: &'a [u8], name: &[u8]) -> Option<&'a [u8]>
    ensures { IfSome result (λ rest. text.now ≡ name.now ++ 32 ∷ rest.now) }
{
    let size = name.len();
    if text.len() <= size || text[size] != b' ' {
        return None;
    }
    let (word, _) = text.split_at(size);
    let (_, rest) = text.split_at(size + 1);
    if is_word(word, name) {
        Some(rest)
    } else {
        None
    }
}

/// A decimal number of 1 to 10 digits that this byte ends, and the text after it.
#[inline(always)]
pub fn decimal_until(text: &[u8], end: u8) -> Option<(u64, &[u8])>
    ensures { IfSome result (λ x. Front decimal end text.now x.0 x.1.now) }
{
    let mut value: u64 = 0;
    for place in 0..text.len().min(MOST_BYTES) {
        let next = digit(text[place]);
        if next >= 10 {
            if place == 0 || text[place] != end {
                return None;
            }
            let (_, rest) = text.split_at(place + 1);
            return Some((value, rest));
        }
        value = value * 10 + u64::from(next);
    }
    None
}

/// A decimal number from `least` to `most` that this byte ends, and the text after it.
#[inline(always)]
pub fn decimal_in_until(text: &[u8], least: u16, most: u16, end: u8) -> Option<(u16, &[u8])>
    ensures front { IfSome result (λ x. Front (decimal_in least most) end text.now x.0 x.1.now) }
    ensures high { IfSome result (λ x. x.0 ≤ most) }
{
    let (number, rest) = decimal_until(text, end)?;
    if u64::from(least) <= number && number <= u64::from(most) {
        Some((number as u16, rest))
    } else {
        None
    }
}

/// A number of `digits` hexadecimal digits, 1 to 8, that this byte ends, and the text after it.
#[inline(always)]
pub fn hexadecimal_until(text: &[u8], digits: usize, end: u8) -> Option<(u32, &[u8])>
    requires some { 1 ≤ digits }
    requires few { digits ≤ 8 }
    ensures front { IfSome result (λ x. Front (hexadecimal digits) end text.now x.0 x.1.now) }
    ensures bound { IfSome result (λ x. x.0 < 16 ^ digits) }
{
    if text.len() <= digits || text[digits] != end {
        return None;
    }
    let (word, _) = text.split_at(digits);
    let (_, rest) = text.split_at(digits + 1);
    let value = hexadecimal(word, digits)?;
    Some((value, rest))
}
