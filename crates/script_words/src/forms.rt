//! The forms of words.

ghost use Rattle.std.specs.Prelude.{◌≡◌, ◌<◌, ◌≤◌, ◌^◌, Some, None, IfSome};
ghost use Rattle.script_words.specs.Forms.{Leaves, ReturnsForm, put_after, decimal, decimal_in, hex_bytes, hexadecimal, pairs, sized_pairs};
ghost use Rattle.script_words.specs.declared.forms.FormError.TheVariants as form_errors;

use crate::value::digit;
use std::alloc::{AllocError, AllocFailed, Global};

/// Why the bytes of a word were not added.
#[derive(Clone, Copy, PartialEq, Eq, Debug)]
pub enum FormError {
    /// A word is not of its form.
    NotOfForm,
    OutOfMemory,
}

impl From<AllocError> for FormError {
    ghost from_gives = { λ _ e. e ≡ form_errors.OutOfMemory };

    fn from(_error: AllocError) -> Self {
        FormError::OutOfMemory
    }
}

impl<T: Drop> From<AllocFailed<T>> for FormError {
    ghost from_gives = { λ _ e. e ≡ form_errors.OutOfMemory };

    fn from(_error: AllocFailed<T>) -> Self {
        FormError::OutOfMemory
    }
}

/// The most digits of a decimal number.
const MOST_DIGITS: usize = 10;

/// Reads a decimal number of 1 to 10 digits.
pub fn decimal(word: &[u8]) -> Option<u64>
    ensures { result ≡ decimal word.now }
{
    if word.is_empty() || word.len() > MOST_DIGITS {
        return None;
    }
    let mut value: u64 = 0;
    for byte in word {
        let next = digit(*byte);
        if next >= 10 {
            return None;
        }
        value = value * 10 + u64::from(next);
    }
    Some(value)
}

/// Reads a decimal number of 1 to 10 digits, from `least` to `most`.
#[inline(always)]
#[tactic(auto, unfolding(crate::specs::Forms::decimal_in))]
pub fn decimal_in(word: &[u8], least: u16, most: u16) -> Option<u16>
    ensures value { result ≡ decimal_in least most word.now }
    ensures low { IfSome result (λ n. least ≤ n) }
    ensures high { IfSome result (λ n. n ≤ most) }
{
    let number = decimal(word)?;
    if u64::from(least) <= number && number <= u64::from(most) {
        Some(number as u16)
    } else {
        None
    }
}

/// Reads a number of `digits` hexadecimal digits, at most 8.
pub fn hexadecimal(word: &[u8], digits: usize) -> Option<u32>
    requires { digits ≤ 8 }
    ensures value { result ≡ hexadecimal digits word.now }
    ensures bound { IfSome result (λ n. n < 16 ^ digits) }
{
    if word.len() != digits {
        return None;
    }
    let mut value: u32 = 0;
    for byte in word {
        let next = digit(*byte);
        if next >= 16 {
            return None;
        }
        value = value * 16 + u32::from(next);
    }
    Some(value)
}

/// Reads a byte of 2 hexadecimal digits.
pub fn byte(word: &[u8]) -> Option<u8>
    ensures { result ≡ hexadecimal 2 word.now }
{
    Some(hexadecimal(word, 2)? as u8)
}

/// Reads two bytes of 4 hexadecimal digits.
pub fn two_bytes(word: &[u8]) -> Option<u16>
    ensures { result ≡ hexadecimal 4 word.now }
{
    Some(hexadecimal(word, 4)? as u16)
}

/// Adds bytes of two hexadecimal digits each. After an error `bytes` may hold some of them.
fn push_pairs(bytes: &mut Vec<u8>, word: &[u8]) -> Result<(), FormError>
    ensures { Leaves result bytes.new.items (put_after bytes.old.items (pairs word.now)) }
{
    bytes.reserve(word.len() / 2)?;
    let mut rest = word;
    while let [first, second, others @ ..] = rest {
        let high = digit(*first);
        let low = digit(*second);
        if high >= 16 {
            return Err(FormError::NotOfForm);
        }
        if low >= 16 {
            return Err(FormError::NotOfForm);
        }
        bytes.push_reserved(high * 16 + low);
        rest = others;
    }
    if rest.is_empty() {
        Ok(())
    } else {
        Err(FormError::NotOfForm)
    }
}

/// Adds the bytes of a word: an even number of hexadecimal digits, or `-` for no byte.
///
/// Errors: the word is not of this form; out of memory. `bytes` may hold some of its bytes then.
#[tactic(auto, using(crate::proofs::Numbers::after_none), unfolding(crate::specs::Forms::hex_bytes))]
pub fn push_bytes(bytes: &mut Vec<u8>, word: &[u8]) -> Result<(), FormError>
    ensures { Leaves result bytes.new.items (put_after bytes.old.items (hex_bytes word.now)) }
{
    if word == b"-".as_slice() {
        return Ok(());
    }
    push_pairs(bytes, word)
}

/// Reads the bytes of a word: an even number of hexadecimal digits, or `-` for no byte.
///
/// Errors: the word is not of this form; out of memory.
#[tactic(auto, using(crate::proofs::Numbers::after_nothing))]
pub fn bytes_of(alloc: Global, word: &[u8]) -> Result<Vec<u8>, FormError>
    ensures { ReturnsForm (λ v. v.items) result (hex_bytes word.now) }
{
    let mut bytes = Vec::new(alloc);
    push_bytes(&mut bytes, word)?;
    Ok(bytes)
}

/// The hexadecimal digits of sixteen bytes.
const SIXTEEN_PAIRS: usize = 32;

/// Reads sixteen bytes of 32 hexadecimal digits.
pub fn sixteen_bytes(word: &[u8]) -> Option<[u8; 16]>
    ensures { result ≡ sized_pairs 16 word.now }
{
    if word.len() != SIXTEEN_PAIRS {
        return None;
    }
    let mut bytes = [0; 16];
    for place in 0..16 {
        let high = digit(word[2 * place]);
        let low = digit(word[2 * place + 1]);
        if high >= 16 {
            return None;
        }
        if low >= 16 {
            return None;
        }
        bytes[place] = high * 16 + low;
    }
    Some(bytes)
}
