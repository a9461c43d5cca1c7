//! The words of a line in the forms that a script has, or why a word is not of its form.

ghost use Rattle.std.specs.Prelude.{◌≡◌, ◌<◌, ◌≤◌, IfOk};
ghost use Rattle.std.specs.Prelude.{drop};
ghost use Rattle.job_script.specs.Forms.{address, bytes, dcb_name, digits, extent, extents, has, has_least, index, joined_bytes, method_of, mode_of, number, number_in, subclass, word};
ghost use Rattle.job_script.specs.Lines.{is_comment};
ghost use Rattle.job_script.specs.Outcomes.{IsNoBytes, Reads, Returns, words_in};

use crate::command::DcbName;
use crate::fault::FaultName;
use crate::refusal::LineError;
use io_images::Extent;
use script_words::{FormError, LineWords};
use std::alloc::Global;
use unit_book::{Mode, ProcessingMethod};

/// The line has `count` words.
#[inline(always)]
pub fn has(line: &LineWords<'_>, count: usize) -> Result<(), FaultName>
    ensures { Reads result (has count (words_in line.now)) }
{
    if line.count() == count {
        Ok(())
    } else {
        Err(FaultName::Words)
    }
}

/// The line has at least `count` words.
#[inline(always)]
pub fn has_least(line: &LineWords<'_>, count: usize) -> Result<(), FaultName>
    ensures { Reads result (has_least count (words_in line.now)) }
{
    if line.count() >= count {
        Ok(())
    } else {
        Err(FaultName::Words)
    }
}

/// Reads a decimal number of 1 to 10 digits.
#[inline(always)]
pub(crate) fn number(line: &LineWords<'_>, place: usize) -> Result<u64, FaultName>
    requires { place < 8 }
    ensures { Reads result (number (word place (words_in line.now))) }
{
    match script_words::decimal(line.word(place)) {
        Some(number) => Ok(number),
        None => Err(FaultName::Number),
    }
}

/// Reads a decimal number from `least` to `most`.
#[inline(always)]
pub fn number_in(
    line: &LineWords<'_>,
    place: usize,
    least: u16,
    most: u16,
) -> Result<u16, FaultName>
    requires { place < 8 }
    ensures value { Reads result (number_in least most (word place (words_in line.now))) }
    ensures low { IfOk result (λ n. least ≤ n) }
    ensures high { IfOk result (λ n. n ≤ most) }
{
    match script_words::decimal_in(line.word(place), least, most) {
        Some(number) => Ok(number),
        None => Err(FaultName::Number),
    }
}

/// Reads the number of a task or a unit, below 64.
#[inline(always)]
pub fn index(line: &LineWords<'_>, place: usize) -> Result<u16, FaultName>
    requires { place < 8 }
    ensures value { Reads result (index (word place (words_in line.now))) }
    ensures high { IfOk result (λ n. n < 64) }
{
    number_in(line, place, 0, 63)
}

/// Reads an interruption subclass, 0 to 7.
#[inline(always)]
pub(crate) fn subclass(line: &LineWords<'_>, place: usize) -> Result<u8, FaultName>
    requires { place < 8 }
    ensures value { Reads result (subclass (word place (words_in line.now))) }
    ensures high { IfOk result (λ n. n ≤ 7) }
{
    let number = number_in(line, place, 0, 7)?;
    Ok(number as u8)
}

/// Reads a number of 16 bits.
#[inline(always)]
pub(crate) fn halfword(line: &LineWords<'_>, place: usize) -> Result<u16, FaultName>
    requires { place < 8 }
    ensures { Reads result (number_in 0 65535 (word place (words_in line.now))) }
{
    number_in(line, place, 0, 65535)
}

/// Reads a number of 8 bits.
#[inline(always)]
pub(crate) fn small_number(line: &LineWords<'_>, place: usize) -> Result<u8, FaultName>
    requires { place < 8 }
    ensures { Reads result (number_in 0 255 (word place (words_in line.now))) }
{
    let number = number_in(line, place, 0, 255)?;
    Ok(number as u8)
}

/// Reads an address of 6 hexadecimal digits.
#[inline(always)]
pub(crate) fn address(line: &LineWords<'_>, place: usize) -> Result<u32, FaultName>
    requires { place < 8 }
    ensures { Reads result (address (word place (words_in line.now))) }
{
    match script_words::hexadecimal(line.word(place), 6) {
        Some(address) => Ok(address),
        None => Err(FaultName::Number),
    }
}

/// Reads a byte of 2 hexadecimal digits.
#[inline(always)]
pub(crate) fn byte(line: &LineWords<'_>, place: usize) -> Result<u8, FaultName>
    requires { place < 8 }
    ensures { Reads result (digits 2 (word place (words_in line.now))) }
{
    match script_words::byte(line.word(place)) {
        Some(byte) => Ok(byte),
        None => Err(FaultName::Number),
    }
}

/// Reads two bytes of 4 hexadecimal digits.
#[inline(always)]
pub(crate) fn two_bytes(line: &LineWords<'_>, place: usize) -> Result<u16, FaultName>
    requires { place < 8 }
    ensures { Reads result (digits 4 (word place (words_in line.now))) }
{
    match script_words::two_bytes(line.word(place)) {
        Some(number) => Ok(number),
        None => Err(FaultName::Number),
    }
}

/// Reads bytes as an even number of hexadecimal digits, or `-` for no byte.
#[inline(always)]
pub(crate) fn bytes(alloc: Global, line: &LineWords<'_>, place: usize) -> Result<Vec<u8>, LineError>
    requires { place < 8 }
    ensures { Returns (λ v. v.items) result (bytes (word place (words_in line.now))) }
{
    match script_words::bytes_of(alloc, line.word(place)) {
        Ok(bytes) => Ok(bytes),
        Err(error) => Err(no_bytes(error)),
    }
}

/// Why a word gives no bytes.
#[inline(always)]
fn no_bytes(error: FormError) -> LineError
    ensures { IsNoBytes error result }
{
    match error {
        FormError::NotOfForm => LineError::Fault(FaultName::Number),
        FormError::OutOfMemory => LineError::NoMemory,
    }
}

/// Reads the bytes of the words after the first three, joined.
pub(crate) fn joined_bytes(alloc: Global, line: &LineWords<'_>) -> Result<Vec<u8>, LineError>
    ensures { Returns (λ v. v.items) result (joined_bytes (drop 3 (words_in line.now))) }
{
    let mut bytes = Vec::with_capacity(alloc, line.line.len() / 2)?;
    let mut left = script_words::after_words(line.line, 3);
    'words: while let Some((word, rest)) = script_words::next_word(left) {
        if let Err(error) = script_words::push_bytes(&mut bytes, word) {
            return Err(no_bytes(error));
        }
        left = rest;
    }
    Ok(bytes)
}

/// Reads an extent from each word after the first three.
pub(crate) fn extents(alloc: Global, line: &LineWords<'_>) -> Result<Vec<Extent>, LineError>
    ensures { Returns (λ v. v.items) result (extents (drop 3 (words_in line.now))) }
{
    let mut extents = Vec::new(alloc);
    let mut left = script_words::after_words(line.line, 3);
    'words: while let Some((word, rest)) = script_words::next_word(left) {
        let Some(extent) = extent(word) else {
            return Err(LineError::Fault(FaultName::Number));
        };
        extents.push(extent)?;
        left = rest;
    }
    Ok(extents)
}

/// Reads an extent of 32 hexadecimal digits.
fn extent(word: &[u8]) -> Option<Extent>
    ensures { result ≡ extent word.now }
{
    let image = script_words::sixteen_bytes(word)?;
    Some(Extent::read(&image))
}

/// Reads the number of a unit and of one of its DCBs, at least 1.
#[inline(always)]
#[tactic(auto, unfolding(crate::specs::Forms::dcb_name))]
pub(crate) fn dcb_of(line: &LineWords<'_>, unit: usize, dcb: usize) -> Result<DcbName, FaultName>
    requires unit { unit < 8 }
    requires dcb { dcb < 8 }
    ensures { Reads result (dcb_name (word unit (words_in line.now)) (word dcb (words_in line.now))) }
{
    let unit = index(line, unit)?;
    let number = number_in(line, dcb, 1, 65535)?;
    Ok(DcbName { unit, number })
}

/// Reads `in` or `out`: what a DCB is opened for.
#[inline(always)]
#[tactic(auto, unfolding(crate::specs::Forms::method_of))]
pub(crate) fn method_of(line: &LineWords<'_>, place: usize) -> Result<ProcessingMethod, FaultName>
    requires { place < 8 }
    ensures { Reads result (method_of (word place (words_in line.now))) }
{
    let word = line.word(place);
    if word == b"in".as_slice() {
        return Ok(ProcessingMethod::Input);
    }
    if word == b"out".as_slice() {
        return Ok(ProcessingMethod::Output);
    }
    Err(FaultName::Number)
}

/// Reads `quiesce` or `halt`.
#[inline(always)]
#[tactic(auto, unfolding(crate::specs::Forms::mode_of))]
pub fn mode_of(line: &LineWords<'_>, place: usize) -> Result<Mode, FaultName>
    requires { place < 8 }
    ensures { Reads result (mode_of (word place (words_in line.now))) }
{
    let word = line.word(place);
    if word == b"quiesce".as_slice() {
        return Ok(Mode::Quiesce);
    }
    if word == b"halt".as_slice() {
        return Ok(Mode::Halt);
    }
    Err(FaultName::Number)
}

/// Whether a word begins with `#`.
#[inline(always)]
pub(crate) fn is_comment(word: &[u8]) -> bool
    ensures { result ≡ is_comment word.now }
{
    match word {
        [first, ..] => *first == b'#',
        [] => false,
    }
}
