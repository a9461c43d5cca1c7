//! The sizes of media from images, in the lines of their units.

ghost use Rattle.std.specs.Prelude.{◌≡◌, ◌<◌, ◌++◌, IfOk, OnOk};
ghost use Rattle.std.specs.Fmt.{decimal};
ghost use Rattle.script_words.specs.Text.{words};
ghost use Rattle.job_media.specs.Sizes.{is_hyphen, leaves_disk, leaves_size, leaves_tape, numbers, size_of_line, sized, sized_line, text_with_sizes, with_blank};

use medium_image::Size;
use post_lines::put_decimal;
use script_words::{LineWords, decimal_in, is_word};
use std::alloc::{AllocError, Global};

/// The text of a script, in which the lines of units have the sizes of their images in place of hyphens: `tape U ISC -`,
/// and `disk U ISC -` or `disk U ISC - - -`. `sizes` has the size of each unit's image by the number of the unit. Such a
/// line then has one blank between two words. Every other line stays as it is.
pub fn with_sizes(alloc: Global, text: &[u8], sizes: &[Option<Size>]) -> Result<Vec<u8>, AllocError>
    ensures { IfOk result (λ whole. whole.items ≡ text_with_sizes sizes.now text.now) }
{
    let mut whole = Vec::new(alloc);
    let mut line = LineWords::new();
    let mut left = line.scan(text);
    push_line(&mut whole, &line, sizes)?;
    while let Some(text) = left {
        left = line.scan(text);
        whole.push(b'\n')?;
        push_line(&mut whole, &line, sizes)?;
    }
    Ok(whole)
}

/// Adds a line, with the size of its unit's image if it leaves the size to it.
#[tactic(auto, unfolding(crate::specs::Sizes::sized_line))]
fn push_line(
    whole: &mut Vec<u8>,
    line: &LineWords<'_>,
    sizes: &[Option<Size>],
) -> Result<(), AllocError>
    ensures { OnOk result (whole.new.items ≡ whole.old.items ++ sized_line sizes.now line.now.line.now) }
{
    let Some(size) = size_of_line(line, sizes) else {
        return whole.extend_from_slice(line.line);
    };
    if leaves_size(size, line) {
        push_sized(whole, size, line)
    } else {
        whole.extend_from_slice(line.line)
    }
}

/// The size of the image of the unit that a line speaks of.
fn size_of_line(line: &LineWords<'_>, sizes: &[Option<Size>]) -> Option<Size>
    ensures { result ≡ size_of_line sizes.now (words line.now.line.now) }
{
    match decimal_in(line.word(1), 0, 63) {
        Some(unit) if usize::from(unit) < sizes.len() => sizes[usize::from(unit)],
        _ => None,
    }
}

/// Whether a line leaves a size of this kind to the image.
fn leaves_size(size: Size, line: &LineWords<'_>) -> bool
    ensures { result ≡ leaves_size size (words line.now.line.now) }
{
    match size {
        Size::Disk(_) => leaves_disk(line),
        Size::Tape(_) => leaves_tape(line),
    }
}

/// Whether a line is that of a disk, with one hyphen for all its numbers, or one for each.
fn leaves_disk(line: &LineWords<'_>) -> bool
    ensures { result ≡ leaves_disk (words line.now.line.now) }
{
    if !is_word(line.word(0), b"disk") || !is_hyphen(line, 3) {
        return false;
    }
    match line.count() {
        4 => true,
        6 => is_hyphen(line, 4) && is_hyphen(line, 5),
        _ => false,
    }
}

/// Whether a line is that of a tape, with a hyphen for its number.
fn leaves_tape(line: &LineWords<'_>) -> bool
    ensures { result ≡ leaves_tape (words line.now.line.now) }
{
    is_word(line.word(0), b"tape") && is_hyphen(line, 3) && line.count() == 4
}

/// Whether a word of a line is a hyphen.
fn is_hyphen(line: &LineWords<'_>, place: usize) -> bool
    requires { place < 8 }
    ensures { result ≡ is_hyphen place (words line.now.line.now) }
{
    is_word(line.word(place), b"-")
}

/// Adds the first three words of a line, and then the numbers of a size.
fn push_sized(whole: &mut Vec<u8>, size: Size, line: &LineWords<'_>) -> Result<(), AllocError>
    ensures { OnOk result (whole.new.items ≡ whole.old.items ++ sized size (words line.now.line.now)) }
{
    push_word(whole, line.word(0))?;
    push_word(whole, line.word(1))?;
    push_word(whole, line.word(2))?;
    push_numbers(whole, size)
}

/// Adds the numbers of a size.
fn push_numbers(whole: &mut Vec<u8>, size: Size) -> Result<(), AllocError>
    ensures { OnOk result (whole.new.items ≡ whole.old.items ++ numbers size) }
{
    match size {
        Size::Tape(bytes) => push_number(whole, bytes),
        Size::Disk(geometry) => {
            push_number(whole, geometry.cylinders)?;
            whole.push(b' ')?;
            push_number(whole, geometry.heads)?;
            whole.push(b' ')?;
            push_number(whole, geometry.track_bytes)
        }
    }
}

/// Adds a word and a blank.
fn push_word(whole: &mut Vec<u8>, word: &[u8]) -> Result<(), AllocError>
    ensures { OnOk result (whole.new.items ≡ whole.old.items ++ with_blank word.now) }
{
    whole.extend_from_slice(word)?;
    whole.push(b' ')?;
    Ok(())
}

/// Adds a number in decimal.
fn push_number(whole: &mut Vec<u8>, number: u64) -> Result<(), AllocError>
    ensures { OnOk result (whole.new.items ≡ whole.old.items ++ decimal number) }
{
    let mut text = [0; 20];
    let start = put_decimal(&mut text, 20, number as usize);
    whole.extend_from_slice(&text[start..])
}
