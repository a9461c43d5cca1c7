//! The name of a file in a text.

use std::fmt;

/// The name of a file as a text shows it: a control character as `\x` and its code in two hexadecimal digits.
#[derive(Clone, Copy)]
pub struct FileName<'a>(pub &'a str);

impl<'a> fmt::Display for FileName<'a> {
    fn fmt<W: fmt::Write>(&self, f: &mut fmt::Formatter<W>) -> fmt::Result {
        for character in self.0.chars() {
            if character.is_control() {
                write!(f, "\\x{:02x}", u32::from(character))?;
            } else {
                f.write_char(character)?;
            }
        }
        Ok(())
    }
}
