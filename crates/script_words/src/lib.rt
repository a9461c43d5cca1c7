//! Text as lines, words and the forms of words (profile). It knows no kind of line.
//!
//! Lines end with LF. Words are separated by one or more spaces. A word is a decimal number, hexadecimal digits, bytes
//! of two hexadecimal digits each, or a fixed word.
//!
//! Tests: tests/cases/scripts, tests/cases/mistakes.
#![tactic(auto)]

mod forms;
mod front;
mod text;
mod value;
mod words;

pub use forms::{
    FormError, byte, bytes_of, decimal, decimal_in, hexadecimal, push_bytes, sixteen_bytes,
    two_bytes,
};
pub use front::{after_name, decimal_in_until, decimal_until, hexadecimal_until};
pub use text::{after_words, is_word, next_word};
pub use words::LineWords;
