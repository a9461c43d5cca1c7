//! The words of a line, one after the other.

ghost use Rattle.std.specs.Prelude.{◌≡◌, ◌∷◌, [], MatchOption, drop};
ghost use Rattle.std.specs.List.{position_or_len};
ghost use Rattle.std.specs.Str.{bytes_eq};
ghost use Rattle.script_words.specs.Scan.{is_word_byte};
ghost use Rattle.script_words.specs.Text.{is_space, words};

/// How many spaces a line begins with.
fn spaces(line: &[u8]) -> usize
    ensures { result ≡ position_or_len is_word_byte line.now }
{
    for (place, byte) in line.iter().enumerate() {
        if *byte != b' ' {
            return place;
        }
    }
    line.len()
}

/// The offset of the first space of a line, and its length if it has none.
fn word_end(line: &[u8]) -> usize
    ensures { result ≡ position_or_len is_space line.now }
{
    for (place, byte) in line.iter().enumerate() {
        if *byte == b' ' {
            return place;
        }
    }
    line.len()
}

/// The first word of a line, and the rest of the line.
#[inline(always)]
pub fn next_word(line: &[u8]) -> Option<(&[u8], &[u8])>
    ensures { MatchOption result (words line.now ≡ []) (λ x. words line.now ≡ x.0.now ∷ words x.1.now) }
{
    let (_, line) = line.split_at(spaces(line));
    if line.is_empty() {
        return None;
    }
    Some(line.split_at(word_end(line)))
}

/// The rest of a line after its first word.
fn after_word(line: &[u8]) -> &[u8]
    ensures { words result.now ≡ drop 1 (words line.now) }
{
    match next_word(line) {
        Some((_, rest)) => rest,
        None => &[],
    }
}

/// The rest of a line after its first `count` words.
pub fn after_words(line: &[u8], count: usize) -> &[u8]
    ensures { words result.now ≡ drop count (words line.now) }
{
    let mut rest = line;
    for _ in 0..count {
        rest = after_word(rest);
    }
    rest
}

/// Whether a word is this one. `==` on slices costs more, since it calls a search for long ones.
#[inline(always)]
#[tactic(auto, using(crate::proofs::Spelling::is_spelled, crate::proofs::Spelling::other_length, crate::proofs::Spelling::other_byte))]
pub fn is_word(word: &[u8], name: &[u8]) -> bool
    ensures { result ≡ bytes_eq word.now name.now }
{
    if word.len() != name.len() {
        return false;
    }
    for place in 0..name.len() {
        if word[place] != name[place] {
            return false;
        }
    }
    true
}
