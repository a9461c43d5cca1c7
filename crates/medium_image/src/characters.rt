//! The characters of EBCDIC code page 037.

ghost use Rattle.std.specs.Prelude.{◌≡◌};
ghost use Rattle.medium_image.specs.Paper.{character};

/// Replaces a control character, which cannot be printed (profile).
const NO_CHARACTER: char = '\u{fffd}';

/// The characters from X'40' on, sixteen a row.
static GRAPHICS: [char; 192] = [
    // 40 to 4F
    ' ', '\u{a0}', 'â', 'ä', 'à', 'á', 'ã', 'å', 'ç', 'ñ', '¢', '.', '<', '(', '+', '|',
    // 50 to 5F
    '&', 'é', 'ê', 'ë', 'è', 'í', 'î', 'ï', 'ì', 'ß', '!', '$', '*', ')', ';', '¬',
    // 60 to 6F
    '-', '/', 'Â', 'Ä', 'À', 'Á', 'Ã', 'Å', 'Ç', 'Ñ', '¦', ',', '%', '_', '>', '?',
    // 70 to 7F
    'ø', 'É', 'Ê', 'Ë', 'È', 'Í', 'Î', 'Ï', 'Ì', '`', ':', '#', '@', '\'', '=', '"',
    // 80 to 8F
    'Ø', 'a', 'b', 'c', 'd', 'e', 'f', 'g', 'h', 'i', '«', '»', 'ð', 'ý', 'þ', '±',
    // 90 to 9F
    '°', 'j', 'k', 'l', 'm', 'n', 'o', 'p', 'q', 'r', 'ª', 'º', 'æ', '¸', 'Æ', '¤',
    // A0 to AF
    'µ', '~', 's', 't', 'u', 'v', 'w', 'x', 'y', 'z', '¡', '¿', 'Ð', 'Ý', 'Þ', '®',
    // B0 to BF
    '^', '£', '¥', '·', '©', '§', '¶', '¼', '½', '¾', '[', ']', '¯', '¨', '´', '×',
    // C0 to CF
    '{', 'A', 'B', 'C', 'D', 'E', 'F', 'G', 'H', 'I', '\u{ad}', 'ô', 'ö', 'ò', 'ó', 'õ',
    // D0 to DF
    '}', 'J', 'K', 'L', 'M', 'N', 'O', 'P', 'Q', 'R', '¹', 'û', 'ü', 'ù', 'ú', 'ÿ',
    // E0 to EF
    '\\', '÷', 'S', 'T', 'U', 'V', 'W', 'X', 'Y', 'Z', '²', 'Ô', 'Ö', 'Ò', 'Ó', 'Õ',
    // F0 to FF
    '0', '1', '2', '3', '4', '5', '6', '7', '8', '9', '³', 'Û', 'Ü', 'Ù', 'Ú', '\u{fffd}',
];

/// The character of a byte: that of code page 037, or U+FFFD for a control character.
pub(crate) fn character(byte: u8) -> char
    ensures { result ≡ character byte }
{
    match byte.checked_sub(0x40) {
        Some(place) => GRAPHICS[usize::from(place)],
        None => NO_CHARACTER,
    }
}
