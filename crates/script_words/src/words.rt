//! A line and the offsets of its words, found in one pass over its bytes.

ghost use Rattle.std.specs.Prelude.{◌≡◌, ◌<◌, ◌≤◌, ◌+◌, ◌∷◌, [], drop, get_or, length, option_copied, take};
ghost use Rattle.script_words.specs.Scan.{Closed, Scanned};
ghost use Rattle.script_words.specs.Text.{bytes_left, is_printable, lines, lines_left, words};

/// A line and the offsets of its first eight words. One value serves all lines of a text, one after the other.
#[derive(Clone, Copy)]
pub struct LineWords<'a> {
    /// The bytes of the line, without its line feed.
    pub line: &'a [u8],
    places: Places,
    count: usize,
    printable: bool,
    ghost closed: { Closed line.now places.starts places.ends count (length line.now) },
    ghost bytes: { printable ≡ is_printable line.now },
}

impl<'a> LineWords<'a> {
    /// An empty line.
    pub fn new() -> Self
        ensures { result.line.now ≡ [] }
    {
        let places = Places {
            starts: [0; 8],
            ends: [0; 8],
        };
        LineWords {
            line: &[],
            places,
            count: 0,
            printable: true,
        }
    }

    /// Takes the first line of a text, and returns the text after its line feed, if it has one.
    #[inline(always)]
    pub fn scan(&mut self, text: &'a [u8]) -> Option<&'a [u8]>
        ensures line { lines text.now ≡ self.new.line.now ∷ lines_left (option_copied result) }
        ensures shorter { bytes_left (option_copied result) ≤ length text.now }
    {
        let places = &mut self.places;
        // These are variables, since a field would be loaded and stored at each word.
        let mut count: usize = 0;
        let mut start: usize = 0;
        let mut printable = true;
        for (place, byte) in text.iter().enumerate() {
            // The test for the bytes of words comes first, since most bytes are such.
            if b'!' <= *byte && *byte <= b'~' {
                continue;
            }
            match *byte {
                b' ' => {
                    count = places.close(text, count, start, place);
                    start = place + 1;
                }
                b'\n' => {
                    let (line, _) = text.split_at(place);
                    let (_, after) = text.split_at(place + 1);
                    self.count = places.close(text, count, start, place);
                    self.line = line;
                    self.printable = printable;
                    return Some(after);
                }
                _ => printable = false,
            }
        }
        self.count = places.close(text, count, start, text.len());
        self.line = text;
        self.printable = printable;
        None
    }

    /// Returns the word with this number. The first word has the number 0. Past the last word it returns an empty word.
    #[inline(always)]
    pub fn word(&self, number: usize) -> &'a [u8]
        requires { number < 8 }
        ensures { result.now ≡ get_or (words self.now.line.now) number [] }
    {
        if number < self.count {
            &self.line[self.places.starts[number]..self.places.ends[number]]
        } else {
            &[]
        }
    }

    /// How many words the line has.
    #[inline(always)]
    pub fn count(&self) -> usize
        ensures { result ≡ length (words self.now.line.now) }
    {
        self.count
    }

    /// Whether each byte is a printable ASCII character or a space.
    #[inline(always)]
    pub fn is_printable(&self) -> bool
        ensures { result ≡ is_printable self.now.line.now }
    {
        self.printable
    }
}

/// The offsets of the first eight words.
#[derive(Clone, Copy)]
struct Places {
    starts: [usize; 8],
    ends: [usize; 8],
}

impl Places {
    /// Ends the word that begins at `start` before this offset, if it has a byte. Returns how many words there are then.
    #[inline(always)]
    fn close(&mut self, text: &[u8], count: usize, start: usize, place: usize) -> usize
        requires scanned { Scanned text.now self.old.starts self.old.ends count start place }
        requires inside { place ≤ length text.now }
        requires few { count ≤ place }
        ensures closed { Closed text.now self.new.starts self.new.ends result place }
        ensures few { result ≤ place + 1 }
    {
        if start >= place {
            return count;
        }
        if count < 8 {
            self.starts[count] = start;
            self.ends[count] = place;
        }
        count + 1
    }
}
