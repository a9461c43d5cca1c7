//! The search for every outcome of a job. The package asks, and tells what it is answered.
//!
//! Standard input has a question on each line:
//!
//!     job LENGTH            first: the text of the script follows, which is searched
//!     try STATES LENGTH     the text of a changed script follows, which is searched up to this number of states
//!     steps REQUEST PLACE   the steps that first reach an outcome of a request, by its place among them
//!     short REQUEST PLACE   of these only steps that the outcome needs
//!     whole PLACE           the steps that lead to a whole output
//!     media UNIT PLACE      the steps of a whole run that leaves a medium of a unit, by its place among them
//!     run                   the steps of some whole run
//!
//! Requests are counted from 0, by tasks and then as a task issues them. The answers are lines of JSON ([`crate::answers`]).

use crate::UNFIT;
use crate::answers::{write_found, write_lack, write_steps};
use crate::pace::Pace;
use crate::saver::fits;
use crate::screen::Screen;
use crate::script::{SizedScript, sized};
use crate::words::{USAGE, Words};
use any_device::AnyDevice;
use book_states::{Step, opened_job};
use device_port::Device;
use job_media::{MountedImages, mount_images};
use job_script::{JobError, Script};
use medium_image::Image;
use outcome_search::{Limits, Search, SearchWatch, Sought};
use std::alloc::{AllocError, Global};
use std::cell::Cell;
use std::io::{BufRead, BufReader, BufWriter, ErrorKind, Read, Write};
use unit_book::UnitBook;

/// The most bytes that a search takes, about.
const MOST_BYTES: usize = 512 << 20;

/// The most bytes of a script, also of one that was changed.
const MOST_TEXT: usize = 1 << 22;

/// The questions.
#[derive(Drop)]
struct Questions<R: Read + Drop> {
    alloc: Global,
    reader: BufReader<R>,
    line: Vec<u8>,
}

/// A question.
#[derive(Clone, Copy)]
enum Question {
    Job {
        length: usize,
    },
    Try {
        states: u32,
        length: usize,
    },
    Steps {
        request: u16,
        place: usize,
        is_short: bool,
    },
    Whole {
        place: usize,
    },
    Media {
        unit: u16,
        place: usize,
    },
    Run,
}

impl<R: Read + Drop> Questions<R> {
    /// Before the first one.
    fn new(alloc: Global, reader: R) -> Result<Self, JobError> {
        let Ok(reader) = BufReader::new(alloc, reader) else {
            return Err(JobError::NoMemory);
        };
        let line = Vec::new(alloc);
        Ok(Questions {
            alloc,
            reader,
            line,
        })
    }

    /// The next one. It is none at the end, and after a line that is no question.
    fn next(&mut self) -> Result<Option<Question>, JobError> {
        self.line.clear();
        match self.reader.read_until(b'\n', &mut self.line) {
            Ok(_) => Ok(question_of(&self.line)),
            Err(error) if error.kind() == ErrorKind::OutOfMemory => Err(JobError::NoMemory),
            Err(_) => Err(JobError::Unreadable),
        }
    }

    /// The text of a script, which comes after its question.
    fn text(&mut self, length: usize) -> Result<Vec<u8>, JobError> {
        let mut text = vec![in self.alloc; 0; length.min(MOST_TEXT)]?;
        match self.reader.read_exact(&mut text) {
            Ok(()) => Ok(text),
            Err(_) => Err(JobError::Unreadable),
        }
    }
}

/// What a line asks.
fn question_of(line: &[u8]) -> Option<Question> {
    let line = std::str::from_utf8(line).ok()?;
    let (word, rest) = line
        .trim_end()
        .split_once(' ')
        .unwrap_or((line.trim_end(), ""));
    let (first, second) = rest.split_once(' ').unwrap_or((rest, ""));
    match word {
        "job" => Some(Question::Job {
            length: first.parse().ok()?,
        }),
        "try" => Some(Question::Try {
            states: first.parse().ok()?,
            length: second.parse().ok()?,
        }),
        "steps" | "short" => Some(Question::Steps {
            request: first.parse().ok()?,
            place: second.parse().ok()?,
            is_short: word == "short",
        }),
        "whole" => Some(Question::Whole {
            place: first.parse().ok()?,
        }),
        "media" => Some(Question::Media {
            unit: first.parse().ok()?,
            place: second.parse().ok()?,
        }),
        "run" => Some(Question::Run),
        _ => None,
    }
}

/// Answers the questions of standard input, and returns the exit status. `is_broken` is set once nothing reads the answers any more.
pub fn outcomes(
    rt: &HostRuntime,
    words: &Words,
    images: Vec<Option<Image>>,
    is_broken: &Cell<bool>,
) -> Result<u8, JobError> {
    let alloc = rt.alloc();
    let mut questions = Questions::new(alloc, rt.stdin())?;
    let Some(Question::Job { length }) = questions.next()? else {
        return Ok(USAGE);
    };
    let text = questions.text(length)?;
    let SizedScript { script, .. } = sized(alloc, &text, &images)?;
    if !fits(alloc, words, &script.set_up.units) {
        return Ok(UNFIT);
    }
    let MountedImages { devices, .. } = mount_images(alloc, &script.set_up.units, images)?;
    let screen = Screen::new(rt.stdout(), is_broken);
    let Ok(mut out) = BufWriter::new(alloc, screen) else {
        return Err(JobError::NoMemory);
    };
    let (job, books) = opened_job(alloc, &script, devices)?;
    let sought = Sought {
        turn: words.turn,
        every_order: words.unreduced,
        wholes: words.whole,
        media: words.media,
    };
    let mut search = Search::new(alloc, &job, copies(alloc, &books)?, sought)?;
    let mut pace = Pace::new(rt, words.seconds, MOST_BYTES);
    let limits = Limits {
        states: words.states,
        bytes: MOST_BYTES,
    };
    search.explore(limits, &mut pace);
    said(write_found(&mut out, &search, &job))?;
    let trials = Trials {
        alloc,
        books: &books,
        sought: Sought {
            wholes: false,
            ..sought
        },
        bytes: MOST_BYTES.saturating_sub(search.bytes()),
    };
    for _ in 0..u64::MAX {
        said(out.flush())?;
        let Some(question) = questions.next()? else {
            break;
        };
        match question {
            Question::Job { .. } => return Ok(USAGE),
            Question::Try { states, length } => {
                let text = questions.text(length)?;
                trials.answer(&text, states, &mut out)?;
            }
            _ => {
                let steps = steps_of(&mut search, question)?;
                said(write_steps(&mut out, steps.as_deref()))?;
            }
        }
    }
    Ok(0)
}

/// The steps that a question asks for.
fn steps_of(search: &mut Search<'_>, question: Question) -> Result<Option<Vec<Step>>, AllocError> {
    match question {
        Question::Steps {
            request,
            place,
            is_short,
        } => {
            let Some(outcome) = search.outcomes(request).get(place).copied() else {
                return Ok(None);
            };
            if is_short {
                search.short_witness(request, outcome.key)
            } else {
                search.witness(request, outcome.key)
            }
        }
        Question::Whole { place } => search.whole_witness(place),
        Question::Media { unit, place } => {
            let Some(medium) = search.media(unit).get(place).copied() else {
                return Ok(None);
            };
            search.medium_witness(unit, medium.key)
        }
        _ => search.run(),
    }
}

/// Searches of changed scripts.
#[derive(Drop)]
struct Trials<'b> {
    alloc: Global,
    /// Whose devices the units have.
    books: &'b [UnitBook<AnyDevice>],
    sought: Sought,
    /// The most bytes that one takes, about.
    bytes: usize,
}

/// Lets a search go on.
#[derive(Drop)]
struct Patience;

impl SearchWatch for Patience {
    fn may_go_on(&mut self, _: usize, _: usize) -> bool {
        true
    }

    fn end(&mut self) {}
}

impl<'b> Trials<'b> {
    /// Searches a changed script, and writes what was found: nothing if memory runs out.
    fn answer<W: Write>(&self, text: &[u8], states: u32, out: &mut W) -> Result<(), JobError> {
        match self.search(text, states, out) {
            Err(JobError::NoMemory) => said(write_lack(out)),
            answered => answered,
        }
    }

    fn search<W: Write>(&self, text: &[u8], states: u32, out: &mut W) -> Result<(), JobError> {
        let script = Script::parse(self.alloc, text)?;
        let (job, books) = opened_job(self.alloc, &script, devices(self.alloc, self.books)?)?;
        let mut search = Search::new(self.alloc, &job, books, self.sought)?;
        let limits = Limits {
            states,
            bytes: self.bytes,
        };
        search.explore(limits, &mut Patience);
        said(write_found(out, &search, &job))
    }
}

/// Copies of the devices of books.
fn devices(
    alloc: Global,
    books: &[UnitBook<AnyDevice>],
) -> Result<Vec<Option<AnyDevice>>, AllocError> {
    let mut copies = Vec::with_capacity(alloc, books.len())?;
    for book in books {
        copies.push(Some(book.device().copy()?))?;
    }
    Ok(copies)
}

/// Copies of books.
fn copies(
    alloc: Global,
    books: &[UnitBook<AnyDevice>],
) -> Result<Vec<UnitBook<AnyDevice>>, AllocError> {
    let mut copies = Vec::with_capacity(alloc, books.len())?;
    for book in books {
        copies.push(book.copy()?)?;
    }
    Ok(copies)
}

/// What a write comes to.
fn said(written: std::io::Result<()>) -> Result<(), JobError> {
    written.or(Err(JobError::NotWritten))
}
