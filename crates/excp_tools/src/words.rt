//! The words that python/excp hands over: `WORD NAME=VALUE ..`. It has judged them, so each has a value of its form.
//!
//! A file is `FD=NAME`: the number under which the package has opened it, and its name in texts.

ghost use Rattle.std.specs.Prelude.{◌≤◌};

use job_run::Workers;
use job_script::JobError;
use record_lines::RecordDetail;
use std::alloc::{AllocError, Global};
use std::env;
use std::io::ErrorKind;

/// The exit status of words that the package does not hand over.
pub(crate) const USAGE: u8 = 2;

/// What is to be done with a script.
#[derive(Clone, Copy)]
pub enum Word {
    Report,
    Outcomes,
}

/// Which part of the record of a run is printed.
#[derive(Clone, Copy)]
pub enum Form {
    Posts,
    Events,
    Steps,
}

/// A file that the package has opened: its path, and its name in texts.
#[derive(Drop)]
pub struct OpenedFile {
    pub path: String,
    pub name: String,
}

/// A unit, and the file that its medium is loaded from or saved to.
#[derive(Drop)]
pub struct UnitFile {
    pub unit: u8,
    pub file: OpenedFile,
}

/// What is asked for.
#[derive(Drop)]
pub struct Words {
    pub word: Word,
    /// The part of the record.
    pub form: Option<Form>,
    /// The most commands of each unit that are printed.
    most: u64,
    pub loads: Vec<UnitFile>,
    pub saves: Vec<UnitFile>,
    channels: u8,
    handlers: u8,
    /// How many commands a program does between two steps of others, and the most states and seconds of a search.
    pub turn: u32,
    pub states: u32,
    pub seconds: u64,
    /// Whether whole outputs are sought, and media, and whether every order of steps is tried.
    pub whole: bool,
    pub media: bool,
    pub unreduced: bool,
}

impl Words {
    /// Before any name is read.
    fn new(alloc: Global, word: Word) -> Self {
        Words {
            word,
            form: None,
            most: u64::MAX,
            loads: Vec::new(alloc),
            saves: Vec::new(alloc),
            channels: 1,
            handlers: 1,
            turn: 64,
            states: 1_000_000,
            seconds: u64::MAX,
            whole: false,
            media: false,
            unreduced: false,
        }
    }

    /// The numbers of workers.
    pub fn workers(&self) -> Workers {
        Workers {
            channels: within(self.channels, 16),
            handlers: within(self.handlers, 8),
        }
    }

    /// The part of the record of a run that is printed.
    pub fn part(&self) -> RecordDetail {
        match self.form {
            Some(Form::Posts) => RecordDetail::Posts,
            Some(Form::Steps) => RecordDetail::Steps(self.most),
            Some(Form::Events) | None => RecordDetail::Events,
        }
    }

    /// Takes a name with its value. Returns whether there is such a one.
    fn take(&mut self, alloc: Global, name: &str, value: &str) -> Result<bool, AllocError> {
        match name {
            "load" => return added(alloc, &mut self.loads, value),
            "save" => return added(alloc, &mut self.saves, value),
            "whole" => self.whole = true,
            "media" => self.media = true,
            "unreduced" => self.unreduced = true,
            _ => return Ok(self.set(name, value).is_some()),
        }
        Ok(true)
    }

    /// Sets what a form or a number is the value of.
    fn set(&mut self, name: &str, value: &str) -> Option<()> {
        match name {
            "form" => self.form = Some(form_of(value)?),
            "channels" => self.channels = value.parse().ok()?,
            "handlers" => self.handlers = value.parse().ok()?,
            "most" => self.most = value.parse().ok()?,
            "turn" => self.turn = value.parse().ok()?,
            "states" => self.states = value.parse().ok()?,
            "seconds" => self.seconds = value.parse().ok()?,
            _ => return None,
        }
        Some(())
    }
}

/// A number from 1 to the most.
fn within(number: u8, most: u8) -> u8
    requires { 1 ≤ most }
    ensures least { 1 ≤ result }
    ensures most { result ≤ most }
{
    if number < 1 {
        1
    } else if number > most {
        most
    } else {
        number
    }
}

/// Reads the words, before any byte of the script. Error: the exit status, after its text was printed.
pub fn read(rt: &HostRuntime) -> Result<Words, u8> {
    match words_of(rt) {
        Ok(Some(words)) => Ok(words),
        Ok(None) => {
            let _ = eprintln!(rt;
                "excp_tools is called by excp: type excp WORD, as in excp report FILE"
            );
            Err(USAGE)
        }
        Err(AllocError) => Err(crate::ended_by(rt, JobError::NoMemory)),
    }
}

/// The words, if the package hands over such.
fn words_of(rt: &HostRuntime) -> Result<Option<Words>, AllocError> {
    let mut given = match env::args(rt) {
        Ok(given) => given.skip(1),
        Err(error) if error.kind() == ErrorKind::OutOfMemory => return Err(AllocError),
        Err(_) => return Ok(None),
    };
    let Some(word) = given.next() else {
        return Ok(None);
    };
    let Some(word) = word_of(word.as_str()) else {
        return Ok(None);
    };
    let mut words = Words::new(rt.alloc(), word);
    for word in given {
        let (name, value) = word.split_once('=').unwrap_or((word.as_str(), ""));
        if !words.take(rt.alloc(), name, value)? {
            return Ok(None);
        }
    }
    Ok(Some(words))
}

fn word_of(word: &str) -> Option<Word> {
    match word {
        "report" => Some(Word::Report),
        "outcomes" => Some(Word::Outcomes),
        _ => None,
    }
}

fn form_of(value: &str) -> Option<Form> {
    match value {
        "posts" => Some(Form::Posts),
        "events" => Some(Form::Events),
        "steps" => Some(Form::Steps),
        _ => None,
    }
}

/// The file of `FD=NAME`.
fn opened(alloc: Global, value: &str) -> Result<Option<OpenedFile>, AllocError> {
    let Some((descriptor, name)) = value.split_once('=') else {
        return Ok(None);
    };
    let path = format!(in alloc; "/proc/self/fd/{descriptor}")?;
    let name = String::from_str(alloc, name)?;
    Ok(Some(OpenedFile { path, name }))
}

/// Adds the file of `U=FD=NAME`. Returns whether the value is one.
fn added(alloc: Global, files: &mut Vec<UnitFile>, value: &str) -> Result<bool, AllocError> {
    let Some((unit, file)) = value.split_once('=') else {
        return Ok(false);
    };
    let Some(unit) = unit.parse().ok() else {
        return Ok(false);
    };
    let Some(file) = opened(alloc, file)? else {
        return Ok(false);
    };
    files.push(UnitFile { unit, file })?;
    Ok(true)
}
