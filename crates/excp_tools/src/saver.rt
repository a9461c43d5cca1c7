//! Files that the package has opened for the media that a run leaves.

use crate::file_name::FileName;
use crate::progress::Progress;
use crate::words::{OpenedFile, UnitFile, Words};
use crate::{REJECTED, ended_by};
use any_device::AnyDevice;
use ckd_image::DiskImageDetails;
use job_script::{JobError, UnitSetup};
use medium_image::{SaveError, save};
use std::alloc::Global;
use std::fs::{File, OpenOptions};
use std::io;
use std::io::{BufWriter, ErrorKind, Write};

/// The bytes that are written at a time.
const AT_A_TIME: usize = 1 << 16;

/// A medium to save: as it was mounted, as it is, and what the file has beside it that it came from.
#[derive(Clone, Copy)]
pub struct Medium<'a> {
    pub mounted: &'a AnyDevice,
    pub now: &'a AnyDevice,
    pub kept: Option<&'a medium_image::Kept>,
}

/// Writes media to the files of their units. The first that is not written is the last.
#[derive(Drop)]
pub struct Saver<'a> {
    rt: &'a HostRuntime,
    saves: &'a [UnitFile],
    /// The exit status.
    pub status: u8,
}

impl<'a> Saver<'a> {
    /// Has written nothing yet.
    pub fn new(rt: &'a HostRuntime, words: &'a Words) -> Self {
        Saver {
            rt,
            saves: &words.saves,
            status: 0,
        }
    }

    /// Writes the medium of a unit, if it is to be saved and nothing has failed.
    pub fn write(&mut self, unit: usize, medium: Medium<'_>) {
        for save in self.saves {
            if self.status == 0 && usize::from(save.unit) == unit {
                self.status = self.written(&save.file, medium);
            }
        }
    }

    /// Writes a medium, and returns the exit status.
    fn written(&self, output: &OpenedFile, medium: Medium<'_>) -> u8 {
        let file = match emptied(self.rt, output) {
            Ok(file) => file,
            Err(error) => return not_written(self.rt, output, error.kind()),
        };
        let mut progress = Progress::new(self.rt, output.name.as_str(), "written", file);
        let written = write_medium(self.rt.alloc(), &mut progress, medium);
        progress.end();
        match written {
            Err(SaveError::NotWritten(kind)) => not_written(self.rt, output, kind),
            Err(_) => ended_by(self.rt, JobError::NoMemory),
            Ok(()) => match progress.file().sync_all() {
                Ok(()) => 0,
                Err(error) => not_written(self.rt, output, error.kind()),
            },
        }
    }
}

/// Opens a file to be written from its first byte on.
fn emptied(rt: &HostRuntime, output: &OpenedFile) -> io::Result<File> {
    OpenOptions::new()
        .write(true)
        .truncate(true)
        .open(rt, output.path.as_str())
}

/// Prints why a file is not written, and returns the exit status.
fn not_written(rt: &HostRuntime, output: &OpenedFile, kind: ErrorKind) -> u8 {
    let why = match kind {
        ErrorKind::OutOfMemory => return ended_by(rt, JobError::NoMemory),
        ErrorKind::StorageFull => "the disk is full",
        ErrorKind::FileTooLarge => "the file gets larger than this user's files may be",
        _ => "the file cannot be written",
    };
    let _ = eprintln!(rt; "excp: {}: {why}", FileName(output.name.as_str()));
    REJECTED
}

fn write_medium<W: Write>(
    alloc: Global,
    file: &mut W,
    medium: Medium<'_>,
) -> Result<(), SaveError> {
    let Ok(mut out) = BufWriter::with_capacity(alloc, AT_A_TIME, file) else {
        return Err(SaveError::NoMemory);
    };
    save(alloc, &mut out, medium.kept, medium.mounted, medium.now)?;
    match out.flush() {
        Ok(()) => Ok(()),
        Err(error) => Err(SaveError::NotWritten(error.kind())),
    }
}

/// Whether the words fit the units of a script: each that they name is declared, and each disk that is to be saved comes from an
/// image or is a model.
pub fn fits(alloc: Global, words: &Words, units: &[UnitSetup]) -> bool {
    let mut named = words.loads.iter().chain(&words.saves);
    named.all(|file| usize::from(file.unit) < units.len())
        && words.saves.iter().all(|save| {
            let is_loaded = words.loads.iter().any(|load| load.unit == save.unit);
            is_loaded
                || units
                    .get(usize::from(save.unit))
                    .map_or(false, |unit| is_model(alloc, unit))
        })
}

/// Whether a disk by the lines of its unit can be saved, since there is such a model. Every other medium can.
fn is_model(alloc: Global, unit: &UnitSetup) -> bool {
    let job_script::InitialMedium::Disk(geometry, _) = &unit.medium else {
        return true;
    };
    match (
        u16::try_from(geometry.heads),
        u32::try_from(geometry.track_bytes),
    ) {
        (Ok(heads), Ok(track_bytes)) => DiskImageDetails::of_model(
            alloc,
            heads,
            track_bytes,
        ).is_ok(),
        _ => true,
    }
}
