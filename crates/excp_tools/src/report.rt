//! A run of a script on threads, and its record.

use crate::UNFIT;
use crate::record::print_record;
use crate::recorded_run::{RecordedRun, run_recorded};
use crate::saver::{Medium, Saver, fits};
use crate::script::{SizedScript, read_sized};
use crate::unit_records::unit_records;
use crate::words::Words;
use any_device::AnyDevice;
use job_media::{MountedImages, mount_images};
use job_script::{JobError, Script};
use medium_image::{Image, Kept};
use run_record::Run;
use std::cell::Cell;
use std::sync::Wait;
use std::thread::Threads;
use unit_book::UnitBook;
use unit_history::HistoryError;

/// Runs the script of standard input, prints the record of the run, and saves media. Returns the exit status. `is_broken` is set
/// once nothing reads any more what is printed.
pub fn report<R: Threads + Wait + Sync>(
    rt: &HostRuntime,
    threads: &R,
    words: &Words,
    images: Vec<Option<Image>>,
    is_broken: &Cell<bool>,
) -> Result<u8, JobError> {
    let alloc = rt.alloc();
    let SizedScript { script, .. } = read_sized(alloc, &mut rt.stdin(), &images)?;
    if !fits(alloc, words, &script.set_up.units) {
        return Ok(UNFIT);
    }
    let MountedImages { devices, kept } = mount_images(alloc, &script.set_up.units, images)?;
    let mut saver = Saver::new(rt, words);
    let run = run_recorded(threads, alloc, &script, devices, words.workers())?;
    let printed = print_run(rt, &script, &run, words, is_broken);
    save_media(&mut saver, run.report.units(), &kept);
    match printed {
        // the media are saved, although nothing reads the record
        Err(JobError::NotWritten) if is_broken.get() => Ok(saver.status),
        _ => printed.map(|()| saver.status),
    }
}

/// Prints the record of a run.
fn print_run(
    rt: &HostRuntime,
    script: &Script,
    run: &RecordedRun,
    words: &Words,
    is_broken: &Cell<bool>,
) -> Result<(), JobError> {
    let units = unit_records(rt.alloc(), &script.set_up, run.report.units())?;
    let record = Run {
        tasks: &run.tasks,
        units: &units,
    };
    match print_record(rt, &record, words.part(), is_broken) {
        Ok(()) => Ok(()),
        Err(HistoryError::NoMemory) => Err(JobError::NoMemory),
        Err(HistoryError::NotWritten) => Err(JobError::NotWritten),
    }
}

/// Writes the media of a run that are to be saved.
fn save_media(saver: &mut Saver<'_>, books: &[UnitBook<AnyDevice>], kept: &[Option<Kept>]) {
    for (unit, book) in books.iter().enumerate() {
        let kept = match kept.get(unit) {
            Some(Some(kept)) => Some(kept),
            _ => None,
        };
        let medium = Medium {
            mounted: book.mounted(),
            now: book.device(),
            kept,
        };
        saver.write(unit, medium);
    }
}
