//! The images of units, read before a run.

use crate::progress::Progress;
use crate::words::{OpenedFile, UnitFile};
use crate::{NO_IMAGE, ended_by};
use job_script::JobError;
use medium_image::Image;
use std::alloc::Global;
use std::fs::File;
use std::io;
use std::io::{BufReader, Read};

/// The bytes that are read at a time.
const AT_A_TIME: usize = 1 << 16;

/// Reads the images of units, and lists them by unit number.
///
/// Error: the exit status. The package says what is wrong with an image.
pub fn load_all(rt: &HostRuntime, loads: &[UnitFile]) -> Result<Vec<Option<Image>>, u8> {
    let mut images: Vec<Option<Image>> = Vec::new(rt.alloc());
    for load in loads {
        let image = loaded(rt, &load.file)?;
        if put(&mut images, load.unit, image).is_none() {
            return Err(ended_by(rt, JobError::NoMemory));
        }
    }
    Ok(images)
}

/// Puts an image into the list, unless memory runs out.
fn put(images: &mut Vec<Option<Image>>, unit: u8, image: Image) -> Option<()> {
    let place = usize::from(unit);
    for _ in images.len()..=place {
        images.push(None).ok()?;
    }
    *images.get_mut(place)? = Some(image);
    Some(())
}

/// Reads an image.
fn loaded(rt: &HostRuntime, image: &OpenedFile) -> Result<Image, u8> {
    let Ok(file) = File::open(rt, image.path.as_str()) else {
        return Err(NO_IMAGE);
    };
    let mut progress = Progress::new(rt, image.name.as_str(), "read", file);
    let loaded = load_from(rt.alloc(), &mut progress);
    progress.end();
    match loaded {
        Ok(Some(image)) => Ok(image),
        Ok(None) => Err(NO_IMAGE),
        Err(_) => Err(ended_by(rt, JobError::NoMemory)),
    }
}

/// Reads an image from a file, if it is one. Error: out of memory.
fn load_from<R: Read>(alloc: Global, file: &mut R) -> io::Result<Option<Image>> {
    let mut reader = BufReader::with_capacity(alloc, AT_A_TIME, file)?;
    match Image::load(alloc, &mut reader) {
        Ok(image) => Ok(Some(image)),
        Err(error) if error.is_no_memory() => Err(io::ErrorKind::OutOfMemory.into()),
        Err(_) => Ok(None),
    }
}
