//! A script with media of units that may be images.

ghost use Rattle.std.specs.Prelude.{◌≤◌, vec_len};

use job_media::{sizes_of, with_sizes};
use job_script::{JobError, Script, read_script};
use medium_image::Image;
use std::alloc::Global;
use std::io::Read;

/// A script, in which the units with an image have its sizes.
#[derive(Drop)]
pub struct SizedScript {
    pub script: Script,
    ghost tasks: { (1 ≤ script.set_up.tasks) × (script.set_up.tasks ≤ 64) },
    ghost units: { (1 ≤ vec_len script.set_up.units) × (vec_len script.set_up.units ≤ 64) },
}

/// Reads a script. `images` has the image of each unit that is given one, by its number.
pub fn read_sized<I: Read>(
    alloc: Global,
    input: &mut I,
    images: &[Option<Image>],
) -> Result<SizedScript, JobError> {
    sized(alloc, &read_script(alloc, input)?, images)
}

/// The script of a text.
pub fn sized(
    alloc: Global,
    text: &[u8],
    images: &[Option<Image>],
) -> Result<SizedScript, JobError> {
    let sizes = sizes_of(alloc, images)?;
    let script = Script::parse(alloc, &with_sizes(alloc, text, &sizes)?)?;
    Ok(SizedScript { script })
}
