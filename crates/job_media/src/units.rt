//! The images of all units.

ghost use Rattle.std.specs.Prelude.{◌≡◌, ◌++◌, ◌∷◌, [], IfOk, OnOk, IfErr, map, option_map};
ghost use Rattle.std.specs.List.{zip};
ghost use Rattle.medium_image.specs.Images.{image_size};
ghost use Rattle.job_media.specs.Mounting.{AnswersMounting, MountsAll, unit_has, units_have};

use crate::mounting::{MediaError, mounted};
use any_device::AnyDevice;
use job_script::UnitSetup;
use medium_image::{Image, Kept, Size};
use std::alloc::{AllocError, Global};

/// The devices that units are given, and what the files of their images have beside, by the numbers of the units.
#[derive(Drop)]
pub struct MountedImages {
    pub devices: Vec<Option<AnyDevice>>,
    pub kept: Vec<Option<Kept>>,
}

/// The sizes of images, by the numbers of their units.
pub fn sizes_of(alloc: Global, images: &[Option<Image>]) -> Result<Vec<Option<Size>>, AllocError>
    ensures { IfOk result (λ sizes. sizes.items ≡ map (option_map image_size) images.now) }
{
    let mut sizes = Vec::new(alloc);
    for image in images {
        let size = match image {
            Some(image) => Some(image.size()),
            None => None,
        };
        sizes.push(size)?;
    }
    Ok(sizes)
}

/// Mounts the images of units, in the order of their numbers. The lists that are returned are as long as the shorter of
/// these two: an image of no unit is dropped.
///
/// Error: that of the first unit whose image is not mounted, or out of memory.
pub fn mount_images(
    alloc: Global,
    units: &[UnitSetup],
    images: Vec<Option<Image>>,
) -> Result<MountedImages, MediaError>
    ensures { MountsAll (units_have (zip units.now images.items)) result }
{
    let mut mounted = MountedImages {
        devices: Vec::new(alloc),
        kept: Vec::new(alloc),
    };
    for (unit, image) in units.iter().zip(images) {
        let (device, kept) = match mounted_if_any(alloc, unit, image) {
            Ok(mounted) => mounted,
            Err(error) => return Err(error),
        };
        mounted.push(device, kept)?;
    }
    Ok(mounted)
}

/// The device of a unit and what is kept of its image, if it has one.
fn mounted_if_any(
    alloc: Global,
    unit: &UnitSetup,
    image: Option<Image>,
) -> Result<(Option<AnyDevice>, Option<Kept>), MediaError>
    ensures { AnswersMounting (unit_has unit.now image) result }
{
    let Some(image) = image else {
        return Ok((None, None));
    };
    match mounted(alloc, image, unit) {
        Ok((device, kept)) => Ok((Some(device), Some(kept))),
        Err(error) => Err(error),
    }
}

impl MountedImages {
    /// Adds what the next unit has.
    fn push(&mut self, device: Option<AnyDevice>, kept: Option<Kept>) -> Result<(), MediaError>
        ensures devices { OnOk result (self.new.devices.items ≡ self.old.devices.items ++ device ∷ []) }
        ensures kept { OnOk result (self.new.kept.items ≡ self.old.kept.items ++ kept ∷ []) }
        ensures memory { IfErr result (λ e. e ≡ MediaError.NoMemory) }
    {
        let Ok(()) = self.devices.push(device) else {
            return Err(MediaError::NoMemory);
        };
        match self.kept.push(kept) {
            Ok(()) => Ok(()),
            Err(_) => Err(MediaError::NoMemory),
        }
    }
}
