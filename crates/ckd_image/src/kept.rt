//! What an image has beside the records of its tracks.

ghost use Rattle.std.specs.Prelude.{◌≡◌, ◌+◌, ◌<◌, ◌≤◌, Ok, IfOk, [], length};
ghost use Rattle.std.specs.Bool.{Decides, OnTrue};
ghost use Rattle.ckd_image.specs.Header.{format_of};
ghost use Rattle.ckd_image.specs.Image.{kept_at, plain};
ghost use Rattle.ckd_image.specs.Saving.{ForgetsWritten};

use crate::fault::DiskSaveError;
use crate::format::{BESIDE, Format, HEADER};
use crate::models::device_type;
use crate::saver::is_as_mounted;
use byteorder::{ByteOrder, LittleEndian};
use ckd_disk::{Disk, Volume};
use device_port::Device;
use std::alloc::Global;
use std::marker::Model;

/// A volume from an image, and what the image has beside it. Both are needed to save the image as it was.
#[derive(Debug, Drop)]
pub struct DiskImage {
    pub volume: Volume,
    pub kept: DiskImageDetails,
}

/// What an image has beside the records of its tracks.
#[derive(Debug, Drop)]
pub struct DiskImageDetails {
    header: [u8; 512],
    tracks: Vec<KeptTrack>,
}

impl Model for DiskImageDetails {
    ghost use Rattle.ckd_image.specs.Image.{KeptState};

    ghost Value = { KeptState };

    ghost view = { λ k. record { header = k.header; tracks = k.tracks.items } };
}

/// What a track has beside its records: the flag byte of its home address, and the bytes after its end mark unless
/// they are all zero.
#[derive(Debug, Drop)]
pub struct KeptTrack {
    flag: u8,
    tail: Vec<u8>,
}

impl Model for KeptTrack {
    ghost use Rattle.ckd_image.specs.Image.{KeptTrackState};

    ghost Value = { KeptTrackState };

    ghost view = { λ k. record { flag = k.flag; tail = k.tail.items } };
}

impl KeptTrack {
    /// A track with this flag and these bytes after its end mark; none if they are all zero.
    pub(crate) fn new(flag: u8, tail: Vec<u8>) -> Self
        ensures { result ≡ record { flag = flag; tail = tail.items } }
    {
        KeptTrack { flag, tail }
    }

    /// Has flag 00 and zeros from here on.
    fn forget(&mut self)
        ensures { self.new ≡ plain }
    {
        self.flag = 0;
        self.tail.clear();
    }
}

impl DiskImageDetails {
    /// What an image with this header has beside its records.
    pub(crate) fn new(header: [u8; 512], tracks: Vec<KeptTrack>) -> Self
        ensures { result ≡ record { header = header; tracks = tracks.items } }
    {
        DiskImageDetails { header, tracks }
    }

    /// What a new image of a disk has, if the disk is that of a model.
    ///
    /// Error: `NoModel`.
    pub fn of_model(alloc: Global, heads: u16, track_bytes: u32) -> Result<Self, DiskSaveError>
        ensures format { IfOk result (λ k. format_of k.header ≡ Ok (record { heads = heads; bytes = track_bytes + 14 })) }
        ensures tracks { IfOk result (λ k. k.tracks ≡ []) }
    {
        let no_model = DiskSaveError::NoModel { heads, track_bytes };
        let Some(device_type) = device_type(heads, track_bytes) else {
            return Err(no_model);
        };
        let Some(bytes) = track_bytes.checked_add(BESIDE) else {
            return Err(no_model);
        };
        let mut header = [0; HEADER];
        header[..8].copy_from_slice(b"CKD_P370");
        LittleEndian::write_u32(&mut header[8..], u32::from(heads));
        LittleEndian::write_u32(&mut header[12..], bytes);
        header[16] = device_type;
        // The header is read back, so that the contract needs no proof of how it was put together.
        match Format::of(&header) {
            Ok(format) if format == (Format { heads, bytes }) => Ok(DiskImageDetails {
                header,
                tracks: Vec::new(alloc),
            }),
            _ => Err(no_model),
        }
    }

    /// Whether the header is that of a disk with these heads, and these bytes a track on a volume.
    pub(crate) fn is_of(&self, heads: u16, track_bytes: u32) -> bool
        requires { track_bytes ≤ 65_535 }
        ensures format { Decides result (format_of self.now.header ≡ Ok (record { heads = heads; bytes = track_bytes + 14 })) }
        ensures heads { OnTrue result (1 ≤ heads) }
    {
        match Format::of(&self.header) {
            Ok(format) => format.heads == heads && format.bytes == track_bytes + BESIDE,
            Err(_) => false,
        }
    }

    /// The header.
    pub(crate) fn header(&self) -> &[u8]
        ensures header { result.now ≡ self.now.header }
        ensures long { length result.now ≡ 512 }
    {
        &self.header
    }

    /// Forgets what it has of the tracks whose records are not those of the disk as it was mounted. So the image of the disk stays
    /// the same if `disk` is the mounted one from here on.
    pub fn forget_written(&mut self, mounted: &Disk, disk: &Disk)
        ensures { ForgetsWritten self.old mounted.now disk.now self.new }
    {
        let count = self.tracks.len().min(disk.tracks());
        for number in 0..count {
            if !is_as_mounted(mounted, disk.track_image(number), number) {
                self.tracks[number].forget();
            }
        }
    }

    /// The flag of a track; 0 of one that is not kept.
    pub(crate) fn flag(&self, number: usize) -> u8
        ensures { result ≡ (kept_at self.now.tracks number).flag }
    {
        if number >= self.tracks.len() {
            return 0;
        }
        self.tracks[number].flag
    }

    /// The bytes after the end mark of a track; none if they are all zero.
    pub(crate) fn tail(&self, number: usize) -> &[u8]
        ensures { result.now ≡ (kept_at self.now.tracks number).tail }
    {
        if number >= self.tracks.len() {
            return &[];
        }
        &self.tracks[number].tail
    }
}
