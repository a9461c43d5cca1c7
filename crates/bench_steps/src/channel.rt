//! A channel program on a subchannel with a model disk, run again and again.

use ckd_disk::{Disk, Geometry, InitialRecord};
use device_port::{Device, Fault};
use io_area::Area;
use io_images::{Address, FileMask, Seek};
use std::alloc::{AllocError, Global};
use subchannel::Subchannel;

/// Where storage and the program in it begin.
const START: u32 = 0x1000;

/// A disk of one track with `records` records of `bytes` bytes.
pub fn disk(alloc: Global, records: u8, bytes: u16) -> Result<Disk, AllocError> {
    let geometry = Geometry {
        cylinders: 1,
        heads: 1,
        track_bytes: 16 + u64::from(records) * (8 + u64::from(bytes)),
    };
    let mut content = Vec::new(alloc);
    for before in 0..records {
        content.push(InitialRecord {
            cylinder: 0,
            head: 0,
            number: before + 1,
            key: Vec::new(alloc),
            content: vec![in alloc; 0xC1; usize::from(bytes)]?,
        })?;
    }
    let none: [Fault; 0] = [];
    match Disk::mount(alloc, geometry, &content, &none) {
        Ok(disk) => Ok(disk),
        Err(_) => Err(AllocError),
    }
}

/// A subchannel with a disk, and the storage of a channel program.
#[derive(Drop)]
pub struct Channel {
    subchannel: Subchannel<Disk>,
    area: Area,
}

impl Channel {
    /// The program begins at X'1000', in storage of this many bytes or of its own size.
    pub fn new(
        alloc: Global,
        disk: Disk,
        program: &[u8],
        storage: usize,
    ) -> Result<Self, AllocError> {
        let mut image = program.to_vec(alloc)?;
        for _ in program.len()..storage {
            image.push(0)?;
        }
        match Area::new(alloc, START, &image) {
            Ok(area) => Ok(Channel {
                subchannel: Subchannel::new(disk, 0),
                area,
            }),
            Err(_) => Err(AllocError),
        }
    }

    /// Starts the program `count` times, runs it to its end, and counts its command steps.
    pub fn attempts(&mut self, count: u32) -> u64 {
        let mut steps: u64 = 0;
        for _ in 0..count {
            steps = steps.saturating_add(u64::from(self.attempt()));
        }
        steps
    }

    fn attempt(&mut self) -> u32 {
        let seek = Seek::default();
        match self.subchannel.device() {
            Some(disk) if disk.fits(&seek) => {}
            _ => return 0,
        }
        let _ = self
            .subchannel
            .ssch(Address::new(START), &seek, FileMask::OUTPUT.0);
        let done = self.subchannel.run(&mut self.area, u32::MAX);
        let _ = self.subchannel.tsch();
        match done {
            Some(burst) => burst.commands,
            None => 0,
        }
    }
}
