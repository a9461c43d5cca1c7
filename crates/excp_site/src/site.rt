//! A site: its units and tasks, and what its caller is making.

mod channels;
mod events;
mod images;
mod long_use;
mod media;
mod posts;
mod readers;
mod reasons;
mod serving;
mod texts;

ghost use Rattle.std.specs.Prelude.{◌≡◌, ◌≤◌, ◌<◌, [], length, replicate, IfErr, IfOk, OnErr, OnOk};
ghost use Rattle.excp_site.specs.declared.refusal.Refusal.TheVariants as Refusal;
ghost use Rattle.excp_site.specs.Sites.{MakesSite, NewRefused, earlier_of, number_of};

use crate::channel::OwnChannel;
use crate::medium::Medium;
use crate::refusal::Refusal;
use any_device::AnyDevice;
pub use media::Room;
use medium_image::Kept;
pub use reasons::RefusedCall;
use request_piece::Name;
use std::alloc::Global;
use std::marker::Model;
use unit_world::PlainSite;

/// The most units of a site, so that each has a number of 16 bits.
const MOST_UNITS: usize = 65_535;

/// Units with disks, tapes and printers, and the post rows of tasks.
#[derive(Drop)]
pub struct Site {
    alloc: Global,
    plain: PlainSite<AnyDevice>,
    medium: Medium,
    /// By unit, and by task: how many requests of the task the unit had before its last checkpoint.
    earlier: Vec<Vec<u64>>,
    /// By unit: what the image that it came from has beside its medium.
    beside: Vec<Option<Kept>>,
    /// The bytes that were made last.
    made: Vec<u8>,
    /// The channels alone, by their numbers. One that was freed leaves its place empty.
    channels: Vec<Option<Box<OwnChannel>>>,
}

impl Model for Site {
    ghost use Rattle.std.specs.Prelude.{◌≡◌, ◌≤◌, length, map, option_map};
    ghost use Rattle.excp_site.specs.Sites.{SiteView};

    ghost Value = { SiteView };

    ghost view = { λ s. record {
      plain = s.plain;
      medium = s.medium;
      earlier = map (λ e. e.items) s.earlier.items;
      beside = s.beside.items;
      made = s.made.items;
      channels = map (option_map (λ c. c.value)) s.channels.items;
    } };

    ghost invariant = { λ s. (length s.plain.units ≤ 65_535) × (length s.earlier.items ≡ length s.plain.units)
        × (length s.beside.items ≡ length s.plain.units) };
}

impl Site {
    /// A site without a unit, with `tasks` tasks, numbered from 0. Up to `post_room` posts may be on their way back to a task.
    ///
    /// Errors, in this order: `BadNumber` if `tasks` or `post_room` is 0; `NoMemory`.
    pub fn new(alloc: Global, tasks: u16, post_room: usize) -> Result<Site, Refusal>
        ensures made { IfOk result (MakesSite tasks post_room) }
        ensures refused { IfErr result (NewRefused tasks post_room) }
    {
        if tasks == 0 || post_room == 0 {
            return Err(Refusal::BadNumber);
        }
        let plain = PlainSite::new(alloc, tasks, post_room)?;
        Ok(Site {
            alloc,
            plain,
            medium: Medium::new(alloc),
            earlier: Vec::new(alloc),
            beside: Vec::new(alloc),
            made: Vec::new(alloc),
            channels: Vec::new(alloc),
        })
    }

    /// The number of a request of a unit as the caller sees it: numbers go on after a checkpoint.
    pub fn number(&self, unit: u16, name: Name) -> u64
        ensures { result ≡ number_of self.now unit name }
    {
        self.earlier_of(unit, name.task)
            .saturating_add(u64::from(name.seq))
    }

    /// How many requests of a task a unit had before its last checkpoint.
    fn earlier_of(&self, unit: u16, task: u16) -> u64
        ensures { result ≡ earlier_of self.now unit task }
    {
        match self.earlier.get(usize::from(unit)) {
            Some(of_unit) => *of_unit.get(usize::from(task)).unwrap_or(&0),
            None => 0,
        }
    }

    /// Tests that there is such a unit.
    fn has_unit(&self, unit: u16) -> Result<(), Refusal>
        ensures there { OnOk result (unit < length self.now.plain.units) }
        ensures refused { IfErr result (λ e. e ≡ Refusal.NoUnit) }
        ensures none { OnErr result (length self.now.plain.units ≤ unit) }
    {
        if usize::from(unit) < self.plain.units() {
            Ok(())
        } else {
            Err(Refusal::NoUnit)
        }
    }

    /// Tests that there is such a task.
    fn has_task(&self, task: u16) -> Result<(), Refusal>
        ensures there { OnOk result (task < length self.now.plain.rows) }
        ensures refused { IfErr result (λ e. e ≡ Refusal.NoTask) }
        ensures none { OnErr result (length self.now.plain.rows ≤ task) }
    {
        if usize::from(task) < self.plain.tasks() {
            Ok(())
        } else {
            Err(Refusal::NoTask)
        }
    }
}
