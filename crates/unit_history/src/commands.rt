//! The commands of a unit's programs, replayed from its trace one by one.

ghost use Rattle.std.specs.Prelude.{◌≡◌, ◌≢◌, ◌-◌, ◌==◌, ◌||◌, None, not, false, true, IfOk, MatchOption, OnErr, OnOk};
ghost use Rattle.unit_history.specs.Replayed.{so_far};
ghost use Rattle.unit_book.specs.Trace.{active};
ghost use Rattle.unit_history.specs.Commands.{Describes, GivesNext, IsUnreplayed, PassesEntry, StartsNext, place_behind};

use crate::before::{Before, Placed};
use crate::command::ExecutedCommand;
use crate::done::done;
use crate::place::MediumPosition;
use crate::replay::Replay;
use ccw_programs::{Listing, Workspace};
use device_port::{Device, Fault};
use std::alloc::AllocError;
use unit_book::UnitBook;

/// Which commands of a unit are described: the first `most`. `faults` are those that its device was to meet, in the order of
/// their numbers.
#[derive(Clone, Copy)]
pub struct CommandList<'f> {
    pub faults: &'f [Fault],
    pub most: u64,
}

/// A replay of a unit's trace.
#[derive(Drop)]
pub struct Commands<'t, D: Device> {
    replay: Replay<'t, D>,
    /// What the position of the next command depends on.
    before: Before,
    faults: &'t [Fault],
    /// How many of the faults were met.
    met: usize,
    /// How many commands the device did: those whose CCWs kept the rules.
    acted: u64,
    /// How many more commands are described.
    left: u64,
    /// Whether a command was left out, and with it all that follow.
    is_cut: bool,
}

/// A command that was replayed: its CCWs and data areas, and the fault of the unit that it met.
#[derive(Drop)]
pub struct Replayed<'w> {
    listing: Listing<'w>,
    fault: Option<usize>,
    /// What its position depends on.
    before: Before,
}

/// What comes next of a replay.
#[derive(Drop)]
pub enum Next<'w> {
    /// A command, which is replayed now. [`Commands::describe`] describes it.
    Command(Replayed<'w>),
    /// No program runs. A legal trace counts no such command.
    Idle,
    /// The most commands were described, and the others are left out.
    LeftOut,
}

impl<'t, D: Device> Commands<'t, D> {
    /// The commands of a unit, of which none is replayed yet.
    pub fn of(
        book: &'t UnitBook<D>,
        commands: &CommandList<'t>,
    ) -> Result<Commands<'t, D>, AllocError>
        ensures { IfOk result (IsUnreplayed book.now commands.now.most) }
    {
        Ok(Commands {
            replay: Replay::of(book)?,
            before: Before::new(),
            faults: commands.faults,
            met: 0,
            acted: 0,
            left: commands.most,
            is_cut: false,
        })
    }

    /// Whether a command was left out.
    pub fn is_cut(&self) -> bool
        ensures { result ≡ self.now.is_cut }
    {
        self.is_cut
    }

    /// Replays the next entry, which is not of commands, unless a command was left out.
    pub fn pass(&mut self) -> Result<(), AllocError>
        ensures ok { OnOk result (PassesEntry self.old self.new) }
        ensures err { OnErr result (self.new.replay ≡ self.old.replay) }
        ensures full { OnErr result ((self.old.is_cut ≡ false) × StartsNext self.old.replay) }
        ensures left { self.new.left ≡ self.old.left }
        ensures cut { self.new.is_cut ≡ self.old.is_cut }
    {
        if !self.is_cut {
            self.replay.step()?;
        }
        Ok(())
    }

    /// Counts one more command, and returns whether it is described. The first that is not is a cut.
    fn count(&mut self) -> bool
        ensures counted { result ≡ not (self.old.left == 0) }
        ensures left { self.new.left ≡ self.old.left - 1 }
        ensures cut { self.new.is_cut ≡ (self.old.is_cut || self.old.left == 0) }
        ensures replay { self.new.replay ≡ self.old.replay }
    {
        if self.left == 0 {
            self.is_cut = true;
            return false;
        }
        self.left -= 1;
        true
    }
}

impl<'t, D: Placed> Commands<'t, D> {
    /// Replays the next command, unless it is left out. `listed` holds its CCWs and data areas.
    pub fn next_command<'w>(&mut self, listed: &'w mut Workspace) -> Result<Next<'w>, AllocError>
        ensures ok { IfOk result (GivesNext D.meaning self.old.replay self.old.left) }
        ensures replay { IfOk result (λ next. self.new.replay ≡ place_behind next self.old.replay) }
        ensures err { OnErr result ((self.old.left ≢ 0) × StartsNext self.old.replay) }
        ensures stays { OnErr result (self.new.replay ≡ self.old.replay) }
        ensures left { self.new.left ≡ self.old.left - 1 }
        ensures cut { self.new.is_cut ≡ (self.old.is_cut || self.old.left == 0) }
    {
        if !self.count() {
            return Ok(Next::LeftOut);
        }
        self.before.note(self.replay.device().as_any());
        let before = self.before;
        let Some(listing) = self.replay.next_command(listed) else {
            return Ok(Next::Idle);
        };
        let fault = met_by(&listing, self.faults, &mut self.met, &mut self.acted);
        self.replay.step()?;
        let _place = place_of(&self.replay, &mut self.before, &listing, fault);
        Ok(Next::Command(Replayed {
            listing,
            fault,
            before,
        }))
    }

    /// Describes the command that was replayed last: its CCWs and data areas, its program and storage after it, and where it
    /// was on the medium. Returns `None` if no request is active after it.
    pub fn describe<'c>(&'c self, replayed: Replayed<'c>) -> Option<ExecutedCommand<'c>>
        ensures { MatchOption result (active (so_far self.now.replay) ≡ None) (λ command. Describes D.meaning self.now.replay replayed.entry command) }
    {
        let Replayed {
            listing,
            fault,
            mut before,
        } = replayed;
        let context = self.replay.context()?;
        let area = self.replay.area()?;
        let place = place_of(&self.replay, &mut before, &listing, fault);
        Some(ExecutedCommand {
            listing,
            context,
            area,
            fault,
            place,
        })
    }
}

/// Where on the medium the command of this listing was, which was replayed last.
fn place_of<'c, D: Placed>(
    replay: &'c Replay<'_, D>,
    before: &mut Before,
    listing: &Listing<'_>,
    fault: Option<usize>,
) -> Option<MediumPosition<'c>> {
    let done = done(listing, replay.context()?, fault)?;
    before.place(replay.device().as_any(), &done)
}

/// The number of the fault that a command met, from 1, if it met one.
fn met_by(
    listing: &Listing<'_>,
    faults: &[Fault],
    met: &mut usize,
    acted: &mut u64,
) -> Option<usize> {
    if listing.refusal.is_some() {
        return None;
    }
    *acted = acted.saturating_add(1);
    let fault = faults.get(*met)?;
    if fault.ordinal != *acted {
        return None;
    }
    *met = met.saturating_add(1);
    Some(*met)
}
