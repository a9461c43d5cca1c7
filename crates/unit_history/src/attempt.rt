//! The attempt that is under way at a position of a replay.

ghost use Rattle.std.specs.Prelude.{◌≡◌, ◌≤◌, IfOk};
ghost use Rattle.ccw_programs.specs.Place.{start_place};
ghost use Rattle.ccw_programs.specs.Step.{after, length_of, program};

use ccw_programs::{Context, State, Workspace, burst};
use device_port::Device;
use io_area::Area;
use request_piece::Issued;
use std::alloc::AllocError;

/// The active request: the request as issued, its storage now, and the position of its channel program.
#[derive(Drop)]
pub(crate) struct Attempt<'t> {
    pub issued: &'t Issued,
    pub area: Area,
    pub context: Context,
}

impl<'t> Attempt<'t> {
    /// The first attempt of a request, before its first command.
    pub fn first(issued: &'t Issued) -> Result<Attempt<'t>, AllocError>
        ensures issued { IfOk result (λ a. a.issued.now ≡ issued.now) }
        ensures area { IfOk result (λ a. a.area ≡ issued.now.area) }
        ensures context { IfOk result (λ a. a.context ≡ start_place issued.now.start) }
    {
        Ok(Attempt {
            issued,
            area: issued.area().copy()?,
            context: Context::begin(issued.start()),
        })
    }

    /// A further attempt, before its first command.
    pub fn again(self) -> Attempt<'t>
        ensures { result ≡ record self.entry { context = start_place self.entry.issued.now.start } }
    {
        Attempt {
            issued: self.issued,
            area: self.area,
            context: Context::begin(self.issued.start()),
        }
    }

    /// Does the next command.
    pub fn run<D: Device>(&mut self, device: &mut D, workspace: &mut Workspace)
        requires running { self.old.context.state ≡ State.Running }
        requires left { 1 ≤ length_of D.meaning (program self.old.context device.old self.old.area) }
        ensures issued { self.new.issued ≡ self.old.issued }
        ensures step { program self.new.context device.new self.new.area ≡ after D.meaning 1 (program self.old.context device.old self.old.area) }
    {
        burst(&mut self.context, device, &mut self.area, workspace, 1);
    }
}
