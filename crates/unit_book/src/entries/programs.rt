//! Starts of requests, and the commands of their programs.

ghost use Rattle.std.specs.Prelude.{◌≡◌, ◌≤◌, true, false, not, None, IfOk, OnOk, OnErr};
ghost use Rattle.ccw_programs.specs.Step.{is_running};
ghost use Rattle.subchannel.specs.Subchannel.{TakesSeek, after_ssch};
ghost use Rattle.unit_book.specs.Legal.{Settled};
ghost use Rattle.unit_book.specs.Refusals.{StartLacks};
ghost use Rattle.unit_book.specs.Room.{KeepsRoom};
ghost use Rattle.unit_book.specs.Answers.{IsBegun, RunsBook};
ghost use Rattle.unit_book.specs.Trace.{active};

use crate::active::Active;
use crate::answer::Running;
use crate::decision::Begun;
use crate::entries::{Entries, write};
use crate::entry::Entry;
use crate::extents::passes_check;
use ccw_programs::State;
use device_port::Device;
use request_piece::{Name, Piece};
use std::alloc::AllocError;
use subchannel::Subchannel;

/// Starts the program of a request.
fn launch<D: Device>(channel: &mut Subchannel<D>, piece: &Piece, mask: u8)
    requires { TakesSeek D.meaning channel.old.device piece.now.seek }
    ensures { channel.new ≡ after_ssch D.meaning channel.old piece.now.start piece.now.seek mask channel.old.phase }
{
    channel.ssch(piece.start, &piece.seek, mask);
}

/// Whether a program has ended.
fn has_ended(state: State) -> bool
    ensures { result ≡ not (is_running state) }
{
    match state {
        State::Running => false,
        State::Ended(_, _) => true,
    }
}

impl<D: Device> Entries<D> {
    /// Starts the active request again if it awaits that. If nothing is active, starts the request that waits first,
    /// or posts it if it fails the extent check. Makes room for the entry, and for the posts of all that the post may
    /// doom.
    pub fn start(&mut self) -> Result<Begun, AllocError>
        requires { Settled D.meaning self.old.mounted self.old.trace }
        ensures ok { IfOk result (λ begun. IsBegun D.meaning self.old begun self.new) }
        ensures spare { OnOk result (KeepsRoom self.old self.new) }
        ensures err { OnErr result (self.new ≡ self.old) }
        ensures full { OnErr result (StartLacks D.meaning self.old) }
    {
        let Some(active) = self.active.take() else {
            return self.start_waiting();
        };
        if !active.awaits() {
            self.active = Some(active);
            return Ok(Begun::Busy);
        }
        match self.trace.reserve(1) {
            Ok(()) => {}
            Err(error) => {
                self.active = Some(active);
                return Err(error);
            }
        }
        let name = active.name();
        let request: &Piece = &active.piece;
        let mask = self.dcbs.mask(request.dcb);
        launch(&mut self.channel, request, mask);
        write(&mut self.trace, Entry::Start(name));
        self.active = Some(active.restarted());
        Ok(Begun::Started(name))
    }

    /// Starts the request that waits first, or posts it if it fails the extent check.
    fn start_waiting(&mut self) -> Result<Begun, AllocError>
        requires none { active self.old.trace ≡ None }
        requires settled { Settled D.meaning self.old.mounted self.old.trace }
        ensures ok { IfOk result (λ begun. IsBegun D.meaning self.old begun self.new) }
        ensures spare { OnOk result (KeepsRoom self.old self.new) }
        ensures err { OnErr result (self.new ≡ self.old) }
        ensures full { OnErr result (StartLacks D.meaning self.old) }
    {
        let Some(piece) = self.waiting.front() else {
            return Ok(Begun::Idle);
        };
        let extents = self.dcbs.extents(piece.dcb);
        let kind = self.mounted.kind();
        if !passes_check(kind, self.mounted.heads(), extents, &piece.seek) {
            return self.post_violated();
        }
        self.trace.reserve(1)?;
        let name = piece.name;
        let mask = self.dcbs.mask(piece.dcb);
        launch(&mut self.channel, piece, mask);
        write(&mut self.trace, Entry::Start(name));
        self.active = self.waiting.pop().map(Active::first);
        Ok(Begun::Started(name))
    }

    /// Runs the program of the active request, by `max` commands at most, if it runs.
    pub fn run(&mut self, max: u32) -> Running
        requires some { 1 ≤ max }
        requires spare { 1 ≤ self.old.spare }
        requires settled { Settled D.meaning self.old.mounted self.old.trace }
        ensures book { RunsBook D.meaning self.old max result self.new }
        ensures spare { KeepsRoom self.old self.new }
    {
        let Some(mut active) = self.active.take() else {
            return Running::Quiet;
        };
        let Some(burst) = active.run(&mut self.channel, max) else {
            self.active = Some(active);
            return Running::Quiet;
        };
        let commands = burst.commands;
        write(&mut self.trace, Entry::Ran(active.name(), commands));
        let pending = has_ended(burst.state);
        self.active = Some(active);
        Running::Ran { commands, pending }
    }
}
