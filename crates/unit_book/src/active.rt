//! The active request.

ghost use Rattle.std.specs.Prelude.{◌≡◌, ◌+◌, ◌<◌, ◌≤◌, ◌&&◌, false, true, IfOk};
ghost use Rattle.io_area.specs.Storage.{SamePlace};
ghost use Rattle.request_piece.specs.Scope.{covers};
ghost use Rattle.subchannel.specs.Subchannel.{RunsAs, running_program};
ghost use Rattle.unit_book.specs.Fields.{IsSameActive, after_cover, awaits_by, kept_by, pending_code, started_again, with_area};
ghost use Rattle.unit_book.specs.Trace.{is_halt};

use crate::entry::Mode;
use ccw_programs::Burst;
use device_port::{Device, Kind};
use io_images::Code;
use recovery::{Verdict, verdict};
use request_piece::{Name, Piece, Scope};
use std::alloc::{AllocError, Global};
use subchannel::{Status, Subchannel};

/// Whether the active request is on the channel, or awaits its restart with the status of its last attempt.
#[derive(Clone, Copy, PartialEq, Eq, Debug)]
pub(crate) enum Standing {
    OnChannel,
    AwaitsRestart(Status),
}

/// The active request: how often it was started, and what happened since its last start.
#[derive(Drop)]
pub(crate) struct Active {
    pub piece: Box<Piece>,
    pub starts: u32,
    pub halted: bool,
    pub covered: bool,
    pub standing: Standing,
}

impl Active {
    /// Copies the active request, with storage of its own. Fails only if memory runs out.
    pub fn copy(&self, alloc: Global) -> Result<Self, AllocError>
        ensures { IfOk result (IsSameActive self.now) }
    {
        Ok(Active {
            piece: Box::new(alloc, self.piece.copy()?)?,
            starts: self.starts,
            halted: self.halted,
            covered: self.covered,
            standing: self.standing,
        })
    }

    /// The name of the request.
    pub fn name(&self) -> Name
        ensures { result ≡ self.now.piece.value.name }
    {
        self.piece.name
    }

    /// A request that was started once.
    pub fn first(piece: Box<Piece>) -> Self
        ensures { result ≡ record { piece = piece; starts = 1; halted = false; covered = false; standing = Standing.OnChannel } }
    {
        Active {
            piece,
            starts: 1,
            halted: false,
            covered: false,
            standing: Standing::OnChannel,
        }
    }

    /// The request, started once more.
    pub fn restarted(self) -> Self
        requires { self.starts ≤ 10 }
        ensures { result ≡ started_again self }
    {
        Active {
            piece: self.piece,
            starts: self.starts + 1,
            halted: false,
            covered: false,
            standing: Standing::OnChannel,
        }
    }

    /// The request, which awaits its restart.
    pub fn awaiting(self, status: Status) -> Self
        ensures { result ≡ record self { standing = Standing.AwaitsRestart status } }
    {
        Active {
            piece: self.piece,
            starts: self.starts,
            halted: self.halted,
            covered: self.covered,
            standing: Standing::AwaitsRestart(status),
        }
    }

    /// Whether the request awaits its restart.
    pub fn awaits(&self) -> bool
        ensures { result ≡ awaits_by self.now.standing }
    {
        match self.standing {
            Standing::OnChannel => false,
            Standing::AwaitsRestart(_) => true,
        }
    }

    /// Whether the request awaits its restart, and a purge with Halt covers it.
    pub fn is_covered_awaiting(&self, scope: Scope, mode: Mode) -> bool
        ensures { result ≡ (is_halt mode && awaits_by self.now.standing && covers scope self.now.piece.value) }
    {
        mode == Mode::Halt && self.awaits() && scope.covers_piece(&self.piece)
    }

    /// The status of the last attempt of a request that awaits its restart.
    pub fn kept_status(&self) -> Status
        ensures { result ≡ kept_by self.now.standing }
    {
        match self.standing {
            Standing::OnChannel => Status::empty(),
            Standing::AwaitsRestart(status) => status,
        }
    }

    /// The request after a purge, which covers it if it is with Halt and of its scope.
    pub fn purged(self, scope: Scope, mode: Mode) -> Self
        ensures { result ≡ after_cover scope mode self }
    {
        let covers = mode == Mode::Halt && scope.covers_piece(&self.piece);
        Active {
            piece: self.piece,
            starts: self.starts,
            halted: self.halted,
            covered: covers || self.covered,
            standing: self.standing,
        }
    }

    /// The request, whose program was halted.
    pub fn once_halted(self) -> Self
        ensures { result ≡ record self { halted = true } }
    {
        Active {
            piece: self.piece,
            starts: self.starts,
            halted: true,
            covered: self.covered,
            standing: self.standing,
        }
    }

    /// The completion code of a request with this status, or None if it is to be tried again.
    pub fn code(&self, kind: Kind, status: &Status) -> Option<Code>
        ensures { result ≡ pending_code kind status.now self.now.starts self.now.halted self.now.covered }
    {
        if self.halted {
            return Some(Code::Purged);
        }
        match verdict(kind, &status.csw, status.sense, self.starts) {
            Verdict::Final(code) => Some(code),
            Verdict::Retry if self.covered => Some(Code::Purged),
            Verdict::Retry => None,
        }
    }

    /// Runs the program of the request, by at most `max` commands.
    pub fn run<D: Device>(&mut self, channel: &mut Subchannel<D>, max: u32) -> Option<Burst>
        requires { 1 ≤ max }
        ensures ran { RunsAs D.meaning channel.old self.old.piece.value.area max (running_program channel.old.device channel.old.phase self.old.piece.value.area) result channel.new self.new.piece.value.area }
        ensures same { self.new ≡ with_area self.old self.new.piece.value.area }
        ensures place { SamePlace self.old.piece.value.area self.new.piece.value.area }
    {
        channel.run(&mut self.piece.area, max)
    }
}
