//! A subchannel: START SUBCHANNEL, TEST SUBCHANNEL, HALT SUBCHANNEL and the running of its channel program
//! (Principles of Operation, chapter 14). Every answer is a function of its phase: not operational, idle,
//! running a program, or status pending.
//!
//! Tests: python/tests/test_channels.py, tests/cases/scenarios, tests/mutants/subchannel.
#![tactic(auto)]

ghost use Rattle.std.specs.Prelude.{◌≡◌, ◌≤◌, Some, None, IfOk, MatchOption, min, option_map};
ghost use Rattle.io_area.specs.Storage.{SamePlace};
ghost use Rattle.ccw_programs.specs.Step.{program};
ghost use Rattle.subchannel.specs.Subchannel.{Channel, Absent, Idle, TakesSeek, after_ssch, ssch_code, hsch_code, tsch_code, halted_phase, running_program, RunsAs, empty_status, status_of, stored_pair, tested_phase, is_pending, place_of};

use ccw_programs::{Burst, Context, State, Workspace, burst};
use device_port::Device;
use io_area::Area;
use io_images::{Address, Csw, Seek};
use std::alloc::AllocError;
use std::marker::Model;

/// The status of a channel program, with its two sense bytes.
#[derive(Clone, Copy, PartialEq, Eq, Debug)]
pub struct Status {
    pub csw: Csw,
    pub sense: u16,
}

impl Status {
    /// The status of what was never started (profile).
    pub fn empty() -> Self
        ensures { result ≡ empty_status }
    {
        Status {
            csw: Csw::empty(),
            sense: 0,
        }
    }
}

/// What a subchannel that has a device is doing.
#[derive(Drop)]
enum Phase {
    Idle,
    Running(Context),
    Pending(Status),
}

impl Phase {
    /// Copies the phase of a subchannel. Never allocates.
    fn copy(&self) -> Phase
        ensures { result ≡ self.now }
    {
        match self {
            Phase::Idle => Phase::Idle,
            Phase::Running(context) => Phase::Running(context.copy()),
            Phase::Pending(status) => Phase::Pending(*status),
        }
    }
}

/// A subchannel with its interruption subclass and its device, if there is one.
#[derive(Drop)]
pub struct Subchannel<D: Device> {
    isc: u8,
    device: Option<D>,
    phase: Phase,
    workspace: Workspace,
}

impl<D: Device> Model for Subchannel<D> {
    ghost use Rattle.subchannel.specs.Subchannel.{Channel};

    ghost Value = { Channel D };

    ghost use Rattle.std.specs.Prelude.{◌≤◌};
    ghost use Rattle.subchannel.specs.Fields.{channel_of, IsRunning};

    ghost view = { λ s. channel_of s.isc s.device s.phase };

    ghost invariant = { λ s. (s.isc ≤ 7) × IsRunning s.phase };
}

impl<D: Device> Subchannel<D> {
    /// An idle subchannel with this device and interruption subclass (0 to 7).
    pub fn new(device: D, isc: u8) -> Self
        requires { isc ≤ 7 }
        ensures { result ≡ record { isc = isc; device = Some device; phase = Idle } }
    {
        Subchannel {
            isc,
            device: Some(device),
            phase: Phase::Idle,
            workspace: Workspace::new(),
        }
    }

    /// A subchannel that has no device and is not operational.
    pub fn absent(isc: u8) -> Self
        requires { isc ≤ 7 }
        ensures { result ≡ record { isc = isc; device = None; phase = Absent } }
    {
        Subchannel {
            isc,
            device: None,
            phase: Phase::Idle,
            workspace: Workspace::new(),
        }
    }

    /// Copies the subchannel, with a device of its own. Fails only if memory runs out.
    pub fn copy(&self) -> Result<Self, AllocError>
        ensures { IfOk result (λ s. s ≡ self.now) }
    {
        let device = match &self.device {
            Some(device) => Some(device.copy()?),
            None => None,
        };
        Ok(Subchannel {
            isc: self.isc,
            device,
            phase: self.phase.copy(),
            workspace: Workspace::new(),
        })
    }

    /// The interruption subclass (0 to 7).
    pub fn isc(&self) -> u8
        ensures is { result ≡ self.now.isc }
        ensures few { result ≤ 7 }
    {
        self.isc
    }

    /// The device, if there is one.
    pub fn device(&self) -> Option<&D>
        ensures { MatchOption result (self.now.device ≡ None) (λ device. self.now.device ≡ Some device.now) }
    {
        self.device.as_ref()
    }

    /// START SUBCHANNEL: does the prefix (seek and file mask, profile) and starts the program at an address.
    /// Condition code 0 started, 1 status pending, 2 function in progress, 3 not operational; with another
    /// code than 0 nothing has changed.
    pub fn ssch(&mut self, start: Address, seek: &Seek, mask: u8) -> u8
        requires { TakesSeek D.meaning self.old.device seek.now }
        ensures code { result ≡ ssch_code self.old.phase }
        ensures state { self.new ≡ after_ssch D.meaning self.old start seek.now mask self.old.phase }
    {
        let Some(device) = &mut self.device else {
            return 3;
        };
        match self.phase {
            Phase::Idle => {
                device.prefix(seek, mask);
                self.phase = Phase::Running(Context::begin(start));
                0
            }
            Phase::Running(_) => 2,
            Phase::Pending(_) => 1,
        }
    }

    /// TEST SUBCHANNEL: condition code 0 and the status with two sense bytes, which is then cleared, 1 no
    /// status pending, 3 not operational.
    pub fn tsch(&mut self) -> (u8, Option<(Csw, u16)>)
        ensures code { result.0 ≡ tsch_code self.old.phase }
        ensures status { result.1 ≡ option_map stored_pair (status_of self.old.phase) }
        ensures state { self.new ≡ record self.old { phase = tested_phase self.old.phase } }
    {
        if self.device.is_none() {
            return (3, None);
        }
        let Phase::Pending(status) = &self.phase else {
            return (1, None);
        };
        let stored = (status.csw, status.sense);
        self.phase = Phase::Idle;
        (0, Some(stored))
    }

    /// The status that is pending, which stays so.
    pub fn status(&self) -> Option<Status>
        ensures { result ≡ status_of self.now.phase }
    {
        if self.device.is_none() {
            return None;
        }
        match &self.phase {
            Phase::Pending(status) => Some(*status),
            Phase::Idle | Phase::Running(_) => None,
        }
    }

    /// HALT SUBCHANNEL: condition code 0 halted at once, with a status pending, 1 status pending before, 3 not
    /// operational; with another code than 0 nothing has changed.
    pub fn hsch(&mut self) -> u8
        ensures code { result ≡ hsch_code self.old.phase }
        ensures state { self.new ≡ record self.old { phase = halted_phase self.old.phase } }
    {
        if self.device.is_none() {
            return 3;
        }
        let status = match &self.phase {
            Phase::Idle => Status::empty(),
            Phase::Running(context) => Status {
                csw: context.halted(),
                sense: 0,
            },
            Phase::Pending(_) => return 1,
        };
        self.phase = Phase::Pending(status);
        0
    }

    /// Does up to `max` commands of the program that runs; None where none runs. Its end leaves its status pending.
    /// Takes no memory.
    pub fn run(&mut self, area: &mut Area, max: u32) -> Option<Burst>
        requires { 1 ≤ max }
        ensures runs { RunsAs D.meaning self.old area.old max (running_program self.old.device self.old.phase area.old) result self.new area.new }
        ensures place { SamePlace area.old area.new }
    {
        let Some(device) = &mut self.device else {
            return None;
        };
        let Phase::Running(context) = &mut self.phase else {
            return None;
        };
        let done = burst(context, device, area, &mut self.workspace, max);
        let state = done.state;
        if let State::Ended(csw, sense) = state {
            self.phase = Phase::Pending(Status { csw, sense });
        }
        Some(done)
    }

    /// The position of the program that runs.
    pub fn place(&self) -> Option<Context>
        ensures { result ≡ place_of self.now.phase }
    {
        if self.device.is_none() {
            return None;
        }
        match &self.phase {
            Phase::Running(context) => Some(context.copy()),
            Phase::Idle | Phase::Pending(_) => None,
        }
    }

    /// Whether a status is pending.
    pub fn pending(&self) -> bool
        ensures { result ≡ is_pending self.now.phase }
    {
        self.device.is_some() && matches!(&self.phase, Phase::Pending(_))
    }
}
