//! The position of a channel program between two commands, and what it stores when it ends or is halted (Principles of
//! Operation, chapters 15 and 16).

ghost use Rattle.std.specs.Prelude.{◌≡◌, ◌≤◌, ◌<◌, ◌^◌, ◌+◌, [], ◌∷◌, length, All};
ghost use Rattle.ccw_programs.specs.Links.{Sound};
ghost use Rattle.ccw_programs.specs.Place.{Place, start_place, later_place, ended_place, checked_place, halted};
ghost use Rattle.ccw_programs.specs.Step.{acted_place, placed};

use crate::ending::{Ending, ended_in, ending_of, last_of, total_count};
use crate::fetch::Link;
use crate::length::{goes_on, next_address, sub_status};
use device_port::{Acted, Flow};
use io_images::{Address, Csw, SubStatus, UnitStatus};
use std::marker::Model;

/// Whether a program runs, or how it ended: its CSW and its first two sense bytes (Principles of Operation,
/// chapter 16, "Subchannel-Status Word"; its shape as a CSW is the profile's).
#[derive(Clone, Copy, PartialEq, Eq, Debug)]
pub enum State {
    Running,
    Ended(Csw, u16),
}

/// The number of commands that a burst did, and the position of the program after them.
#[derive(Clone, Copy, PartialEq, Eq, Debug)]
pub struct Burst {
    pub commands: u32,
    pub state: State,
}

/// The position of a channel program between two commands.
#[derive(Drop)]
pub struct Context {
    next: u32,
    fetched: u16,
    address: Address,
    residual: u16,
    state: State,
}

impl Model for Context {
    ghost use Rattle.std.specs.Prelude.{◌≤◌, ◌<◌, ◌^◌};
    ghost use Rattle.ccw_programs.specs.Place.{Place};

    ghost Value = { Place };

    ghost view = { λ c. record { next = c.next; fetched = c.fetched; address = c.address; residual = c.residual; state = c.state } };

    ghost invariant = { λ c. c.fetched ≤ 4096 };
}

impl Context {
    /// A program that is to begin at an address, of which no CCW was fetched (chapter 15, "Channel-Command Word").
    pub fn begin(start: Address) -> Context
        ensures { result ≡ start_place start }
    {
        Context {
            next: start.get(),
            fetched: 0,
            address: start,
            residual: 0,
            state: State::Running,
        }
    }

    /// A running program whose next CCW is at this address, with one CCW fetched: used to list what it would do there.
    pub fn going_on(next: u32) -> Context
        ensures { result ≡ later_place next }
    {
        Context {
            next,
            fetched: 1,
            address: Address::new(0),
            residual: 0,
            state: State::Running,
        }
    }

    /// Copies the position of a channel program: where it is, and how it ended if it ended. Never allocates.
    pub fn copy(&self) -> Context
        ensures { result ≡ self.now }
    {
        Context {
            next: self.next,
            fetched: self.fetched,
            address: self.address,
            residual: self.residual,
            state: self.state,
        }
    }

    /// Whether it runs, or how it ended.
    pub fn state(&self) -> State
        ensures { result ≡ self.now.state }
    {
        self.state
    }

    /// The status of a program that is halted here (chapter 14, "Halt Subchannel"; that it ends at once is the
    /// profile's). It has channel end and device end, with the CCW address and the residual count of its last
    /// command, or its start and 0.
    pub fn halted(&self) -> Csw
        ensures { result ≡ halted self.now }
    {
        Csw {
            address: self.address,
            unit: UnitStatus::NORMAL_END,
            sub: SubStatus::default(),
            residual: self.residual,
        }
    }

    /// The address of the next CCW.
    pub fn next(&self) -> u32
        ensures { result ≡ self.now.next }
    {
        self.next
    }

    /// How many CCWs were fetched.
    pub fn fetched(&self) -> u16
        ensures value { result ≡ self.now.fetched }
        ensures bound { result ≤ 4096 }
    {
        self.fetched
    }

    /// Ends the program with a program check of the CCW at an address (chapter 16, "Program Check").
    pub(crate) fn check(&mut self, at: u32)
        ensures { self.new ≡ checked_place self.old at }
    {
        let address = Address::stored(at);
        self.end(
            Csw {
                address,
                unit: UnitStatus::default(),
                sub: SubStatus::PROGRAM_CHECK,
                residual: 0,
            },
            0,
        );
    }

    /// Ends the program with this status and sense.
    pub(crate) fn end(&mut self, csw: Csw, sense: u16)
        ensures { self.new ≡ ended_place self.old csw sense }
    {
        self.address = csw.address;
        self.residual = csw.residual;
        self.state = State::Ended(csw, sense);
    }

    /// After a command that the device did, on these CCWs.
    pub(crate) fn advance(&mut self, flow: Flow, links: &[Link], fetches: u16, acted: Acted)
        requires running { self.old.state ≡ State.Running }
        requires some { 1 ≤ length links.now }
        requires few { length links.now ≤ 16 }
        requires sound { All Sound links.now }
        requires fetches { fetches ≤ 4096 }
        ensures { self.new ≡ acted_place self.old flow links.now fetches acted }
    {
        let counted = total_count(links);
        let end = ending_of(links, counted.min(acted.want));
        let sub = sub_status(flow, &links[0], counted, acted, &end.link);
        self.finish_command(&last_of(links), fetches, acted, end, sub);
    }

    /// After a command of one CCW that the device did.
    #[inline(always)]
    pub(crate) fn advance_one(&mut self, flow: Flow, link: &Link, fetches: u16, acted: Acted)
        requires running { self.old.state ≡ State.Running }
        requires sound { Sound link.now }
        requires fetches { fetches ≤ 4096 }
        ensures { self.new ≡ acted_place self.old flow (link.now ∷ []) fetches acted }
    {
        let end = ended_in(*link, acted.want);
        let sub = sub_status(flow, link, u32::from(link.ccw.count), acted, link);
        self.finish_command(link, fetches, acted, end, sub);
    }

    /// Finishes a command whose last CCW is `last`: moves to the next command if the program chains, and
    /// otherwise ends the program with this subchannel status.
    #[inline(always)]
    fn finish_command(
        &mut self,
        last: &Link,
        fetches: u16,
        acted: Acted,
        end: Ending,
        sub: SubStatus,
    )
        requires running { self.old.state ≡ State.Running }
        requires sound { Sound last.now }
        requires fetches { fetches ≤ 4096 }
        ensures { self.new ≡ placed self.old last.now fetches acted end sub.0 }
    {
        let address = Address::stored(end.link.at);
        if goes_on(last, acted.unit, sub) {
            self.next = next_address(last, acted.unit);
            self.fetched = fetches;
            self.address = address;
            self.residual = end.residual;
        } else {
            self.end(
                Csw {
                    address,
                    unit: acted.unit,
                    sub,
                    residual: end.residual,
                },
                acted.sense,
            );
        }
    }
}
