//! Faults that a device is to meet, by the numbers of its commands.

ghost use Rattle.std.specs.Prelude.{◌≡◌, ◌<◌, ◌-◌, ◌^◌, IfNone, IfOk, IfSome, IsSome, IsTrue, None, if◌then◌else◌, length, true};
ghost use Rattle.device_port.specs.Faults.{Ordinals, fault_met, counted, failed, is_channel_check, is_script, are_faults_after, Follows, IsClear, next_ordinal};

use crate::answer::Acted;
use io_images::{SubStatus, UnitStatus};
use std::alloc::{AllocError, Global};
use std::marker::Model;

/// A fault that a device shows at the command with this number, counted from 1 since it was mounted (profile). It is
/// unit check with any sense bytes; or channel-data check, channel-control check or interface-control check without
/// sense.
#[derive(Clone, Copy, PartialEq, Eq, Debug)]
pub struct Fault {
    /// The number of the command.
    pub ordinal: u64,
    /// Unit status: X'0E' or 0.
    pub unit: UnitStatus,
    /// Subchannel status: 0, or X'08', X'04' or X'02'.
    pub sub: SubStatus,
    /// Sense bytes 0 and 1.
    pub sense: u16,
}

impl Fault {
    ghost use Rattle.device_port.specs.Faults.{failed, is_fault};

    /// What a command that meets this fault answers.
    pub fn acted(&self) -> Acted
        ensures { result ≡ failed self.now }
    {
        Acted {
            unit: self.unit,
            sub: self.sub,
            sense: self.sense,
            want: 0,
        }
    }

    /// Whether a device may show this fault.
    fn is_shown(&self) -> bool
        ensures { result ≡ is_fault self.now }
    {
        if self.unit == UnitStatus::CHECK_END {
            return self.sub.is_clear();
        }
        self.unit.bits() == 0 && is_channel_check(self.sub) && self.sense == 0
    }
}

/// Whether a subchannel status is one of the checks that a device may show.
fn is_channel_check(sub: SubStatus) -> bool
    ensures { result ≡ is_channel_check sub.0 }
{
    sub == SubStatus::CHANNEL_DATA_CHECK
        || sub == SubStatus::CHANNEL_CONTROL_CHECK
        || sub == SubStatus::INTERFACE_CONTROL_CHECK
}

/// Whether a device may show these faults, and their numbers rise from at least 1.
pub fn is_script(faults: &[Fault]) -> bool
    ensures { result ≡ is_script faults.now }
{
    let mut last = 0;
    for fault in faults {
        if fault.ordinal <= last || !fault.is_shown() {
            return false;
        }
        last = fault.ordinal;
    }
    true
}

/// The numbers of a device's commands and the faults that it is to meet.
#[derive(Drop)]
pub struct FaultScript {
    faults: Vec<Fault>,
    next: usize,
    done: u64,
    /// No command meets a fault before this many are done.
    clear: u64,
}

impl Model for FaultScript {
    ghost use Rattle.device_port.specs.Faults.{Ordinals, Follows, IsClear};

    ghost Value = { Ordinals };

    ghost view = { λ s. record { script = s.faults.items; done = s.done } };

    ghost invariant = { λ s. Follows s.faults.items s.next s.done × IsClear s.faults.items s.done s.clear };
}

impl FaultScript {
    /// A script before the first command.
    pub fn new(alloc: Global, faults: &[Fault]) -> Result<Self, AllocError>
        requires { is_script faults.now ≡ true }
        ensures { IfOk result (λ s. s ≡ record { script = faults.now; done = 0 }) }
    {
        let faults = faults.to_vec(alloc)?;
        Ok(FaultScript {
            faults,
            next: 0,
            done: 0,
            clear: 0,
        })
    }

    /// Counts a command if the next fault is known to come later. Else it returns false and counts nothing.
    #[inline(always)]
    pub fn pass(&mut self) -> bool
        ensures clear { IsTrue result → fault_met self.old ≡ None }
        ensures counted { self.new ≡ (if result then counted self.old else self.old) }
    {
        if self.done >= self.clear {
            return false;
        }
        self.done += 1;
        true
    }

    /// Counts a command, and gives the fault that it meets.
    #[inline(always)]
    pub fn count(&mut self) -> Option<Fault>
        ensures fault { result ≡ fault_met self.old }
        ensures counted { self.new ≡ counted self.old }
    {
        if self.pass() {
            return None;
        }
        self.count_in_script()
    }

    /// Counts a command by a look into the script, and returns the fault that it meets. Notes how many of the next
    /// commands are clear of faults.
    #[inline(never)]
    fn count_in_script(&mut self) -> Option<Fault>
        ensures fault { result ≡ fault_met self.old }
        ensures counted { self.new ≡ counted self.old }
    {
        let faults = self.faults.as_slice();
        let fault = fault_met(faults, self.next, self.done);
        let next = place_behind(faults, self.next, self.done, &fault);
        let done = self.done.saturating_add(1);
        let clear = clear_until(faults, next, done);
        self.next = next;
        self.done = done;
        self.clear = clear;
        fault
    }

    /// How many commands were done, if a fault may still come. Otherwise no later command meets one.
    pub fn to_come(&self) -> Option<u64>
        ensures done { IfSome result (λ done. done ≡ self.now.done) }
        ensures none { IfNone result (IsClear self.now.script self.now.done (2 ^ 64 - 1)) }
    {
        if clear_until(self.faults.as_slice(), self.next, self.done) == u64::MAX {
            return None;
        }
        Some(self.done)
    }

    /// Copies the fault script and its position: how many commands were counted. Fails only if memory runs out.
    pub fn copy(&self) -> Result<Self, AllocError>
        ensures { IfOk result (λ s. s ≡ self.now) }
    {
        Ok(FaultScript {
            faults: self.faults.clone()?,
            next: self.next,
            done: self.done,
            clear: self.clear,
        })
    }

    /// Becomes the same as another fault script of this length, with its place. Never allocates.
    pub fn copy_from(&mut self, from: &Self)
        requires { length self.old.script ≡ length from.now.script }
        ensures { self.new ≡ from.now }
    {
        self.faults.copy_from_slice(&from.faults);
        self.next = from.next;
        self.done = from.done;
        self.clear = from.clear;
    }
}

/// The fault of the next command. Assumes that the faults before `next` are passed.
fn fault_met(faults: &[Fault], next: usize, done: u64) -> Option<Fault>
    requires { Follows faults.now next done }
    ensures met { result ≡ fault_met (record { script = faults.now; done = done }) }
    ensures within { IsSome result → next < length faults.now }
{
    if done >= u64::MAX - 1 || next >= faults.len() {
        return None;
    }
    let fault = faults[next];
    if fault.ordinal == done + 1 {
        Some(fault)
    } else {
        None
    }
}

/// The index of the next fault after a command that met this one, or did not.
fn place_behind(faults: &[Fault], next: usize, done: u64, met: &Option<Fault>) -> usize
    requires follows { Follows faults.now next done }
    requires met { met.now ≡ fault_met (record { script = faults.now; done = done }) }
    requires within { IsSome met.now → next < length faults.now }
    ensures { Follows faults.now result (next_ordinal done) }
{
    if met.is_some() { next + 1 } else { next }
}

/// How many commands can be done until the next one may meet a fault. Assumes that the faults before `next` are passed.
fn clear_until(faults: &[Fault], next: usize, done: u64) -> u64
    requires { Follows faults.now next done }
    ensures { IsClear faults.now done result }
{
    if next < faults.len() {
        faults[next].ordinal.saturating_sub(1)
    } else {
        u64::MAX
    }
}
