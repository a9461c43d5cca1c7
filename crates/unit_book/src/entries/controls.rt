//! Purges, closes and resets.

ghost use Rattle.std.specs.Prelude.{◌≡◌, ◌≤◌, ◌<◌, ◌+◌, ◌-◌, ◌∷◌, true, false, Some, length, reverse, vec_len, vec_capacity};
ghost use Rattle.subchannel.specs.Subchannel.{halted_phase};
ghost use Rattle.unit_book.specs.Answers.{Adds};
ghost use Rattle.unit_book.specs.Controls.{active_of, after_halt, covers_awaiting, PurgeHalts, PurgesAwaiting};
ghost use Rattle.unit_book.specs.Dcbs.{doomed, is_open};
ghost use Rattle.unit_book.specs.Legal.{CanPurge, Settled, ToHalt, due, doomed_first};
ghost use Rattle.unit_book.specs.Room.{KeepsRoom};
ghost use Rattle.unit_book.specs.Selected.{DoomedBy};
ghost use Rattle.unit_book.specs.Trace.{waiting};

use crate::entries::posts::{post_all, posted_from, write_post};
use crate::entries::{Entries, hand_out, write};
use crate::entry::{Entry, Mode};
use device_port::Device;
use io_images::Code;
use request_piece::{Name, Scope};
use subchannel::Subchannel;
use unit_queue::Selection;

/// Halts the program on a channel, and adds the entry of the halt. There is room.
fn halt<D: Device>(channel: &mut Subchannel<D>, trace: &mut Vec<Entry>, name: Name)
    requires { vec_len trace.old < vec_capacity trace.old }
    ensures state { channel.new ≡ record channel.old { phase = halted_phase channel.old.phase } }
    ensures items { reverse trace.new.items ≡ Entry.Halted name ∷ reverse trace.old.items }
    ensures spare { vec_capacity trace.old - vec_len trace.old ≤ vec_capacity trace.new - vec_len trace.new + 1 }
{
    channel.hsch();
    write(trace, Entry::Halted(name));
}

impl<D: Device> Entries<D> {
    /// The active request, if it is of a scope.
    pub fn active_of(&self, scope: Scope) -> Option<Name>
        ensures { result ≡ active_of scope self.now.trace }
    {
        match &self.active {
            Some(active) if scope.covers_piece(&active.piece) => Some(active.name()),
            Some(_) | None => None,
        }
    }

    /// Whom a purge halts.
    fn to_halt(&self, scope: Scope, mode: Mode) -> Option<Name>
        ensures { PurgeHalts D.meaning self.now.mounted scope mode self.now.trace result }
    {
        match mode {
            Mode::Quiesce => None,
            Mode::Halt => self.running_of(scope),
        }
    }

    /// Whom a purge with Halt halts.
    fn running_of(&self, scope: Scope) -> Option<Name>
        ensures { PurgeHalts D.meaning self.now.mounted scope Mode.Halt self.now.trace result }
    {
        if !self.is_running() {
            return None;
        }
        self.active_of(scope)
    }

    /// Adds a purge that covers nothing that awaits its restart, and the halt that it asks for.
    pub fn purge(&mut self, scope: Scope, mode: Mode)
        requires spare { 2 ≤ self.old.spare }
        requires settled { Settled D.meaning self.old.mounted self.old.trace }
        requires can { CanPurge D.meaning self.old.mounted scope self.old.trace }
        requires uncovered { covers_awaiting self.old scope mode ≡ false }
        ensures book { self.new ≡ record self.old { trace = after_halt D.meaning self.old.mounted (Entry.Purge scope mode ∷ self.old.trace); spare = self.new.spare } }
        ensures spare { self.old.spare ≤ self.new.spare + 2 }
        ensures room { KeepsRoom self.old self.new }
        ensures due { due D.meaning self.new.mounted self.new.trace ≡ doomed_first (doomed self.new.trace) }
        ensures dooms { DoomedBy (Some (Selection.Scope scope)) self.new.trace }
        ensures few { length (doomed self.new.trace) ≤ length (waiting self.old.trace) }
    {
        let halted = self.to_halt(scope, mode);
        write(&mut self.trace, Entry::Purge(scope, mode));
        let Some(active) = self.active.take() else {
            return;
        };
        let active = active.purged(scope, mode);
        let Some(name) = halted else {
            self.active = Some(active);
            return;
        };
        halt(&mut self.channel, &mut self.trace, name);
        self.active = Some(active.once_halted());
    }

    /// A purge of the active request if it covers this and this awaits its restart: what waits is posted as purged
    /// first, then this. Returns whether it is so; if not, nothing changes.
    pub fn purge_awaiting(&mut self, scope: Scope, mode: Mode) -> bool
        requires spare { length (waiting self.old.trace) + 2 ≤ self.old.spare }
        requires settled { Settled D.meaning self.old.mounted self.old.trace }
        requires can { CanPurge D.meaning self.old.mounted scope self.old.trace }
        ensures covered { result ≡ covers_awaiting self.old scope mode }
        ensures book { result ≡ true → PurgesAwaiting D.meaning self.old scope mode self.new }
        ensures settled { Settled D.meaning self.new.mounted self.new.trace }
        ensures uncovered { result ≡ false → self.new ≡ self.old }
        ensures spare { KeepsRoom self.old self.new }
    {
        let Some(active) = self.active.take() else {
            return false;
        };
        if !active.is_covered_awaiting(scope, mode) {
            self.active = Some(active);
            return false;
        }
        write(&mut self.trace, Entry::Purge(scope, mode));
        self.waiting
            .sweep(&Selection::Scope(scope), &mut self.swept);
        post_all(&mut self.swept, &mut self.trace, &mut self.out);
        let kept = active.kept_status();
        let name = active.name();
        let code = Code::Purged;
        write_post(&mut self.trace, name, &kept, code);
        hand_out(&mut self.out, posted_from(active.piece, &kept, code));
        true
    }

    /// Closes a DCB.
    pub fn close(&mut self, dcb: u16)
        requires spare { 1 ≤ self.old.spare }
        requires settled { Settled D.meaning self.old.mounted self.old.trace }
        requires can { is_open dcb self.old.trace ≡ true }
        ensures book { Adds self.old (Entry.Close dcb) self.new }
        ensures spare { self.old.spare ≤ self.new.spare + 1 }
        ensures due { due D.meaning self.new.mounted self.new.trace ≡ doomed_first (doomed self.new.trace) }
        ensures dooms { DoomedBy (Some (Selection.Scope (Scope.Dcb dcb))) self.new.trace }
        ensures few { length (doomed self.new.trace) ≤ length (waiting self.old.trace) }
    {
        write(&mut self.trace, Entry::Close(dcb));
        self.dcbs.close(dcb);
    }

    /// Clears the error flag of a DCB.
    pub fn reset(&mut self, dcb: u16)
        requires spare { 1 ≤ self.old.spare }
        requires settled { Settled D.meaning self.old.mounted self.old.trace }
        requires can { is_open dcb self.old.trace ≡ true }
        ensures book { Adds self.old (Entry.Reset dcb) self.new }
        ensures settled { Settled D.meaning self.new.mounted self.new.trace }
        ensures spare { KeepsRoom self.old self.new }
    {
        write(&mut self.trace, Entry::Reset(dcb));
        self.dcbs.reset(dcb);
    }
}
