//! The events of a unit, in their order.

ghost use Rattle.std.specs.Prelude.{◌≡◌, ◌+◌, ◌-◌, Some, drop, length, min, reverse, slice_get, sum};
ghost use Rattle.std.specs.Iterator.{at_most};
ghost use Rattle.unit_history.specs.Dcbs.{room_of};
ghost use Rattle.unit_history.specs.Events.{GivesEvent, TellsEntry, entries_of, most_commands, turn, turns};
ghost use Rattle.unit_history.specs.Orderly.{IsAfter};
ghost use Rattle.unit_history.specs.TraceStates.{Knows, before, room_of_state};

use crate::dcbs::Dcbs;
use crate::event::{EventKind, UnitEvent};
use crate::trace_state::TraceState;
use device_port::Device;
use post_lines::End;
use request_piece::Name;
use std::marker::Model;
use unit_book::{Entry, UnitBook};

/// The events of a unit, oldest first. Turns of a program that follow one another are one event.
#[derive(Drop)]
pub struct Events<'t, 'd> {
    state: TraceState<'t, 'd>,
}

impl<'t, 'd> Model for Events<'t, 'd> {
    ghost use Rattle.unit_history.specs.Events.{EventsPlace};

    ghost Value = { EventsPlace };

    ghost use Rattle.unit_history.specs.TraceStates.{Knows, room_of_state};

    ghost view = { λ events. record { entries = events.state.trace.now; done = events.state.done; room = room_of_state events.state } };

    ghost invariant = { λ events. Knows events.state };
}

impl<'t, 'd> Events<'t, 'd> {
    /// The events of a book. What they say of DCBs counts while the table has room for those that the trace opens.
    pub fn of<D: Device>(book: &'t UnitBook<D>, dcbs: &'d mut Dcbs) -> Events<'t, 'd>
        ensures trace { reverse result.entries ≡ book.now.trace }
        ensures start { result.done ≡ 0 }
        ensures room { result.room ≡ room_of dcbs.old }
    {
        book.holds();
        Events {
            state: TraceState::new(book.trace(), dcbs),
        }
    }
}

/// What the next entry says, with the entries from it on.
fn event_kind<'t>(state: &TraceState<'t, '_>, entry: &'t Entry, later: &[Entry]) -> EventKind<'t>
    requires knows { Knows state.now }
    requires follows { IsAfter entry.now (before state.now) }
    ensures { TellsEntry (room_of_state state.now) (before state.now) entry.now later.now result }
{
    match entry {
        Entry::Opened(dcb, method, extents) => EventKind::Opened {
            dcb: *dcb,
            method: *method,
            extents: extents.as_slice(),
        },
        Entry::Arrive(issued) => EventKind::Arrived(issued),
        Entry::Start(name) => EventKind::Started {
            name: *name,
            attempt: state.attempt(*name),
        },
        Entry::Ran(name, _) => ran(*name, later),
        Entry::Halted(name) => EventKind::Halted(*name),
        Entry::Purge(scope, mode) => EventKind::Purged {
            scope: *scope,
            mode: *mode,
            active: state.active(),
        },
        Entry::Close(dcb) => EventKind::Closed { dcb: *dcb },
        Entry::Reset(dcb) => EventKind::Reset { dcb: *dcb },
        Entry::Post(name, csw, sense, code) => EventKind::Posted {
            name: *name,
            end: End {
                code: *code,
                csw: *csw,
                sense: *sense,
            },
            cause: state.cause(*name, *code),
            sets_flag: state.sets_flag(*name, *code),
        },
    }
}

/// The turns of a request that these entries begin with.
fn ran<'t>(name: Name, entries: &[Entry]) -> EventKind<'t>
    ensures { result ≡ EventKind.Ran name (min most_commands (sum (turns name entries.now))) (length (turns name entries.now)) }
{
    let mut commands: u64 = 0;
    let mut turns: u64 = 0;
    for entry in entries {
        let Some(count) = turn(entry, name) else {
            break;
        };
        commands = with_turn(commands, count);
        turns += 1;
    }
    EventKind::Ran {
        name,
        commands,
        turns,
    }
}

/// A sum of commands with one turn more.
fn with_turn(commands: u64, turn: u32) -> u64
    ensures { result ≡ min (commands + turn) most_commands }
{
    commands.saturating_add(u64::from(turn))
}

/// The commands of a turn of this request.
fn turn(entry: &Entry, name: Name) -> Option<u32>
    ensures { result ≡ turn name entry.now }
{
    match entry {
        Entry::Ran(other, count) if *other == name => Some(*count),
        _ => None,
    }
}

/// Goes on after the entries of the next event, whose first entry is this one.
fn go_on<'t>(state: &mut TraceState<'t, '_>, entry: &'t Entry, kind: &EventKind<'t>)
    requires knows { Knows state.old }
    requires next { slice_get state.old.trace.now state.old.done ≡ Some entry.now }
    requires follows { IsAfter entry.now (before state.old) }
    requires kind { TellsEntry (room_of_state state.old) (before state.old) entry.now (drop state.old.done state.old.trace.now) kind.now }
    ensures knows { Knows state.new }
    ensures trace { state.new.trace.now ≡ state.old.trace.now }
    ensures done { state.new.done ≡ state.old.done + entries_of kind.now }
    ensures room { room_of_state state.new ≡ room_of_state state.old }
{
    match kind {
        EventKind::Ran { name, turns, .. } => state.pass(*name, *turns as usize),
        _ => state.note(entry),
    }
}

impl<'t, 'd> Iterator for Events<'t, 'd> {
    type Item = UnitEvent<'t>;

    ghost next_gives = { GivesEvent };

    ghost remaining = { λ events. at_most (length events.entries - events.done) };

    fn next(&mut self) -> Option<UnitEvent<'t>> {
        let entries = self.state.trace;
        let done = self.state.done;
        if done >= entries.len() {
            return None;
        }
        let entry = &entries[done];
        let kind = event_kind(&self.state, entry, &entries[done..]);
        go_on(&mut self.state, entry, &kind);
        Some(UnitEvent {
            entry: done + 1,
            kind,
        })
    }
}
