//! Channel workers and interruption handlers.

ghost use Rattle.std.specs.Prelude.{◌<◌, ◌≤◌};
ghost use Rattle.std.specs.List.{All};

use crate::gate::{Gate, Point, Stop};
use crate::isc::IscTaker;
use crate::rota::{Rota, TurnResult};
use crate::site::Opened;
use crate::system::System;
use crate::unit::UnitState;
use crossbeam_utils::Backoff;
use device_port::Device;
use std::alloc::AllocError;
use std::sync::Wait;
use unit_book::{Delivery, Intake, Interruption, Running, Starting};

/// How many commands a turn of `serve_channel` runs (profile).
const CHANNEL_TURN: u32 = 16;

/// How many commands a turn of `serve` runs.
const TURN: u32 = 64;

/// The most units of a system (profile).
const MOST_UNITS: usize = 64;

/// Serves units and interruption subclasses in turn until it is stopped. For each unit it lets a request arrive, starts
/// what comes next, runs it for at most 64 commands, and sends a posted value back. After each such turn it takes the
/// notices of pending status. For each notice it takes the status and sends a posted value back.
///
/// Before each call it passes the gate, under the unit's lock. The gate hears of what was sent back, and of a call
/// without memory, which is an idle turn. Both lists may be empty.
pub fn serve<'r, S: Opened<D>, D: Device, G: Gate, R: Wait>(
    rt: &R,
    system: &System<'r, S, D>,
    units: &[u16],
    takers: &mut [IscTaker<'r, S>],
    gate: &G,
    stop: &Stop,
)
    requires { All (λ unit. unit < S.rows.units) units.now }
{
    work(rt, system, units, takers, gate, stop, TURN);
}

/// Serves units alone, as a channel does: a turn runs at most 16 commands.
pub fn serve_channel<S: Opened<D>, D: Device, G: Gate, R: Wait>(
    rt: &R,
    system: &System<'_, S, D>,
    units: &[u16],
    gate: &G,
    stop: &Stop,
)
    requires { All (λ unit. unit < S.rows.units) units.now }
{
    work(rt, system, units, &mut [], gate, stop, CHANNEL_TURN);
}

/// Serves interruption subclasses alone.
pub fn serve_isc<'r, S: Opened<D>, D: Device, G: Gate, R: Wait>(
    rt: &R,
    system: &System<'r, S, D>,
    takers: &mut [IscTaker<'r, S>],
    gate: &G,
    stop: &Stop,
) {
    work(rt, system, &[], takers, gate, stop, TURN);
}

/// Serves both, with turns of `commands` commands.
fn work<'r, S: Opened<D>, D: Device, G: Gate, R: Wait>(
    rt: &R,
    system: &System<'r, S, D>,
    units: &[u16],
    takers: &mut [IscTaker<'r, S>],
    gate: &G,
    stop: &Stop,
    commands: u32,
)
    requires units { All (λ unit. unit < S.rows.units) units.now }
    requires commands { 1 ≤ commands }
{
    let idle = Backoff::new();
    let mut rota = Rota::new();
    for _ in rt.forever() {
        if stop.raised() {
            break;
        }
        if pass_over(rt, system, units, takers, gate, commands, &mut rota) {
            idle.reset();
        } else {
            if idle.is_completed() {
                rota.call_all();
            }
            idle.snooze();
        }
    }
}

/// One pass over the units: those that are due have a turn. After each turn, and at least once, all notices are taken.
/// Returns whether anything was done.
fn pass_over<'r, S: Opened<D>, D: Device, G: Gate, R: Wait>(
    rt: &R,
    system: &System<'r, S, D>,
    units: &[u16],
    takers: &mut [IscTaker<'r, S>],
    gate: &G,
    commands: u32,
    rota: &mut Rota,
) -> bool
    requires units { All (λ unit. unit < S.rows.units) units.now }
    requires commands { 1 ≤ commands }
{
    let mut served = false;
    let mut looked = false;
    rota.begin(units.len());
    for unit in units {
        if rota.is_due(*unit) {
            let turn = turn_of(rt, system, *unit, gate, commands);
            rota.note(*unit, turn);
            served |= turn == TurnResult::Served;
            served |= serve_notices(rt, system, takers, gate);
            looked = true;
        }
    }
    if !looked {
        served = serve_notices(rt, system, takers, gate);
    }
    served
}

/// One turn on a unit, under its lock.
fn turn_of<S: Opened<D>, D: Device, G: Gate, R: Wait>(
    rt: &R,
    system: &System<'_, S, D>,
    unit: u16,
    gate: &G,
    commands: u32,
) -> TurnResult
    requires unit { unit < S.rows.units }
    requires commands { 1 ≤ commands }
{
    let mut state = system.lock_of(unit).lock(rt);
    serve_unit(rt, &mut state, unit, gate, commands)
}

/// One turn on a unit whose lock is held.
fn serve_unit<S: Opened<D>, D: Device, G: Gate, R: Wait>(
    rt: &R,
    state: &mut UnitState<'_, S, D>,
    unit: u16,
    gate: &G,
    commands: u32,
) -> TurnResult
    requires { 1 ≤ commands }
{
    gate.pass(unit, Point::Take);
    let taken = told(gate, unit, Point::Take, state.take(rt));
    let took = matches!(taken, Some(Intake::Took(_)));
    gate.pass(unit, Point::Start);
    let start = told(gate, unit, Point::Start, state.start());
    let started = matches!(start, Some(Starting::Started(_) | Starting::Violated(_)));
    gate.pass(unit, Point::Run);
    let run = told(gate, unit, Point::Run, state.run(rt, commands));
    let ran = matches!(run, Some(Running::Ran { .. }));
    let back = send_back(rt, state, unit, gate);
    if took || started || ran || back == TurnResult::Served {
        TurnResult::Served
    } else if state.book().pending() {
        TurnResult::Waiting
    } else {
        back
    }
}

/// Sends the first posted value that is out back to its task.
fn send_back<S: Opened<D>, D: Device, G: Gate, R: Wait>(
    rt: &R,
    state: &mut UnitState<'_, S, D>,
    unit: u16,
    gate: &G,
) -> TurnResult {
    gate.pass(unit, Point::Deliver);
    match state.deliver(rt) {
        Delivery::Delivered(name) => {
            gate.delivered(name);
            TurnResult::Served
        }
        Delivery::Full(name) => {
            gate.row_is_full(name);
            TurnResult::Waiting
        }
        Delivery::Quiet => TurnResult::Idle,
    }
}

/// Takes the notices of all subclasses. Returns whether anything was done.
fn serve_notices<'r, S: Opened<D>, D: Device, G: Gate, R: Wait>(
    rt: &R,
    system: &System<'r, S, D>,
    takers: &mut [IscTaker<'r, S>],
    gate: &G,
) -> bool {
    let mut served = false;
    for taker in takers.iter_mut() {
        served |= serve_subclass(rt, system, taker, gate);
    }
    served
}

/// Takes the notices of one subclass until there is none, at most one for each unit that there may be. Returns
/// whether anything was done.
fn serve_subclass<'r, S: Opened<D>, D: Device, G: Gate, R: Wait>(
    rt: &R,
    system: &System<'r, S, D>,
    taker: &mut IscTaker<'r, S>,
    gate: &G,
) -> bool {
    let mut served = false;
    for _ in 0..MOST_UNITS {
        let Some(unit) = taker.next(rt) else {
            break;
        };
        let mut state = system.lock_of(unit).lock(rt);
        served |= handle(rt, &mut state, unit, gate);
    }
    served
}

/// Takes the pending status of a unit. Answers whether anything was done.
fn handle<S: Opened<D>, D: Device, G: Gate, R: Wait>(
    rt: &R,
    state: &mut UnitState<'_, S, D>,
    unit: u16,
    gate: &G,
) -> bool {
    gate.pass(unit, Point::Interrupt);
    let interruption = told(gate, unit, Point::Interrupt, state.interrupt());
    let answered = matches!(
        interruption,
        Some(Interruption::Again(_) | Interruption::Ended(_, _))
    );
    let back = send_back(rt, state, unit, gate);
    answered || back == TurnResult::Served
}

/// Passes on the answer of a call. The gate hears of a call without memory.
fn told<T: Copy, G: Gate>(
    gate: &G,
    unit: u16,
    point: Point,
    answer: Result<T, AllocError>,
) -> Option<T> {
    if answer.is_err() {
        gate.lack_memory(unit, point);
    }
    answer.ok()
}
