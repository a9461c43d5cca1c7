//! Command steps, and bursts of them (Principles of Operation, chapter 15, "Channel-Command Word" and "Command
//! Chaining").

ghost use Rattle.std.specs.Prelude.{◌≡◌, ◌≤◌, ◌<◌, [], ◌∷◌, length, min, sum, All, false, ◌↔◌};
ghost use Rattle.io_area.specs.Storage.{SamePlace};
ghost use Rattle.ccw_programs.specs.Areas.{areas, Parts};
ghost use Rattle.ccw_programs.specs.Links.{chain, chained, Whole, Sound, is_indirect};
ghost use Rattle.ccw_programs.specs.Step.{Program, program, step, after, length_of, is_running};

use crate::areas::{data_area, data_areas, part_of};
use crate::context::{Burst, Context, State};
use crate::ending::command_code;
use crate::fetch::{First, Link, fetch_first, fetch_on};
use crate::workspace::{Parts, Workspace};
use device_port::{Chain, Device, Flow, Segment};
use io_area::Area;

/// One command step.
#[inline(always)]
fn command<D: Device>(
    context: &mut Context,
    device: &mut D,
    area: &mut Area,
    workspace: &mut Workspace,
)
    requires { context.old.state ≡ State.Running }
    ensures bound { context.old.fetched ≤ 4096 }
    ensures place { SamePlace area.old area.new }
    ensures step { program context.new device.new area.new ≡ step D.meaning (program context.old device.old area.old) }
{
    match fetch_first(area, context.next(), context.fetched()) {
        First::Failed(at) => context.check(at),
        First::Single(link, fetches) if !link.ccw.flags.is_indirect() => {
            command_on_one(context, device, area, &link, fetches);
        }
        First::Single(link, fetches) => {
            let parts = &mut workspace.parts;
            parts.clear();
            command_on(context, device, area, &[link], fetches, parts);
        }
        First::Chained(link, fetches) => {
            command_of_chain(context, device, area, &link, fetches, workspace);
        }
    }
}

/// One command step, whose only CCW was fetched.
#[inline(always)]
fn command_on_one<D: Device>(
    context: &mut Context,
    device: &mut D,
    area: &mut Area,
    link: &Link,
    fetches: u16,
)
    requires running { context.old.state ≡ State.Running }
    requires fetched { chain area.old context.old.next context.old.fetched ≡ Whole (link.now ∷ []) fetches }
    requires sound { Sound link.now }
    requires direct { is_indirect link.now.ccw ≡ false }
    requires fetches { fetches ≤ 4096 }
    ensures place { SamePlace area.old area.new }
    ensures step { program context.new device.new area.new ≡ step D.meaning (program context.old device.old area.old) }
{
    let flow = device.flow(link.ccw.command);
    if flow == Flow::None {
        act_on_one(context, device, area, link, fetches, flow, &[]);
        return;
    }
    let part = [part_of(&link.ccw)];
    match data_area(flow, area, link, &part) {
        None => context.check(link.at),
        Some(parts) => act_on_one(context, device, area, link, fetches, flow, parts),
    }
}

/// One command step, on the data area of its only CCW.
#[inline(always)]
fn act_on_one<D: Device>(
    context: &mut Context,
    device: &mut D,
    area: &mut Area,
    link: &Link,
    fetches: u16,
    flow: Flow,
    parts: &[Segment],
)
    requires running { context.old.state ≡ State.Running }
    requires fetched { chain area.old context.old.next context.old.fetched ≡ Whole (link.now ∷ []) fetches }
    requires sound { Sound link.now }
    requires fetches { fetches ≤ 4096 }
    requires flow { flow ≡ D.meaning.flow device.old link.now.ccw.command }
    requires parts { areas flow area.old (link.now ∷ []) ≡ Parts parts.now }
    requires few { length parts.now ≤ 1 }
    ensures place { SamePlace area.old area.new }
    ensures step { program context.new device.new area.new ≡ step D.meaning (program context.old device.old area.old) }
{
    let acted = device.act(link.ccw.command, &Chain::of(parts), area);
    context.advance_one(flow, link, fetches, acted);
}

/// One command step, whose first CCW was fetched and chains data.
#[inline(never)]
fn command_of_chain<D: Device>(
    context: &mut Context,
    device: &mut D,
    area: &mut Area,
    first: &Link,
    fetches: u16,
    workspace: &mut Workspace,
)
    requires running { context.old.state ≡ State.Running }
    requires fetched { chain area.old context.old.next context.old.fetched ≡ chained area.old first.now fetches }
    requires sound { Sound first.now }
    requires fetches { fetches ≤ 4096 }
    ensures place { SamePlace area.old area.new }
    ensures step { program context.new device.new area.new ≡ step D.meaning (program context.old device.old area.old) }
{
    let Workspace { links, parts } = workspace;
    links.clear();
    links.push(*first);
    parts.clear();
    match fetch_on(area, first.at + 8, true, fetches, links) {
        Err(refusal) => context.check(refusal.at),
        Ok(fetches) => command_on(context, device, area, links.as_slice(), fetches, parts),
    }
}

/// One command step, whose CCWs were fetched.
fn command_on<D: Device>(
    context: &mut Context,
    device: &mut D,
    area: &mut Area,
    links: &[Link],
    fetches: u16,
    parts: &mut Parts,
)
    requires running { context.old.state ≡ State.Running }
    requires fetched { chain area.old context.old.next context.old.fetched ≡ Whole links.now fetches }
    requires some { 1 ≤ length links.now }
    requires few { length links.now ≤ 16 }
    requires sound { All Sound links.now }
    requires fetches { fetches ≤ 4096 }
    requires empty { parts.old.items ≡ [] }
    ensures place { SamePlace area.old area.new }
    ensures step { program context.new device.new area.new ≡ step D.meaning (program context.old device.old area.old) }
{
    let code = command_code(links);
    let flow = device.flow(code);
    match data_areas(flow, area, links, parts) {
        Err(refusal) => context.check(refusal.at),
        Ok(()) => {
            let acted = device.act(code, &Chain::of(parts.as_slice()), area);
            context.advance(flow, links, fetches, acted);
        }
    }
}

/// Does at most `max` commands of a program, fewer if it ends before (chapter 15, "Command Chaining"; bursts are the
/// profile's). Returns how many it did, and the state of the program. Takes no memory: it uses the workspace.
pub fn burst<D: Device>(
    context: &mut Context,
    device: &mut D,
    area: &mut Area,
    workspace: &mut Workspace,
    max: u32,
) -> Burst
    requires some { 1 ≤ max }
    requires running { context.old.state ≡ State.Running }
    ensures after { program context.new device.new area.new ≡ after D.meaning result.commands (program context.old device.old area.old) }
    ensures commands { result.commands ≡ min max (length_of D.meaning (program context.old device.old area.old)) }
    ensures state { result.state ≡ context.new.state }
    ensures place { SamePlace area.old area.new }
    ensures full { result.state ≡ State.Running → result.commands ≡ max }
{
    for done in 0..max {
        command(context, device, area, workspace);
        let state = context.state();
        match state {
            State::Running => {}
            State::Ended(_, _) => {
                return Burst {
                    commands: done + 1,
                    state,
                };
            }
        }
    }
    Burst {
        commands: max,
        state: State::Running,
    }
}

/// Does bursts of these sizes, one after another, until the sizes are used up or the program has ended. It does the
/// same commands as one burst of their sum (chapter 15, "Command Chaining"; bursts are the profile's). Takes no
/// memory.
pub fn bursts<D: Device>(
    context: &mut Context,
    device: &mut D,
    area: &mut Area,
    workspace: &mut Workspace,
    sizes: &[u32],
) -> Burst
    requires sizes { All (λ size. 1 ≤ size) sizes.now }
    requires running { context.old.state ≡ State.Running }
    ensures after { program context.new device.new area.new ≡ after D.meaning result.commands (program context.old device.old area.old) }
    ensures commands { result.commands ≡ min (sum sizes.now) (length_of D.meaning (program context.old device.old area.old)) }
    ensures state { result.state ≡ context.new.state }
    ensures ended { (is_running result.state ≡ false) ↔ (result.commands ≡ length_of D.meaning (program context.old device.old area.old)) }
{
    let _bound = context.fetched();
    let mut commands = 0;
    for size in sizes {
        let done = burst(context, device, area, workspace, *size);
        commands += done.commands;
        match done.state {
            State::Running => {}
            State::Ended(_, _) => {
                return Burst {
                    commands,
                    state: done.state,
                };
            }
        }
    }
    Burst {
        commands,
        state: State::Running,
    }
}
