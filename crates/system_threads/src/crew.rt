//! The workers of a system.

ghost use Rattle.std.specs.Prelude.{◌≡◌, ◌<◌, ◌≤◌, IfOk};
ghost use Rattle.std.specs.List.{All};
ghost use Rattle.system_threads.specs.Shares.{AreShared, below, share_of};

use crate::run_error::RunError;
use device_port::Device;
use excp_system::{Gate, IscTaker, Opened, Site, Stop, System, serve};
use std::alloc::{AllocError, Global};
use std::marker::PhantomData;
use std::sync::Wait;
use std::thread::{Scope, Threads};

/// How many channel workers (1 to 16) and interruption handlers (1 to 8) serve the units.
#[derive(Clone, Copy)]
pub struct Workers {
    pub channels: u8,
    pub handlers: u8,
    ghost channels_fit: { (1 ≤ channels) × (channels ≤ 16) },
    ghost handlers_fit: { (1 ≤ handlers) × (handlers ≤ 8) },
}

/// The units that one channel worker serves.
#[derive(Drop)]
pub struct ChannelWorker<S: Site> {
    pub units: Vec<u16>,
    of: PhantomData<S>,
    ghost of_the_site: { All (λ unit. unit < S.rows.units) units.items },
}

impl<S: Site> ChannelWorker<S> {
    /// The units that worker `number` of `count` serves: those whose number has that remainder.
    fn new(
        alloc: Global,
        units: u16,
        count: u16,
        number: u16,
    ) -> Result<ChannelWorker<S>, AllocError>
        requires units { units ≡ S.rows.units }
        requires count { 0 < count }
        ensures { IfOk result (λ channel. channel.units.items ≡ share_of (λ unit. unit) count number (below units)) }
    {
        let mut served = Vec::new(alloc);
        for unit in 0..units {
            if unit % count == number {
                served.push(unit)?;
            }
        }
        Ok(ChannelWorker {
            units: served,
            of: PhantomData,
        })
    }
}

/// The workers of a system: each channel worker with its units, and each handler with the ends of the notice rows of
/// its subclasses.
#[derive(Drop)]
pub struct Crew<'r, S: Site> {
    pub channels: Vec<ChannelWorker<S>>,
    pub handlers: Vec<Vec<IscTaker<'r, S>>>,
}

impl<'r, S: Site> Crew<'r, S> {
    /// These numbers of channel workers and handlers. Worker c serves the units u with u mod channels = c, and
    /// handler h the subclasses i with i mod handlers = h.
    pub fn new(
        alloc: Global,
        units: u16,
        takers: Vec<IscTaker<'r, S>>,
        workers: Workers,
    ) -> Result<Crew<'r, S>, AllocError>
        requires units { units ≡ S.rows.units }
        ensures channels { IfOk result (λ crew. AreShared (λ channel. channel.units.items) (λ unit. unit) workers.channels (below units) crew.channels.items) }
        ensures handlers { IfOk result (λ crew. AreShared (λ handler. handler.items) (λ taker. taker.isc) workers.handlers takers.entry.items crew.handlers.items) }
    {
        let channels = channel_workers(alloc, units, u16::from(workers.channels))?;
        let handlers = handlers_of(alloc, takers, usize::from(workers.handlers))?;
        Ok(Crew { channels, handlers })
    }
}

/// `count` channel workers, with their units.
fn channel_workers<S: Site>(
    alloc: Global,
    units: u16,
    count: u16,
) -> Result<Vec<ChannelWorker<S>>, AllocError>
    requires units { units ≡ S.rows.units }
    requires count { 0 < count }
    ensures { IfOk result (λ channels. AreShared (λ channel. channel.units.items) (λ unit. unit) count (below units) channels.items) }
{
    let mut channels = Vec::with_capacity(alloc, usize::from(count))?;
    for number in 0..count {
        channels.push(ChannelWorker::new(alloc, units, count, number)?)?;
    }
    Ok(channels)
}

/// The ends of the notice rows that each of `count` handlers serves.
fn handlers_of<'r, S: Site>(
    alloc: Global,
    takers: Vec<IscTaker<'r, S>>,
    count: usize,
) -> Result<Vec<Vec<IscTaker<'r, S>>>, AllocError>
    requires { 0 < count }
    ensures { IfOk result (λ handlers. AreShared (λ handler. handler.items) (λ taker. taker.isc) count takers.entry.items handlers.items) }
{
    let mut handlers = Vec::with_capacity(alloc, count)?;
    for _ in 0..count {
        handlers.push(Vec::new(alloc))?;
    }
    for taker in takers {
        let place = usize::from(taker.isc()) % count;
        handlers[place].push(taker)?;
    }
    Ok(handlers)
}

/// Serves these units and subclasses until it is stopped, and passes this gate.
fn work<'r, S: Opened<D>, D: Device, G: Gate, R: Wait>(
    rt: &R,
    system: &System<'r, S, D>,
    gate: &G,
    units: &[u16],
    mut takers: Vec<IscTaker<'r, S>>,
    stop: &Stop,
)
    requires { All (λ unit. unit < S.rows.units) units.now }
{
    serve(rt, system, units, takers.as_mut_slice(), gate, stop);
}

/// Starts the workers that have something to serve. A channel worker and the handler with its number share a thread, so
/// that the state of a unit stays with one processor. If no thread can be made for one of them, the others go on until
/// they are stopped.
pub(crate) fn start<
    's,
    'r,
    S: Opened<D> + Send + Sync,
    D: Device + Send + Sync,
    G: Gate + Sync,
    R: Threads + Wait + Sync,
    E,
>(
    rt: &'s R,
    alloc: Global,
    scope: &Scope<'s, E>,
    system: &'s System<'r, S, D>,
    gate: &'s G,
    channels: &'s [ChannelWorker<S>],
    handlers: Vec<Vec<IscTaker<'r, S>>>,
    stop: &'s Stop,
) -> Result<(), RunError> {
    let mut handlers = handlers.into_iter();
    for channel in channels {
        let takers = handlers.next().unwrap_or(Vec::new(alloc));
        start_one(rt, scope, system, gate, &channel.units, takers, stop)?;
    }
    for takers in handlers {
        start_one(rt, scope, system, gate, &[], takers, stop)?;
    }
    Ok(())
}

/// Starts the worker of these units and subclasses, unless there is none of either.
fn start_one<
    's,
    'r,
    S: Opened<D> + Send + Sync,
    D: Device + Send + Sync,
    G: Gate + Sync,
    R: Threads + Wait + Sync,
    E,
>(
    rt: &'s R,
    scope: &Scope<'s, E>,
    system: &'s System<'r, S, D>,
    gate: &'s G,
    units: &'s [u16],
    takers: Vec<IscTaker<'r, S>>,
    stop: &'s Stop,
) -> Result<(), RunError>
    requires { All (λ unit. unit < S.rows.units) units.now }
{
    if units.is_empty() && takers.is_empty() {
        return Ok(());
    }
    match scope.spawn(move || work(rt, system, gate, units, takers, stop)) {
        Ok(_) => Ok(()),
        Err(_) => Err(RunError::NoThread),
    }
}
