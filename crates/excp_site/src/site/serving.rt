//! Serving a unit: all of its events, one after another.

ghost use Rattle.std.specs.Prelude.{◌≡◌, ◌↔◌, false, ◌<◌, ◌≤◌, IfErr, IfNone, IfOk, IfSome, OnErr, OnOk, length};
ghost use Rattle.any_device.specs.Devices.{any_device};
ghost use Rattle.unit_book.specs.Settle.{IsIdle};
ghost use Rattle.unit_book.specs.Steps.{IsStep, StepsBook};
ghost use Rattle.unit_world.specs.Sites.{OnBook, OnPart};
ghost use Rattle.excp_site.specs.Serving.{EndsServe, HasSettled, IsQuiet, IsServedFor, IsStill, OnDelivery, ServeRefused, Serves, SettleRefused, StopsServing, commands_done, changed_nothing, posts_sent};

use crate::refusal::Refusal;
use crate::served::{Served, ServedEnd, end_number};
use crate::site::Site;
use any_device::AnyDevice;
use std::alloc::AllocError;
use unit_book::{Delivery, Intake, Interruption, Running, Starting, UnitAnswer, UnitStep};
use unit_world::PlainSite;

/// What one turn of a unit did.
#[derive(Clone, Copy)]
struct Turn {
    /// Whether an event changed the unit.
    has_moved: bool,
    /// How many commands were done.
    commands: u32,
    delivery: Delivery,
}

impl Site {
    /// Takes, starts, runs, interrupts and delivers, until nothing is left to do at a unit, a post row is full, or `max` commands
    /// were done.
    ///
    /// Errors, in this order: `NoUnit`; `BadNumber` if `max` is 0; `NoMemory`. What was done stays done.
    pub fn serve(&mut self, unit: u16, max: u32) -> Result<Served, Refusal>
        ensures ok { IfOk result (λ served. IsServedFor self.old.plain unit max served self.new.plain) }
        ensures refused { IfErr result (ServeRefused self.old.plain unit max self.new.plain) }
        ensures rest { self.new ≡ record self.old { plain = self.new.plain } }
    {
        self.has_unit(unit)?;
        if max == 0 {
            return Err(Refusal::BadNumber);
        }
        let mut posts = 0;
        let mut left = max;
        for _ in 0..u64::MAX {
            let turn = take_turn(&mut self.plain, unit, left)?;
            posts += posts_sent(turn.delivery);
            left -= turn.commands;
            if let Some(ended) = self.ended(unit, turn, left) {
                return Ok(Served {
                    posts,
                    commands: max - left,
                    ended: end_number(ended),
                });
            }
        }
        // no unit has as many turns
        Err(Refusal::NoMemory)
    }

    /// Why serving a unit ends after a turn, if it does. `left` commands may still be done.
    fn ended(&self, unit: u16, turn: Turn, left: u32) -> Option<ServedEnd>
        requires unit { unit < length self.now.plain.units }
        requires delivery { OnDelivery self.now.plain unit turn.delivery }
        requires still { turn.has_moved ≡ false → OnPart self.now.plain unit IsStill }
        ensures why { IfSome result (EndsServe self.now.plain unit left) }
        ensures none { IfNone result (1 ≤ left) }
    {
        if !turn.has_moved {
            match turn.delivery {
                Delivery::Full(_) => return Some(ServedEnd::RowFull),
                Delivery::Quiet if self.plain.is_finished(unit) => return Some(ServedEnd::All),
                _ => {}
            }
        }
        if left == 0 {
            return Some(ServedEnd::Commands);
        }
        None
    }

    /// Starts, runs and interrupts until nothing waits or is active at a unit.
    ///
    /// Errors: `NoUnit`; `NoMemory`, and then what was done stays done.
    pub fn settle(&mut self, unit: u16) -> Result<(), Refusal>
        ensures settles { HasSettled self.old.plain unit self.new.plain }
        ensures unit { OnOk result (unit < length self.old.plain.units) }
        ensures idle { OnOk result (OnPart self.new.plain unit (λ p. IsIdle p.book.trace)) }
        ensures refused { IfErr result (SettleRefused self.old.plain unit self.new.plain) }
        ensures rest { self.new ≡ record self.old { plain = self.new.plain } }
    {
        self.has_unit(unit)?;
        Ok(self.plain.settle(unit)?)
    }
}

/// Takes, starts, runs for at most `max` commands, interrupts and delivers, each once.
fn take_turn(plain: &mut PlainSite<AnyDevice>, unit: u16, max: u32) -> Result<Turn, AllocError>
    requires unit { unit < length plain.old.units }
    requires some { 1 ≤ max }
    ensures serves { IfOk result (λ turn. Serves plain.old unit (posts_sent turn.delivery) turn.commands plain.new) }
    ensures most { IfOk result (λ turn. turn.commands ≤ max) }
    ensures delivery { IfOk result (λ turn. OnDelivery plain.new unit turn.delivery) }
    ensures still { IfOk result (λ turn. turn.has_moved ≡ false → OnPart plain.new unit IsStill) }
    ensures units { length plain.new.units ≡ length plain.old.units }
    ensures stops { OnErr result (StopsServing plain.old unit max plain.new) }
{
    let taken = plain.take(unit)?;
    let started = step(plain, unit, UnitStep::Start)?;
    let ran = step(plain, unit, UnitStep::Run(max))?;
    let interrupted = step(plain, unit, UnitStep::Interrupt)?;
    let delivery = plain.deliver(unit);
    Ok(Turn {
        has_moved: has_moved(taken, started, ran, interrupted, delivery),
        commands: commands_done(ran),
        delivery,
    })
}

/// Makes a step that is no control, so it fails only if memory runs out.
fn step(
    plain: &mut PlainSite<AnyDevice>,
    unit: u16,
    step: UnitStep,
) -> Result<UnitAnswer, AllocError>
    requires unit { unit < length plain.old.units }
    requires step { IsStep step }
    ensures ok { IfOk result (λ answer. OnBook plain.old unit (λ b c. StepsBook any_device b step answer c) plain.new) }
    ensures err { OnErr result (plain.new ≡ plain.old) }
{
    match plain.step(unit, step) {
        Ok(answer) => Ok(answer),
        Err(_) => Err(AllocError),
    }
}

/// Whether one of these events changed the unit.
fn has_moved(
    taken: Intake,
    started: UnitAnswer,
    ran: UnitAnswer,
    interrupted: UnitAnswer,
    delivery: Delivery,
) -> bool
    ensures { result ≡ false ↔ IsQuiet taken started ran interrupted delivery }
{
    matches!(taken, Intake::Took(_))
        || !changed_nothing(started)
        || !changed_nothing(ran)
        || !changed_nothing(interrupted)
        || matches!(delivery, Delivery::Delivered(_))
}

/// Whether a step changed nothing.
fn changed_nothing(answer: UnitAnswer) -> bool
    ensures { result ≡ changed_nothing answer }
{
    matches!(
        answer,
        UnitAnswer::Started(Starting::Busy | Starting::Idle)
            | UnitAnswer::Ran(Running::Quiet)
            | UnitAnswer::Interrupted(Interruption::Quiet)
    )
}

/// How many commands a step did.
fn commands_done(answer: UnitAnswer) -> u32
    ensures { result ≡ commands_done answer }
{
    match answer {
        UnitAnswer::Ran(Running::Ran { commands, .. }) => commands,
        _ => 0,
    }
}

/// How many posts a delivery sent back.
fn posts_sent(delivery: Delivery) -> u64
    ensures value { result ≡ posts_sent delivery }
    ensures few { result ≤ 1 }
{
    match delivery {
        Delivery::Delivered(_) => 1,
        _ => 0,
    }
}
