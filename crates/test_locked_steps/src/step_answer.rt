//! What steps answer.

use request_piece::{Name, Posted};
use unit_book::{Closing, Delivery, Intake, Interruption, OpenError, Purging, Running, Starting};

/// What became of an EXCP.
#[derive(Clone, Copy)]
pub(crate) enum Issuing {
    /// The request is on its way to its unit, under this name.
    Accepted(Name),
    /// No more requests can be on their way to the unit. The request gets no number.
    Full,
    /// The task has used its last number for the unit.
    NoNumber,
}

/// What a step answers: what its call answers.
#[derive(Drop)]
pub(crate) enum StepAnswer {
    /// No call was made: there is no such unit, request or opening, or a run was to do no command.
    None,
    Pushed(Issuing),
    Taken(Intake),
    Started(Starting),
    Ran(Running),
    Interrupted(Interruption),
    Delivered(Delivery),
    /// The next post of the task, if there was one.
    Collected(Option<Posted>),
    Settled,
    Purged(Purging),
    Closed(Closing),
    Reset,
    /// A purge or a close of a DCB that was never opened.
    NoSuchDcb,
    /// A reset of a DCB that is not open, which is passed over.
    NotOpen,
    Passed,
    /// This DCB was opened.
    Opened(u16),
    /// The DCB was not opened, for another reason than memory.
    NotOpened(OpenError),
}

impl StepAnswer {
    /// Whether the step was made. If not, nothing changed.
    pub(crate) fn is_made(&self) -> bool {
        match self {
            StepAnswer::None
            | StepAnswer::Pushed(Issuing::Full | Issuing::NoNumber)
            | StepAnswer::Taken(Intake::Held | Intake::Quiet)
            | StepAnswer::Started(Starting::Busy | Starting::Idle)
            | StepAnswer::Ran(Running::Quiet)
            | StepAnswer::Interrupted(Interruption::Quiet)
            | StepAnswer::Delivered(Delivery::Full(_) | Delivery::Quiet)
            | StepAnswer::Collected(None)
            | StepAnswer::NoSuchDcb => false,
            _ => true,
        }
    }
}
