//! What C sees of the answer of a unit: `excp_answer` of c/excp.h.

ghost use Rattle.std.specs.Prelude.{◌≡◌};
ghost use Rattle.excp_c.specs.Answers.{answer_in_c, naming, number_named, of_answer, of_controlling, of_delivery, of_intake, of_interruption, of_running, of_starting, plain_event};

use excp_site::Site;
use request_piece::Name;
use unit_book::{
    Closing, Controlling, Delivery, Intake, Interruption, Purging, Running, Starting, UnitAnswer,
};

/// `excp_answer`.
#[repr(C)]
#[derive(Clone, Copy)]
pub struct Answer {
    pub number: u64,
    pub commands: u32,
    pub task: u16,
    pub kind: u8,
    pub code: u8,
}

/// What an event did, before the request that it names has a number.
#[derive(Clone, Copy)]
pub struct Event {
    /// An `excp_answer_kind`.
    pub kind: u8,
    pub name: Option<Name>,
    /// How many commands were done.
    pub commands: u32,
    /// The completion code of an end.
    pub code: u8,
}

impl Event {
    /// An event that names no request.
    fn plain(kind: u8) -> Event
        ensures { result ≡ plain_event kind }
    {
        Event {
            kind,
            name: None,
            commands: 0,
            code: 0,
        }
    }

    /// One that names this request.
    fn naming(kind: u8, name: Name) -> Event
        ensures { result ≡ naming kind name }
    {
        Event {
            kind,
            name: Some(name),
            commands: 0,
            code: 0,
        }
    }

    /// The answer for an event of a unit.
    pub(crate) fn answer(self, site: &Site, unit: u16) -> Answer
        ensures { result ≡ answer_in_c site.now unit self }
    {
        let (number, task) = match self.name {
            Some(name) => (site.number(unit, name), name.task),
            None => (0, 0),
        };
        Answer {
            number,
            commands: self.commands,
            task,
            kind: self.kind,
            code: self.code,
        }
    }
}

impl From<Intake> for Event {
    ghost from_gives = { λ answer event. event ≡ of_intake answer };

    fn from(answer: Intake) -> Event {
        match answer {
            Intake::Quiet => Event::plain(0),
            Intake::Held => Event::plain(1),
            Intake::Took(name) => Event::naming(2, name),
        }
    }
}

impl From<UnitAnswer> for Event {
    ghost from_gives = { λ answer event. event ≡ of_answer answer };

    fn from(answer: UnitAnswer) -> Event {
        match answer {
            UnitAnswer::Started(answer) => of_starting(answer),
            UnitAnswer::Ran(answer) => of_running(answer),
            UnitAnswer::Interrupted(answer) => of_interruption(answer),
            UnitAnswer::Controlled(answer) => of_controlling(answer),
        }
    }
}

impl From<Delivery> for Event {
    ghost from_gives = { λ answer event. event ≡ of_delivery answer };

    fn from(answer: Delivery) -> Event {
        match answer {
            Delivery::Quiet => Event::plain(0),
            Delivery::Delivered(name) => Event::naming(11, name),
            Delivery::Full(name) => Event::naming(12, name),
        }
    }
}

/// What a start did.
fn of_starting(answer: Starting) -> Event
    ensures { result ≡ of_starting answer }
{
    match answer {
        Starting::Busy => Event::plain(3),
        Starting::Idle => Event::plain(4),
        Starting::Started(name) => Event::naming(5, name),
        Starting::Violated(name) => Event::naming(6, name),
    }
}

/// What a run did.
fn of_running(answer: Running) -> Event
    ensures { result ≡ of_running answer }
{
    match answer {
        Running::Quiet => Event::plain(0),
        Running::Ran { commands, pending } => Event {
            commands,
            ..Event::plain(if pending { 8 } else { 7 })
        },
    }
}

/// What an interruption did.
fn of_interruption(answer: Interruption) -> Event
    ensures { result ≡ of_interruption answer }
{
    match answer {
        Interruption::Quiet => Event::plain(0),
        Interruption::Again(name) => Event::naming(9, name),
        Interruption::Ended(name, code) => Event {
            code: code.byte(),
            ..Event::naming(10, name)
        },
    }
}

/// What a control did. C is not shown that of a reset.
fn of_controlling(answer: Controlling) -> Event
    ensures { result ≡ of_controlling answer }
{
    match answer {
        Controlling::Purged(Purging::Quiet) | Controlling::Reset => Event::plain(0),
        Controlling::Purged(Purging::Active(name)) => Event::naming(13, name),
        Controlling::Closed(Closing::Closed) => Event::plain(14),
        Controlling::Closed(Closing::Closing(name)) => Event::naming(15, name),
    }
}
