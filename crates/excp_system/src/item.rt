//! What the rows of a system carry.

ghost use Rattle.std.specs.Prelude.{◌≡◌};

use fifo_row::RowItem;
use request_piece::{Posted, Request};
use std::marker::Model;

/// A request on its way to a unit.
#[derive(Drop)]
pub struct Sent {
    request: Request,
}

/// What a request was posted with, on its way back to its task.
#[derive(Drop)]
pub struct Returned {
    value: Posted,
}

/// A unit whose status is pending.
#[derive(Drop)]
pub struct Notice {
    pub unit: u16,
}

impl Model for Sent {
    ghost use Rattle.request_piece.specs.declared.piece.Piece.{Piece};

    ghost Value = { Piece };

    ghost view = { λ s. s.request };
}

impl Sent {
    pub(crate) fn new(request: Request) -> Sent
        ensures { result ≡ request }
    {
        Sent { request }
    }

    /// The request.
    pub(crate) fn into_request(self) -> Request
        ensures { result ≡ self }
    {
        self.request
    }
}

impl Model for Returned {
    ghost use Rattle.request_piece.specs.PostedState.{PostedState};

    ghost Value = { PostedState };

    ghost view = { λ r. r.value };
}

impl Returned {
    pub(crate) fn new(value: Posted) -> Returned
        ensures { result ≡ value }
    {
        Returned { value }
    }

    /// The posted value.
    pub(crate) fn into_posted(self) -> Posted
        ensures { result ≡ self }
    {
        self.value
    }
}

impl RowItem for Sent {
    ghost use Rattle.excp_system.specs.Sites.{RequestFact, task_of};

    ghost from = { task_of };

    ghost fact = { RequestFact };

    fn sender(&self) -> u16 {
        self.request.name().task
    }
}

impl RowItem for Returned {
    ghost use Rattle.excp_system.specs.Sites.{NoFact, unit_of};

    ghost from = { unit_of };

    ghost fact = { NoFact };

    fn sender(&self) -> u16 {
        self.value.unit()
    }
}

impl RowItem for Notice {
    ghost use Rattle.excp_system.specs.Sites.{NoFact, notifier_of};

    ghost from = { notifier_of };

    ghost fact = { NoFact };

    fn sender(&self) -> u16 {
        self.unit
    }
}
