//! Requests: what a program issues, as its IOB says, and what is posted back.
//!
//! Tests: test_system (`requests`).
#![tactic(auto)]

mod check;
mod error;
mod issued;
mod piece;
mod posted;
mod request;
mod scope;

pub use error::RequestError;
pub use issued::Issued;
pub use piece::{Name, Piece};
pub use posted::Posted;
pub use request::{Misplaced, Request, RequestRefusal};
pub use scope::Scope;
