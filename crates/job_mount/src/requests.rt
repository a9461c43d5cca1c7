//! The request of an EXCP: whether it can be made, and making it.

ghost use Rattle.std.specs.Prelude.{◌≡◌, IfOk};
ghost use Rattle.std.specs.Bool.{OnTrue};
ghost use Rattle.std.specs.Arc.{arc_value};
ghost use Rattle.request_piece.specs.Requests.{request_of};
ghost use Rattle.job_mount.specs.Requests.{CanBeDone, CanIssue, is_doable, is_issuable};
ghost use Rattle.job_script.specs.Views.{action_said, excp_said};

use job_script::{Action, Excp, ScriptCommand};
use request_piece::{Name, Posted, Request, RequestError};
use std::alloc::{AllocError, Global};

/// Whether a request can be made of the area of an EXCP, and the bytes that are shown lie in it.
pub fn can_issue(excp: &Excp) -> bool
    ensures value { result ≡ is_issuable (excp_said excp.now) }
    ensures facts { OnTrue result (CanIssue excp.now) }
{
    match Request::check(excp.dcb.number, excp.iob, &excp.area) {
        Ok(()) => excp.area.get(excp.show, excp.len as usize).is_some(),
        Err(_) => false,
    }
}

/// Whether the request of a command can be made, if it issues one.
pub(crate) fn can_be_done(command: &ScriptCommand) -> bool
    ensures value { result ≡ is_doable (action_said command.now.action) }
    ensures facts { OnTrue result (CanBeDone command.now) }
{
    match &command.action {
        Action::Excp(excp) => can_issue(excp),
        _ => true,
    }
}

/// The request of an EXCP, with this name, on a copy of its area. If a request that has ended is given, the copy is in its
/// storage, as [`Request::over_again`].
///
/// Error: out of memory. What has ended is dropped then.
pub fn request(
    alloc: Global,
    excp: &Excp,
    name: Name,
    ended: Option<Posted>,
) -> Result<Request, AllocError>
    requires { CanIssue excp.now }
    ensures { IfOk result (λ request. request ≡ request_of name excp.now.dcb.unit excp.now.dcb.number excp.now.iob (arc_value excp.now.area)) }
{
    let unit = excp.dcb.unit;
    let dcb = excp.dcb.number;
    let made = match ended {
        Some(posted) => {
            Request::over_again(posted, name, unit, dcb, excp.iob, &excp.area).map_err(|e| e.0)
        }
        None => Request::over(alloc, name, unit, dcb, excp.iob, &excp.area),
    };
    match made {
        Ok(request) => Ok(request),
        Err(RequestError::NoMemory) => Err(AllocError),
        Err(_) => unreachable!(),
    }
}
