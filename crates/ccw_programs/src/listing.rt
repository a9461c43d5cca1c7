//! What a channel program would do next, listed without doing it.

ghost use Rattle.std.specs.Prelude.{◌≡◌};
ghost use Rattle.ccw_programs.specs.Listings.{Lists};

use crate::areas::data_areas;
use crate::context::{Context, State};
use crate::ending::command_code;
use crate::fetch::{Link, fetch_on};
use crate::rule::FailedCcw;
use crate::workspace::Workspace;
use device_port::{Device, Flow, Segment};
use io_area::Area;

/// The next command of a program (chapter 15, "Channel-Command Word").
///
/// If all of it can be fetched and has its data area, `links` are its CCWs, `flow` is the direction of its data, and
/// `parts` are the parts of its data in storage. If a CCW cannot be fetched, `links` are those before it. If the data
/// area of one fails, `links` are the whole chain, without parts. `refusal` is the CCW that fails, with its rule.
#[derive(Drop)]
pub struct Listing<'w> {
    pub links: &'w [Link],
    pub flow: Option<Flow>,
    pub parts: &'w [Segment],
    pub refusal: Option<FailedCcw>,
}

/// Tells what a program that runs is to do next, put together in the workspace. Takes no memory.
pub fn look<'w, D: Device>(
    context: &Context,
    device: &D,
    area: &Area,
    workspace: &'w mut Workspace,
) -> Listing<'w>
    requires { context.now.state ≡ State.Running }
    ensures { Lists D.meaning device.now area.now context.now result.links.now result.flow result.parts.now result.refusal }
{
    let Workspace { links, parts } = workspace;
    links.clear();
    parts.clear();
    let fetches = context.fetched();
    if let Err(refusal) = fetch_on(area, context.next(), fetches != 0, fetches, links) {
        return Listing {
            links: links.as_slice(),
            flow: None,
            parts: &[],
            refusal: Some(refusal),
        };
    }
    let links = links.as_slice();
    let flow = device.flow(command_code(links));
    let refusal = data_areas(flow, area, links, parts).err();
    if refusal.is_some() {
        parts.clear();
    }
    Listing {
        links,
        flow: Some(flow),
        parts: parts.as_slice(),
        refusal,
    }
}
