//! Requests over storage that is shared, and in storage that is used again, where memory may run out.

use crate::fixtures::TWICE;
use io_area::Area;
use io_images::{Code, Csw};
use request_piece::{Name, Posted, Request, RequestError};
use std::alloc::Global;
use std::sync::Arc;
use std::test::Fail;

const NAME: Name = Name { task: 3, seq: 1 };

/// An area at X'1000' with an unrelated IOB, its ECB at X'1028' and its channel program at X'1030'.
fn fixture() -> [u8; 104] {
    let mut bytes = [0; 104];
    bytes[..8].copy_from_slice(&[0x02, 0, 0, 0, 0, 0x00, 0x10, 0x28]);
    bytes[16..24].copy_from_slice(&[0, 0x00, 0x10, 0x30, 0, 0, 0, 1]);
    bytes[32..40].copy_from_slice(&[1, 0, 0, 0, 2, 0, 3, 4]);
    bytes[48..56].copy_from_slice(&[0x31, 0x00, 0x10, 0x50, 0x40, 0, 0, 5]);
    bytes
}

/// A request over storage that is shared holds that storage, and no copy of it, as issued: it refuses a `Request::over`
/// that copies.
#[test]
fn request_shares_what_it_is_made_over(rt: HostRuntime) -> Result<(), Fail> {
    let area = Area::new(rt.alloc(), 0x1000, &fixture()).map_err(|_| "no area")?;
    let area = Arc::new(rt.alloc(), area)?;
    let request = Request::over(rt.alloc(), NAME, 7, 1, 0x1000, &area)?;
    assert!(rt; Arc::strong_count(&area) == 2);
    let (issued, _) = request.into_parts();
    assert!(rt; Arc::strong_count(&area) == 2);
    assert!(rt; issued.area().get(0x1000, 104) == Some(fixture().as_slice()));
    Ok(())
}

/// The post of a request.
fn posted(request: Request) -> Posted {
    let (_, work) = request.into_parts();
    Posted::new(work, Code::Ended, Csw::default(), 0)
}

/// The post of a request over an area of these bytes, which works in the storage of one that has ended, over a shorter
/// area; and the area.
fn posted_again(alloc: Global, bytes: &[u8]) -> Result<(Posted, Arc<Area, Global>), RequestError> {
    let no_memory = RequestError::NoMemory;
    let shorter = Area::new(alloc, 0x1000, &fixture()).or(Err(no_memory))?;
    let shorter = Arc::new(alloc, shorter).or(Err(no_memory))?;
    let area = Area::new(alloc, 0x1000, bytes).or(Err(no_memory))?;
    let area = Arc::new(alloc, area).or(Err(no_memory))?;
    let first = Request::over(alloc, NAME, 7, 1, 0x1000, &shorter)?;
    let again = Request::over_again(posted(first), NAME, 7, 1, 0x1000, &area);
    let second = again.map_err(|refused| refused.0)?;
    Ok((posted(second), area))
}

/// A request in the storage of one that has ended takes no memory if the areas are of one length. It has nothing of
/// what the post wrote. Run it with each allocation made to fail in turn.
#[test]
fn over_again_without_memory(rt: HostRuntime) -> Result<(), Fail> {
    let mut bytes = [0; 112];
    bytes[..104].copy_from_slice(&fixture());
    let (ended, area) = match posted_again(rt.alloc(), &bytes) {
        Err(RequestError::NoMemory) => posted_again(rt.alloc(), &bytes).or(Err(TWICE))?,
        made => made?,
    };
    assert!(rt; ended.area().get(0x1000, 112) != Some(bytes.as_slice()));
    let name = Name { task: 3, seq: 2 };
    let again = Request::over_again(ended, name, 7, 1, 0x1000, &area).or(Err("takes memory"))?;
    assert!(rt; Arc::strong_count(&area) == 2);
    let (issued, work) = again.into_parts();
    assert!(rt; issued.name() == name && work.name == name);
    assert_eq!(rt; issued.area().get(0x1000, 112), Some(bytes.as_slice()));
    assert_eq!(rt; work.area.get(0x1000, 112), Some(bytes.as_slice()));
    Ok(())
}
