//! Extents, read from bytes.

ghost use Rattle.std.specs.Prelude.{◌≡◌, ◌≢◌, ◌%◌, IfErr, IfOk, OnOk, length};
ghost use Rattle.excp_site.specs.Extents.{extents_in};
ghost use Rattle.excp_site.specs.Refusals.{ExtentsRefused};

use crate::refusal::Refusal;
use io_images::Extent;
use std::alloc::Global;

/// How many bytes an extent has.
const EXTENT: usize = 16;

/// The extents that these bytes are, sixteen for each, as in a DEB (DFSMSdfp Advanced Services, "Data Extent Block Fields").
///
/// Errors: `BadExtent` if the number of bytes is no multiple of 16; `NoMemory`.
pub fn extents(alloc: Global, bytes: &[u8]) -> Result<Vec<Extent>, Refusal>
    ensures ok { IfOk result (λ v. v.items ≡ extents_in bytes.now) }
    ensures whole { OnOk result (length bytes.now % 16 ≡ 0) }
    ensures refused { IfErr result (ExtentsRefused bytes.now) }
{
    if bytes.len() % EXTENT != 0 {
        return Err(Refusal::BadExtent);
    }
    let mut extents = Vec::new(alloc);
    for place in 0..bytes.len() / EXTENT {
        let mut image = [0; EXTENT];
        image.copy_from_slice(&bytes[EXTENT * place..EXTENT * (place + 1)]);
        extents.push(Extent::read(&image))?;
    }
    Ok(extents)
}
