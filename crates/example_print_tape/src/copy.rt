//! The task: while a block is printed from one buffer, the next is read into the other.

ghost use Rattle.std.specs.Prelude.{◌≡◌, ◌<◌, ◌≤◌, ⊤};

use any_device::AnyDevice;
use anyhow::{Result, bail, ensure};
use excp_system::{Opened, Site, System};
use io_area::Area;
use io_images::{Address, Ccw, CcwFlags, Code, Iob, UnitStatus};
use std::alloc::Global;
use std::sync::{Arc, Wait};
use system_threads::{Alarm, Client, TaskProgram};

pub const TAPE: u16 = 0;

pub const PRINTER: u16 = 1;

/// The most bytes that are read: one more than a line has, so that a block that does not fit it shows.
const MOST: u16 = 133;

/// Prints the blocks of the tape up to its mark. All requests are related, so the error at the mark also dooms the
/// read that waits after it.
pub struct CopyTape;

impl TaskProgram<AnyDevice> for CopyTape {
    type Outcome = Result<()>;

    ghost units = { λ _. 2 };

    ghost runs = { λ _ old new outcome. ⊤ };

    fn run<S: Opened<AnyDevice>, R: Wait>(
        &self,
        rt: &R,
        alloc: Global,
        _: &System<'_, S, AnyDevice>,
        alarm: &Alarm,
        client: &mut Client<'_, S>,
    ) -> Result<()> {
        let buffer = Arc::new(alloc, new_buffer(alloc)?)?;
        for _ in 0..2 {
            read(rt, alloc, client, &buffer)?;
        }
        let mut at_mark = false;
        for _ in rt.forever() {
            let Some(posted) = client.next_post(rt, alarm)? else {
                break;
            };
            let csw = posted.csw();
            let is_mark = csw.unit == UnitStatus::EXCEPTION_END;
            match (posted.unit(), posted.code()) {
                (TAPE, Code::Ended) => {
                    ensure!(csw.residual > 0, "a block is longer than a line");
                    let count = MOST.saturating_sub(csw.residual).to_be_bytes();
                    let mut buffer = posted.into_area();
                    ensure!(buffer.put(iob_of(PRINTER) + 0x36, &count), "short buffer");
                    print(rt, alloc, client, buffer)?;
                }
                (TAPE, Code::PermanentError) if is_mark => at_mark = true,
                (TAPE, Code::Purged) | (PRINTER, Code::Ended) if at_mark => {}
                (PRINTER, Code::Ended) => read(rt, alloc, client, &buffer)?,
                (unit, code) => bail!("unit {unit} ended with code {:02X}", code.byte()),
            }
        }
        Ok(())
    }
}

/// Reads a block into a copy of the buffer, which comes with the post. All reads share the buffer as it is issued.
fn read<S: Site, R: Wait>(
    rt: &R,
    alloc: Global,
    client: &mut Client<'_, S>,
    buffer: &Arc<Area, Global>,
) -> Result<()>
    requires { TAPE < S.rows.units }
    ensures { client.new.number ≡ client.old.number }
{
    Ok(client.issue_over(rt, alloc, TAPE, 1, iob_of(TAPE), buffer)?)
}

/// Prints the block of a buffer, whose ECB for this request nobody has posted yet.
fn print<S: Site, R: Wait>(
    rt: &R,
    alloc: Global,
    client: &mut Client<'_, S>,
    buffer: Area,
) -> Result<()>
    requires { PRINTER < S.rows.units }
    ensures { client.new.number ≡ client.old.number }
{
    Ok(
        client
            .issue(rt, alloc, PRINTER, 1, iob_of(PRINTER), buffer)
            .map_err(|refused| refused.0)?,
    )
}

/// Where a buffer has the IOB of the request to a unit. Its ECB is at X'28' from there, its channel program at X'30'.
/// The block comes after both requests, at X'1080'.
fn iob_of(unit: u16) -> u32
    ensures { result ≤ 0x800000 }
{
    0x1000 + 0x40 * u32::from(unit)
}

/// A buffer, with a request that reads a block from the tape and one that prints it.
fn new_buffer(alloc: Global) -> Result<Area> {
    let mut buffer = Area::new(alloc, iob_of(TAPE), &[0; 0x80 + MOST as usize])?;
    for (unit, command) in [(TAPE, 0x02), (PRINTER, 0x09)] {
        let (at, mut iob_image, mut ccw_image) = (iob_of(unit), [0; 40], [0; 8]);
        let mut iob = Iob::read(&iob_image);
        iob.ecb = Address::new(at + 0x28);
        iob.start = Address::new(at + 0x30);
        iob.dcb = Address::new(1);
        iob.write(&mut iob_image);
        let ccw = Ccw {
            command,
            address: Address::new(0x1080),
            flags: CcwFlags::SUPPRESS_LENGTH,
            count: MOST,
        };
        ccw.write(&mut ccw_image);
        let fits = buffer.put(at, &iob_image) && buffer.put(at + 0x30, &ccw_image);
        ensure!(fits, "short buffer");
    }
    Ok(buffer)
}
