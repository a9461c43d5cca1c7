//! `example_print_tape` copies a tape to a printer as an access method does, with no script. It has two buffers, and workers
//! serve both units. In the end it prints what is on the paper.
//!
//! Tests: crates/example_print_tape/stdout, the group refusals of tests/run.
#![tactic(auto)]

ghost use Rattle.std.specs.Prelude.{◌≡◌, true, IfOk};
ghost use Rattle.std.specs.List.{list_all};
ghost use Rattle.unit_book.specs.Trace.{is_opening};
ghost use Rattle.excp_system.specs.Opening.{AreBooks};

mod characters;
mod copy;

use any_device::AnyDevice;
use anyhow::Result;
use characters::Text;
use copy::{CopyTape, PRINTER};
use excp_system::Rows;
use line_printer::Printer;
use std::alloc::Global;
use std::io::Write;
use system_threads::{Workers, run_program};
use tape_unit::{InitialItem, Tape};
use unit_book::{ProcessingMethod, UnitBook};

/// The blocks of the tape, in EBCDIC; the file `stdout` of this crate has them as they are printed.
static BLOCKS: [&[u8]; 3] = [
    b"\xC3\xD6\xC2\xC1\xD3\xE3\xC6\xC5\xD9\xD9\xC5\xE3",
    b"\xE7",
    b"\xF0\xF1\xF2\xF3\xF4\xF5\xF6\xF7\xF8\xF9",
];

fn main(rt: HostRuntime) -> Result<()> {
    let alloc = rt.alloc();
    // a task and two units; room for both buffers at each unit, and for their posts
    let rows = Rows::new(alloc, 1, 2, 2, 2)?;
    let workers = Workers {
        channels: 2,
        handlers: 1,
    };
    let (report, outcomes) = run_program(&rt, alloc, rows, books(alloc)?, workers, &CopyTape)?;
    // what was printed is shown also where the task has ended before the tape
    write_paper(&mut rt.stdout(), report.units())?;
    for outcome in outcomes {
        outcome?;
    }
    Ok(())
}

/// The books of the tape and of the printer, in order of their numbers.
fn books(alloc: Global) -> Result<Vec<UnitBook<AnyDevice>>>
    ensures { IfOk result (λ books. AreBooks 2 books.items) }
{
    let mut items = Vec::new(alloc);
    for block in BLOCKS {
        items.push(InitialItem::Block(block.to_vec(alloc)?))?;
    }
    items.push(InitialItem::Mark)?;
    let tape = Tape::mount(alloc, &items, 1024, &[])?;
    let printer = Printer::mount(alloc, 100, 2, &[])?;
    let mut books = Vec::with_capacity(alloc, 2)?;
    books.push_reserved(book(alloc, AnyDevice::Tape(tape))?);
    books.push_reserved(book(alloc, AnyDevice::Printer(printer))?);
    Ok(books)
}

/// The book of a unit on subclass 0 with room for two requests, and with DCB 1.
fn book(alloc: Global, device: AnyDevice) -> Result<UnitBook<AnyDevice>>
    ensures { IfOk result (λ book. list_all is_opening book.trace ≡ true) }
{
    let mut book = UnitBook::new(alloc, device, 0, 2)?;
    book.open(ProcessingMethod::Output, &[])?;
    Ok(book)
}

/// Writes the printed lines of the printer among these units, each behind its page and line.
fn write_paper<W: Write>(out: &mut W, units: &[UnitBook<AnyDevice>]) -> Result<()> {
    let unit = units.get(usize::from(PRINTER)).map(|book| book.device());
    let Some(AnyDevice::Printer(printer)) = unit else {
        anyhow::bail!("unit {PRINTER} is no printer");
    };
    for line in printer.printed() {
        let (at, text) = (line.position(), Text(line.bytes()));
        writeln!(out, "page {} line {:2} |{text}", at.page, at.line)?;
    }
    Ok(())
}
