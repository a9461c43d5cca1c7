//! A run that ends with requests on their way, and with one that awaits its restart, where memory may run out.

ghost use Rattle.std.specs.Prelude.{◌≡◌, ◌<◌, IfOk};
ghost use Rattle.excp_system.specs.Drained.{ArePlaced};
ghost use Rattle.excp_system.specs.Opening.{AreBooks, AreFresh, site_of};
ghost use Rattle.post_ledger.specs.Report.{IsFor};

use super::*;
use crate::fixtures::{READ_RECORD, fault, faulty_disks, is_undisturbed, issue_over};

/// What the first request to each unit writes over the record of its disk. The others read it.
const WRITTEN: [u8; 2] = [0xD0, 0xE1];

/// How many requests the task issues, by turns to units 0 and 1.
const ISSUED: u16 = 5;

/// What the report lists for the task at each unit: a run that purged what is left would list code 48.
const LISTED: [&[(u32, Code, u8)]; 2] = [
    &[
        (1, Code::Ended, 0xD0),
        (2, Code::Ended, 0xD0),
        (3, Code::Ended, 0xD0),
    ],
    &[(1, Code::Ended, 0xE1), (2, Code::Ended, 0xE1)],
];

/// The request with this place among all, counted from 0.
fn image_at(place: u16) -> [u8; 104] {
    let mut image = READ_RECORD;
    if place < 2 {
        image[64] = 0x05;
        image[96] = WRITTEN[usize::from(place)];
    }
    image
}

/// The task issues its requests.
fn issue_all<S: Site, R: Wait>(
    rt: &R,
    alloc: Global,
    tasks: &mut Vec<Task<'_, S>>,
) -> Result<(), AllocError>
    requires tasks { ArePlaced (λ task. task.number) S.rows.tasks tasks.old.items }
    requires one { S.rows.tasks ≡ 1 }
    requires units { S.rows.units ≡ 2 }
    ensures { ArePlaced (λ task. task.number) S.rows.tasks tasks.new.items }
{
    for place in 0..ISSUED {
        let task = &mut tasks[0];
        issue_over(rt, alloc, task, place % 2, &image_at(place))?;
    }
    Ok(())
}

/// Two requests arrive at unit 0, and the first one, which meets a fault, comes to await its restart.
fn serve<S: Opened<Disk>, R: Wait>(rt: &R, system: &System<'_, S, Disk>) -> Result<(), AllocError>
    requires { 0 < S.rows.units }
{
    let mut unit = system.lock_of(0).lock(rt);
    unit.take(rt)?;
    unit.take(rt)?;
    unit.start()?;
    unit.run(rt, 16)?;
    unit.interrupt()?;
    Ok(())
}

/// The report of a run, resumed where there is no memory for its end, at most three times; and how often it was.
fn resumed<'r, S: Opened<Disk>, R: Wait + Abort>(
    rt: &R,
    alloc: Global,
    system: System<'r, S, Disk>,
    tasks: Vec<Task<'r, S>>,
) -> Result<(Report<Disk>, u32), AllocError>
    requires tasks { ArePlaced (λ task. task.number) S.rows.tasks tasks.items }
    requires one { S.rows.tasks ≡ 1 }
    requires units { S.rows.units ≡ 2 }
    ensures { IfOk result (λ ended. IsFor 2 1 ended.0) }
{
    let mut left = match finish(rt, alloc, system, tasks) {
        Ok(report) => return Ok((report, 0)),
        Err(left) => left,
    };
    // at most two growths fail
    for times in 1..4 {
        assert_eq!(rt; left.cause(), Cause::NoMemory);
        left = match left.resume(rt) {
            Ok(report) => return Ok((report, times)),
            Err(left) => left,
        };
    }
    assert!(rt; false, "not brought to its end");
    Err(AllocError)
}

/// The report of a run that ends after its unit has begun to serve the requests of its task; and how often it was resumed.
fn ended<S: Opened<Disk>, R: Wait + Abort>(
    rt: &R,
    alloc: Global,
    rows: &mut Rows,
    books: Vec<UnitBook<Disk>>,
) -> Result<(Report<Disk>, u32), AllocError>
    requires site { S.rows ≡ site_of rows.old }
    requires fresh { AreFresh rows.old }
    requires books { AreBooks S.rows.units books.items }
    requires opened { S.opened ≡ books.items }
    requires tasks { S.rows.tasks ≡ 1 }
    requires units { S.rows.units ≡ 2 }
    ensures { IfOk result (λ ended. IsFor 2 1 ended.0) }
{
    let (system, mut tasks, _) = System::<S, Disk>::new(alloc, rows, books)?;
    issue_all(rt, alloc, &mut tasks)?;
    serve(rt, &system)?;
    resumed(rt, alloc, system, tasks)
}

/// Brings a run to its end, and returns how often it was resumed. Its report lists all requests, and no purge, close or
/// reset. Each unit's own disk has what was written to it.
fn expect_ended<R: Wait + Abort + AllocGlobal>(rt: &R) -> Result<u32, AllocError> {
    let alloc = rt.alloc();
    let mut rows = Rows::new(alloc, 1, 2, 4, 4)?;
    let books = faulty_disks(alloc, &[fault(1, 0x1000)], 4)?;
    let (report, times) = ended::<Brand, _>(rt, alloc, &mut rows, books)?;
    for unit in 0..2 {
        let found = listed(alloc, &report, unit)?;
        assert!(rt;
            found.as_slice() == LISTED[usize::from(unit)],
            "unit {unit}"
        );
    }
    let (books, lists) = report.into_parts();
    for (book, data) in books.iter().zip(WRITTEN) {
        let record = book.device().records(0, 0).last();
        let is_written = record.is_some_and(|it| it.content() == [data, 0, 0, 0].as_slice());
        assert!(rt; is_written && is_undisturbed(book.trace()));
    }
    for posts in lists {
        assert_eq!(rt; posts.into_units().len(), 2);
    }
    Ok(times)
}

/// A run that ends while a request awaits its restart, one waits, and one is on its way: run it with each allocation
/// made to fail in turn, and with each two. It rejects the mutants of finish_does_not_purge.
#[test]
fn finish_without_memory(rt: HostRuntime) -> Result<(), Fail> {
    let times = expect_ended(&rt)?;
    if times > 0 {
        println!(rt; "resumed {times}")?;
    }
    Ok(())
}
