//! A purge of a task that has a request on each of two units: what it answers, what the traces tell of it, and how the
//! requests end. Scenarios have all that a purge meets (tests/cases/scenarios).

ghost use Rattle.std.specs.Prelude.{◌≡◌, ◌<◌, true};
ghost use Rattle.excp_system.specs.Opening.{AreBooks, AreFresh, site_of};

use super::*;
use request_piece::Scope;
use unit_book::{Entry, Mode, Purging};

/// Whether an entry tells of a purge of task 0 with this mode.
fn tells_of(entry: &Entry, mode: Mode) -> bool {
    match entry {
        Entry::Purge(scope, of) => *scope == Scope::Task(0) && *of == mode,
        _ => false,
    }
}

/// Whether a trace tells of a purge of task 0 with this mode.
fn is_told(trace: &[Entry], mode: Mode) -> bool {
    trace.iter().any(|entry| tells_of(entry, mode))
}

/// The task issues a request to each unit. The one of unit 0 is started, the one of unit 1 waits.
fn issue_both<S: Opened<Disk>, R: Wait + AllocGlobal>(
    rt: &R,
    system: &System<'_, S, Disk>,
    task: &mut Task<'_, S>,
) -> Result<Name, Fail>
    requires { S.rows.units ≡ 2 }
{
    let name = issue(rt, rt.alloc(), task, 0)?;
    issue(rt, rt.alloc(), task, 1)?;
    system.lock_of(1).lock(rt).take(rt)?;
    let mut unit = system.lock_of(0).lock(rt);
    unit.take(rt)?;
    unit.start()?;
    Ok(name)
}

/// Asserts that a unit answered as its trace tells, with this answer where it was purged. Its request is posted 48 if
/// it was purged, but for one that was active and is let end. Answers whether it was purged.
fn expect_at<S: Opened<Disk>, R: Wait + Abort>(
    rt: &R,
    system: &System<'_, S, Disk>,
    task: &mut Task<'_, S>,
    unit: u16,
    mode: Mode,
    answers: [Result<Purging, AllocError>; 2],
) -> Result<bool, Fail>
    requires { unit < S.rows.units }
{
    let [wanted, answer] = answers;
    let mut state = system.lock_of(unit).lock(rt);
    let is_told = is_told(state.book().trace(), mode);
    assert!(rt; answer == if is_told { wanted } else { Err(AllocError) });
    state.settle()?;
    state.deliver(rt);
    let value = task.take_post(rt).ok_or("no posted value")?;
    let is_purged = is_told && (mode == Mode::Halt || unit == 1);
    let code = if is_purged { Code::Purged } else { Code::Ended };
    assert!(rt; value.unit() == unit && value.code() == code);
    Ok(is_told)
}

/// Purges task 0, which has a request on each unit. Answers which units were purged.
fn steps<S: Opened<Disk>, R: Wait + Abort + AllocGlobal>(
    rt: &R,
    rows: &mut Rows,
    books: Vec<UnitBook<Disk>>,
    mode: Mode,
) -> Result<[bool; 2], Fail>
    requires site { S.rows ≡ site_of rows.old }
    requires fresh { AreFresh rows.old }
    requires books { AreBooks S.rows.units books.items }
    requires opened { S.opened ≡ books.items }
    requires two { S.rows.units ≡ 2 }
    requires own { S.own_calls ≡ true }
{
    let (system, mut tasks, _) = System::<S, Disk>::new(rt.alloc(), rows, books)?;
    let task = tasks.first_mut().ok_or("no task")?;
    let name = issue_both(rt, &system, task)?;
    let listed = system.purge_task(rt, 0, mode);
    let is_listed = listed.is_ok();
    let answers = match listed {
        Ok(answers) => [answers.get(0).copied(), answers.get(1).copied()],
        Err(AllocError) => [None, None],
    };
    let [first, second] = answers.map(|answer| answer.unwrap_or(Err(AllocError)));
    let active = [Ok(Purging::Active(name)), first];
    let first = expect_at(rt, &system, task, 0, mode, active)?;
    let second = expect_at(rt, &system, task, 1, mode, [Ok(Purging::Quiet), second])?;
    // one allocation fails at most, so a list has the purge of one unit at least
    assert!(rt; !is_listed || first || second);
    Ok([first, second])
}

/// Purges a task of a new system. Answers which units were purged.
fn purged<R: Wait + Abort + AllocGlobal>(rt: &R, mode: Mode) -> Result<[bool; 2], Fail> {
    let mut rows = Rows::new(rt.alloc(), 2, 2, 4, 4)?;
    let books = disks(rt.alloc(), 4)?;
    steps::<Brand, _>(rt, &mut rows, books, mode)
}

/// It rejects a purge that does nothing, purges another task, or has another mode.
#[test]
fn purge_of_a_task(rt: HostRuntime) -> Result<(), Fail> {
    for mode in [Mode::Halt, Mode::Quiesce] {
        assert_eq!(rt; purged(&rt, mode)?, [true, true]);
    }
    Ok(())
}

/// A unit without memory for the purge stays as it is, and the others go on. Without memory for the list no unit is
/// touched. If another call fails, it ends with that error. It prints if unit 0 was purged and unit 1 was not. Run it with
/// each allocation made to fail in turn.
#[test]
fn purge_of_a_task_without_memory(rt: HostRuntime) -> Result<(), Fail> {
    for mode in [Mode::Halt, Mode::Quiesce] {
        if purged(&rt, mode)? == [true, false] {
            println!(rt; "unit 1 has no memory for the purge")?;
        }
    }
    Ok(())
}
