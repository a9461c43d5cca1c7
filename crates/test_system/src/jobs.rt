//! Runs of scripts that need more than a script and what it prints. Runs on rows and books of one. Runs whose tasks wait for
//! their posts or do not. Runs in which a worker ran out of memory, for some turns or for good.

ghost use Rattle.std.specs.Prelude.{◌≡◌, ◌≤◌, All, IfOk, vec_len};
ghost use Rattle.excp_system.specs.Opening.{AreBooks, AreFresh, site_of};
ghost use Rattle.job_mount.specs.Requests.{CanBeDone};

mod late_posts;

use any_device::AnyDevice;
use excp_system::{Gate, IscTaker, Opened, Point, Rows, Site, System};
use job_mount::books;
use job_run::{ScriptTasks, TaskEnd, TaskError, ended, write};
use job_script::{JobError, Script};
use late_posts::LatePosts;
use request_piece::Name;
use std::alloc::{AllocError, Global};
use std::marker::Brand;
use std::sync::Wait;
use std::sync::atomic::{AtomicUsize, Ordering};
use std::test::Fail;
use std::thread::Threads;
use system_threads::{
    Alarm, Crew, LASTING_TURNS, PartsRoom, Workers, parted, run_beside, run_program, runners,
};
use unit_book::{Entry, UnitBook};

/// Two tasks, and two disks of a track, each with DCB 1.
const SET_UP: &str = "tasks 2
disk 0 3 1 1 40
disk 1 6 1 1 40
open 0 out 18000000000000000000000000000001
open 1 out 18000000000000000000000000000001
";

/// Unrelated IOBs; the program of area 0 is a no-operation, that of area 1 a seek to head 256.
const AREAS: &str =
    "area 0 001000 4200000000001028 0000000000000000 0000103000000001 0000000000000000 0000000000000001 0000000000000000 0300000020000001
area 1 002000 4200000000002028 0000000000000000 0000203000000001 0000000000000000 0000000000000001 0000000000000000 0700203800000006 0000000001000000
";

/// Each task issues three requests to each unit, and shows their ECBs.
const EXCPS: &str = "excp 0 0 1 001000 0 001028 4
excp 0 1 1 001000 0 001028 4
excp 1 0 1 002000 1 002028 4
excp 1 1 1 002000 1 002028 4
excp 0 0 1 001000 0 001028 4
excp 0 1 1 002000 1 002028 4
excp 1 0 1 001000 0 001028 4
excp 1 1 1 002000 1 002028 4
excp 0 0 1 002000 1 002028 4
excp 0 1 1 001000 0 001028 4
excp 1 0 1 001000 0 001028 4
excp 1 1 1 002000 1 002028 4
";

const POSTS: &str = "post 0 0 1 7F 001038 0C00 0001 0000 7F000000
post 0 0 2 7F 001038 0C00 0001 0000 7F000000
post 0 0 3 41 002038 0E00 0006 0004 41000000
post 0 1 1 7F 001038 0C00 0001 0000 7F000000
post 0 1 2 41 002038 0E00 0006 0004 41000000
post 0 1 3 7F 001038 0C00 0001 0000 7F000000
post 1 0 1 41 002038 0E00 0006 0004 41000000
post 1 0 2 7F 001038 0C00 0001 0000 7F000000
post 1 0 3 7F 001038 0C00 0001 0000 7F000000
post 1 1 1 41 002038 0E00 0006 0004 41000000
post 1 1 2 41 002038 0E00 0006 0004 41000000
post 1 1 3 41 002038 0E00 0006 0004 41000000
end 12
";

/// A worker runs out of memory once it has passed the gate so often before such a call: the tasks sleep by then.
const LATE: usize = 5000;

/// How a run goes.
#[derive(Clone, Copy)]
enum Way {
    /// Until its tasks have ended.
    Tasks,
    /// Until its tasks have ended. A worker runs out of memory in turns on unit 0, but in too few of them in a row to end
    /// the run.
    Brief,
    /// Until its tasks have ended. No handler takes a status, so that nothing is posted, and from some time on a worker
    /// runs out of memory before each such call on unit 0.
    Late(Point),
    /// Until its tasks have ended. No handler takes a status, and a worker ran out of memory for good before they began.
    Raised,
    /// Until its tasks have ended, without a worker. One ran out of memory for good before they began.
    Alone,
}

impl Way {
    /// Before which calls a worker runs out of memory.
    fn point(self) -> Option<Point> {
        match self {
            Way::Brief => Some(Point::Take),
            Way::Late(point) => Some(point),
            _ => None,
        }
    }

    /// Whether a worker has memory for this call, after `others` others.
    fn has_memory(self, others: usize) -> bool {
        match self {
            Way::Brief => others % 2 == 0,
            _ => others < LATE,
        }
    }

    /// In how many turns on unit 0 a worker ran out of memory before the tasks began.
    fn turns_before(self) -> u32 {
        match self {
            Way::Brief => LASTING_TURNS - 1,
            Way::Raised | Way::Alone => LASTING_TURNS,
            _ => 0,
        }
    }
}

/// The gate of a run in which a worker runs out of memory before such a call, if any.
#[derive(Drop)]
struct Drill<'a> {
    alarm: &'a Alarm,
    way: Way,
    passed: AtomicUsize,
}

impl<'a> Drill<'a> {
    fn new(alarm: &'a Alarm, way: Way) -> Drill<'a> {
        Drill {
            alarm,
            way,
            passed: AtomicUsize::new(0),
        }
    }
}

impl<'a> Gate for Drill<'a> {
    fn pass(&self, unit: u16, point: Point) {
        self.alarm.pass(unit, point);
        if unit == 0 && self.way.point() == Some(point) {
            let others = self.passed.fetch_add(1, Ordering::SeqCst);
            if !self.way.has_memory(others) {
                self.alarm.lack_memory(unit, point);
            }
        }
    }

    fn lack_memory(&self, unit: u16, point: Point) {
        self.alarm.lack_memory(unit, point);
    }

    fn delivered(&self, request: Name) {
        self.alarm.delivered(request);
    }

    fn row_is_full(&self, request: Name) {
        self.alarm.row_is_full(request);
    }
}

/// Whether a script on these rows and books prints its posts. Its tasks sleep for this many of them at their end, or do not wait if
/// it is 0.
fn late<R: Threads + Wait + Sync + AllocGlobal>(
    rt: &R,
    rows: Rows,
    books: Vec<UnitBook<AnyDevice>>,
    script: &Script,
    posts: u16,
) -> Result<bool, JobError>
    requires fresh { AreFresh rows }
    requires books { AreBooks rows.units books.items }
    requires units { vec_len script.now.set_up.units ≡ rows.units }
    requires few { (rows.units ≤ 64) × (rows.tasks ≤ 64) }
    requires requests { All CanBeDone script.now.commands.items }
{
    let alloc = rt.alloc();
    let program = LatePosts::new(script, posts);
    let done = run_program(rt, alloc, rows, books, two_of_each(), &program);
    let Ok((report, outcomes)) = done else {
        return Err(JobError::NoMemory);
    };
    let run = ended(alloc, report, outcomes)?;
    prints_posts(alloc, script, &run.tasks)
}

/// How many tasks of a script on these rows and books ran out of memory, and how many of their requests the traces tell of.
fn tasks_alone<S: Opened<AnyDevice> + Send + Sync, R: Threads + Wait + Sync + AllocGlobal>(
    rt: &R,
    rows: &mut Rows,
    books: Vec<UnitBook<AnyDevice>>,
    script: &Script,
    way: Way,
) -> Result<(usize, usize), JobError>
    requires site { S.rows ≡ site_of rows.old }
    requires fresh { AreFresh rows.old }
    requires books { AreBooks S.rows.units books.items }
    requires opened { S.opened ≡ books.items }
    requires units { vec_len script.now.set_up.units ≡ S.rows.units }
    requires requests { All CanBeDone script.now.commands.items }
{
    let alloc = rt.alloc();
    let units = rows.units();
    let (system, tasks, takers) = System::<S, AnyDevice>::new(alloc, rows, books)?;
    let room = PartsRoom::new(alloc, tasks.len())?;
    let runners = runners(alloc, tasks)?;
    let alarm = Alarm::of(alloc, runners.as_slice())?;
    run_out(&alarm, way.turns_before());
    let gate = Drill::new(&alarm, way);
    let crew = crew_of(alloc, units, takers, way)?;
    let program: ScriptTasks<'_, ()> = ScriptTasks::new(script);
    let runners = run_beside(rt, alloc, &system, &alarm, &gate, crew, runners, &program).or(Err(
        JobError::NoMemory,
    ))?;
    let (_, outcomes) = parted(runners, room);
    Ok((how_many_short(outcomes)?, told(rt, &system, units)?))
}

/// A worker runs out of memory in `turns` turns on unit 0.
fn run_out(alarm: &Alarm, turns: u32) {
    for _ in 0..turns {
        alarm.pass(0, Point::Take);
        alarm.lack_memory(0, Point::Take);
    }
}

/// The workers of such a run.
fn crew_of<'r, S: Site>(
    alloc: Global,
    units: u16,
    takers: Vec<IscTaker<'r, S>>,
    way: Way,
) -> Result<Crew<'r, S>, AllocError>
    requires { units ≡ S.rows.units }
{
    let handled = match way {
        Way::Tasks | Way::Brief => takers,
        _ => Vec::new(alloc),
    };
    let served = match way {
        Way::Alone => 0,
        _ => 2,
    };
    let mut crew = Crew::new(alloc, units, handled, two_of_each())?;
    crew.channels.truncate(served);
    Ok(crew)
}

/// Two channel workers and two handlers.
fn two_of_each() -> Workers {
    Workers {
        channels: 2,
        handlers: 2,
    }
}

/// How many tasks ran out of memory. The others are to have collected all their posts.
fn how_many_short(outcomes: Vec<Result<TaskEnd<()>, TaskError>>) -> Result<usize, JobError> {
    let mut short: usize = 0;
    for outcome in outcomes {
        match outcome {
            Ok(end) if end.slots.are_filled() => {}
            Ok(_) => return Err(JobError::Unmatched),
            Err(TaskError::NoMemory) => short = short.saturating_add(1),
            Err(error) => return Err(JobError::from(error)),
        }
    }
    Ok(short)
}

/// Whether the posts are printed of these tasks of a script.
fn prints_posts(alloc: Global, script: &Script, tasks: &[TaskEnd<()>]) -> Result<bool, JobError> {
    let mut text = Vec::new(alloc);
    write(&script.commands, tasks, &mut text)?;
    Ok(text.as_slice() == POSTS.as_bytes())
}

/// How many requests the traces of the units tell of. Their books have room for the requests in the intake rows, which
/// arrive first.
fn told<S: Opened<AnyDevice>, R: Wait>(
    rt: &R,
    system: &System<'_, S, AnyDevice>,
    units: u16,
) -> Result<usize, AllocError>
    requires { units ≤ S.rows.units }
{
    let mut count: usize = 0;
    for unit in 0..units {
        let mut state = system.lock_of(unit).lock(rt);
        for _ in 0..12 {
            state.take(rt)?;
        }
        for entry in state.book().trace() {
            if let Entry::Arrive(_) = entry {
                count = count.saturating_add(1);
            }
        }
    }
    Ok(count)
}

/// Rows of this room for the tasks and units of a script, and books of this room.
fn rows_and_books(
    alloc: Global,
    script: &Script,
    room: usize,
) -> Result<(Rows, Vec<UnitBook<AnyDevice>>), JobError>
    requires tasks { (1 ≤ script.now.set_up.tasks) × (script.now.set_up.tasks ≤ 64) }
    requires units { (1 ≤ vec_len script.now.set_up.units) × (vec_len script.now.set_up.units ≤ 64) }
    requires some { 1 ≤ room }
    requires few { room ≤ 65536 }
    ensures tasks { IfOk result (λ made. made.0.tasks ≡ script.now.set_up.tasks) }
    ensures units { IfOk result (λ made. made.0.units ≡ vec_len script.now.set_up.units) }
    ensures fresh { IfOk result (λ made. AreFresh made.0) }
    ensures books { IfOk result (λ made. AreBooks (vec_len script.now.set_up.units) made.1.items) }
{
    let books = books(alloc, script, Vec::new(alloc), room)?;
    let units = script.set_up.units.len() as u16;
    let rows = Rows::new(alloc, script.set_up.tasks, units, room, room)?;
    Ok((rows, books))
}

/// The script of all runs.
fn script(alloc: Global) -> Result<Script, JobError>
    ensures tasks { IfOk result (λ script. (1 ≤ script.set_up.tasks) × (script.set_up.tasks ≤ 64)) }
    ensures units { IfOk result (λ script. (1 ≤ vec_len script.set_up.units) × (vec_len script.set_up.units ≤ 64)) }
{
    let mut text = Vec::from_slice(alloc, SET_UP.as_bytes())?;
    text.extend_from_slice(AREAS.as_bytes())?;
    text.extend_from_slice(EXCPS.as_bytes())?;
    Script::parse(alloc, &text)
}

/// Whether the script prints its posts with rows and books of this room, if its tasks sleep for this many of them at their end, or
/// do not wait if it is 0.
fn prints<R: Threads + Wait + Sync + AllocGlobal>(
    rt: &R,
    room: usize,
    posts: u16,
) -> Result<bool, JobError>
    requires some { 1 ≤ room }
    requires few { room ≤ 65536 }
{
    let script = script(rt.alloc())?;
    // its requests can be made
    books(rt.alloc(), &script, Vec::new(rt.alloc()), room)?;
    let (rows, books) = rows_and_books(rt.alloc(), &script, room)?;
    late(rt, rows, books, &script, posts)
}

/// How many tasks of the script ran out of memory, and how many of their requests the traces tell of, with rows and books of this
/// room.
fn run<R: Threads + Wait + Sync + AllocGlobal>(
    rt: &R,
    room: usize,
    way: Way,
) -> Result<(usize, usize), JobError>
    requires some { 1 ≤ room }
    requires few { room ≤ 65536 }
{
    let script = script(rt.alloc())?;
    // its requests can be made
    books(rt.alloc(), &script, Vec::new(rt.alloc()), room)?;
    let (mut rows, books) = rows_and_books(rt.alloc(), &script, room)?;
    tasks_alone::<Brand, R>(rt, &mut rows, books, &script, way)
}

/// A task has collected all its posts when it ends; where tasks do not, the end of the run gives them.
#[test]
fn tasks_wait_for_their_posts(rt: HostRuntime) -> Result<(), Fail> {
    assert!(rt; run(&rt, 8, Way::Tasks)? == (0, 12));
    assert!(rt; prints(&rt, 8, 0)?);
    Ok(())
}

/// A task that sleeps for 64 posts wakes with the last that it awaits, and if its post row is full.
#[test]
fn tasks_sleep_for_several_posts(rt: HostRuntime) -> Result<(), Fail> {
    for room in [1, 8] {
        assert!(rt; prints(&rt, room, 64)?);
    }
    Ok(())
}

/// A worker runs out of memory in one turn less than lasts, and then now and then: the run stays whole.
#[test]
fn run_stays_whole_if_memory_comes_back(rt: HostRuntime) -> Result<(), Fail> {
    assert!(rt; run(&rt, 8, Way::Brief)? == (0, 12));
    Ok(())
}

/// Also where a worker alone ran out of it: it wakes the tasks, which sleep.
#[test]
fn want_of_memory_ends_the_tasks(rt: HostRuntime) -> Result<(), Fail> {
    for way in [
        Way::Late(Point::Take),
        Way::Late(Point::Start),
        Way::Late(Point::Run),
        Way::Late(Point::Deliver),
        Way::Raised,
        Way::Alone,
    ] {
        assert!(rt; run(&rt, 8, way)? == (2, 12));
    }
    assert!(rt; run(&rt, 1, Way::Alone)? == (2, 2));
    Ok(())
}
