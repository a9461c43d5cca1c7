//! The lines that a run prints: one for each post, and their number.

ghost use Rattle.std.specs.Prelude.{◌≡◌, ◌++◌, IfErr, OnErr, OnOk, length, map};
ghost use Rattle.std.specs.Io.KnownBytes.{Appends};
ghost use Rattle.std.specs.List.{filter};
ghost use Rattle.post_lines.specs.Writing.{AppendsPart};
ghost use Rattle.job_script.specs.Commands.{is_excp};
ghost use Rattle.post_lines.specs.Lines.{count_text};
ghost use Rattle.job_run.specs.Printing.{ended_slots, tasks_text};

use crate::task_end::TaskEnd;
use job_script::{Action, JobError, ScriptCommand};
use post_lines::{write_count, write_task};
use std::io;
use std::io::Write;

/// Writes what the requests of each task were posted with, in order of tasks, units and numbers, each with its shown bytes.
/// Then it writes how many there are: one for each EXCP of these commands.
///
/// Error: a failed write, after a first part of this text.
pub fn write<W: Write, N: Drop>(
    commands: &[ScriptCommand],
    tasks: &[TaskEnd<N>],
    writer: &mut W,
) -> Result<(), JobError>
    ensures text { OnOk result (Appends (W.contents writer.old) (W.contents writer.new) (tasks_text 0 (map ended_slots tasks.now) ++ count_text (length (filter (λ c. is_excp c.action) commands.now)))) }
    ensures part { OnErr result (AppendsPart (W.contents writer.old) (W.contents writer.new) (tasks_text 0 (map ended_slots tasks.now) ++ count_text (length (filter (λ c. is_excp c.action) commands.now)))) }
    ensures fault { IfErr result (λ fault. fault ≡ JobError.NotWritten) }
{
    write_posts(commands, tasks, writer).or(Err(JobError::NotWritten))
}

/// Writes the lines of all tasks, and the last one.
fn write_posts<W: Write, N: Drop>(
    commands: &[ScriptCommand],
    tasks: &[TaskEnd<N>],
    out: &mut W,
) -> io::Result<()>
    ensures whole { OnOk result (Appends (W.contents out.old) (W.contents out.new) (tasks_text 0 (map ended_slots tasks.now) ++ count_text (length (filter (λ c. is_excp c.action) commands.now)))) }
    ensures part { OnErr result (AppendsPart (W.contents out.old) (W.contents out.new) (tasks_text 0 (map ended_slots tasks.now) ++ count_text (length (filter (λ c. is_excp c.action) commands.now)))) }
{
    for task in 0..tasks.len() {
        write_task(out, task, &tasks[task].slots)?;
    }
    write_count(out, excp_count(commands))?;
    out.flush()
}

/// How many of these commands are EXCPs.
fn excp_count(commands: &[ScriptCommand]) -> usize
    ensures { result ≡ length (filter (λ c. is_excp c.action) commands.now) }
{
    let excps = commands
        .iter()
        .filter(|command| matches!(command.action, Action::Excp(_)));
    excps.count()
}
