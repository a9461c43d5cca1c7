//! A script: its set-up and its commands, as its lines say, and the first fault of its lines.

ghost use Rattle.std.specs.Prelude.{◌≡◌, ◌<◌, ◌≤◌, ◌==◌, ◌++◌, ◌∷◌, [], ℕ, All, Contains, IfOk, OnErr, OnOk, get_or, if◌then◌else◌, length, option_copied, vec_len};
ghost use Rattle.job_script.specs.Commands.{NamesUnits, most, request_count_of, request_count_to};
ghost use Rattle.job_script.specs.Tasks.{list_of, places_of};
ghost use Rattle.job_script.specs.declared.command.ScriptCommand.{ScriptCommand as OneCommand};

use crate::command::{Action, ScriptCommand};
use crate::fault::{FaultName, JobError};
use crate::line::areas::{area, opening, tasks};
use crate::line::commands::{close, excp, purge, purge_task, reset, wait};
use crate::line::units::{block, disk, fault, mark, printer, record, tape};
use crate::line::{ExcpLine, SetUpLine, SetUpVerb, Verb, front};
use crate::refusal::LineError;
use crate::set_up::SetUp;
use script_words::LineWords;
use std::alloc::{AllocError, Global};

/// That no line declares the tasks, or a unit.
const NO_LINE: JobError = JobError::Line {
    line: 0,
    name: FaultName::Order,
};

/// What a script says. The tasks of its commands, and the units that they name, are declared.
#[derive(Drop)]
pub struct Script {
    pub set_up: SetUp,
    /// The commands, in the order of their lines.
    pub commands: Vec<ScriptCommand>,
    /// For each task, the indices of its commands in `commands`, in their order.
    places: Vec<Vec<usize>>,
    ghost declared: { (command : OneCommand) → Contains commands.items command → NamesUnits (vec_len set_up.units) command },
    ghost of_tasks: { (command : OneCommand) → Contains commands.items command → command.task < set_up.tasks },
    ghost grouped: { (task : ℕ) → list_of places.items task ≡ places_of task commands.items },
}

impl Script {
    ghost use Rattle.job_script.specs.Adding.{add_command, add_line};
    ghost use Rattle.job_script.specs.Grammar.{adds, adds_set_up, lacks, script_of, script_with_line};
    ghost use Rattle.job_script.specs.LineViews.{set_up_line_said};
    ghost use Rattle.job_script.specs.Outcomes.{Gives, Leads, LeadsAt, words_in};
    ghost use Rattle.job_script.specs.Lines.{by_verb, set_up_line};
    ghost use Rattle.job_script.specs.Said.{says_excp, says_set_up};
    ghost use Rattle.job_script.specs.Views.{command_said, said};
    ghost use Rattle.script_words.specs.Text.{bytes_left, leading_line, lines, lines_left};

    /// Reads the lines of a script, first to last.
    ///
    /// Errors: the first fault of a line; else `Order` at line 0, if the script has no tasks or no units; out of memory.
    pub fn parse(alloc: Global, text: &[u8]) -> Result<Self, JobError>
        ensures grammar { Gives said result (script_of text.now) }
        ensures tasks { IfOk result (λ script. (1 ≤ script.set_up.tasks) × (script.set_up.tasks ≤ 64)) }
        ensures units { IfOk result (λ script. (1 ≤ vec_len script.set_up.units) × (vec_len script.set_up.units ≤ 64)) }
    {
        let mut script = Script {
            set_up: SetUp::new(alloc),
            commands: Vec::new(alloc),
            places: Vec::new(alloc),
        };
        let mut left = Some(text);
        let mut number: usize = 1;
        let mut line = LineWords::new();
        'lines: while let Some(text) = left {
            let after = script.numbered_line(alloc, number, text, &mut line)?;
            number += 1;
            left = after;
        }
        if script.lacks() {
            return Err(NO_LINE);
        }
        Ok(script)
    }

    /// No line declares the tasks, or no line declares a unit.
    fn lacks(&self) -> bool
        ensures { result ≡ lacks (said self.now) }
    {
        self.set_up.tasks == 0 || self.set_up.units.is_empty()
    }

    /// Adds what the first line of a text says, which has this number, and returns the text after it. Names the line in a
    /// fault.
    #[inline(always)]
    fn numbered_line<'a>(
        &mut self,
        alloc: Global,
        number: usize,
        text: &'a [u8],
        line: &mut LineWords<'a>,
    ) -> Result<Option<&'a [u8]>, JobError>
        ensures adds { LeadsAt number result (said self.new) (script_with_line number (leading_line text.now) (said self.old)) }
        ensures line { IfOk result (λ after. lines text.now ≡ leading_line text.now ∷ lines_left (option_copied after)) }
        ensures shorter { IfOk result (λ after. bytes_left (option_copied after) ≤ length text.now) }
    {
        match self.leading_line(alloc, number, text, line) {
            Ok(after) => Ok(after),
            Err(LineError::Fault(name)) => Err(JobError::Line { line: number, name }),
            Err(LineError::NoMemory) => Err(JobError::NoMemory),
        }
    }

    /// Adds what the first line of a text says, which has this number, and returns the text after it.
    #[inline(always)]
    fn leading_line<'a>(
        &mut self,
        alloc: Global,
        number: usize,
        text: &'a [u8],
        line: &mut LineWords<'a>,
    ) -> Result<Option<&'a [u8]>, LineError>
        ensures adds { Leads result (said self.new) (script_with_line number (leading_line text.now) (said self.old)) }
        ensures line { IfOk result (λ after. lines text.now ≡ leading_line text.now ∷ lines_left (option_copied after)) }
        ensures shorter { IfOk result (λ after. bytes_left (option_copied after) ≤ length text.now) }
    {
        if let Some((excp, after)) = front::excp(number, text) {
            self.add_excp(alloc, excp)?;
            return Ok(Some(after));
        }
        if let Some((fault, after)) = front::fault(text) {
            self.add_set_up(alloc, fault)?;
            return Ok(Some(after));
        }
        let after = line.scan(text);
        self.read_line(alloc, number, line)?;
        Ok(after)
    }

    /// Adds what the line with this number says.
    #[tactic(auto, unfolding(crate::specs::Adding::add_line))]
    fn read_line(
        &mut self,
        alloc: Global,
        number: usize,
        line: &LineWords<'_>,
    ) -> Result<(), LineError>
        ensures { Leads result (said self.new) (script_with_line number line.now.line.now (said self.old)) }
    {
        match Verb::of_line(line)? {
            None => Ok(()),
            Some(verb) => self.by_verb(alloc, number, verb, line),
        }
    }

    /// Adds what a line of this kind says. Each kind is added when it is read, so that no line is moved.
    #[inline(always)]
    #[tactic(auto, unfolding(crate::specs::Lines::by_verb, crate::specs::Adding::add_line))]
    fn by_verb(
        &mut self,
        alloc: Global,
        number: usize,
        verb: Verb,
        line: &LineWords<'_>,
    ) -> Result<(), LineError>
        ensures { Leads result (said self.new) (adds (by_verb verb number (words_in line.now)) (said self.old)) }
    {
        match verb {
            Verb::SetUp(verb) => self.set_up_line(alloc, number, verb, line),
            Verb::Excp => self.add_excp(alloc, excp(number, line)?),
            Verb::Purge => self.add_command(alloc, purge(number, line)?),
            Verb::PurgeTask => self.add_command(alloc, purge_task(number, line)?),
            Verb::Close => self.add_command(alloc, close(number, line)?),
            Verb::Reset => self.add_command(alloc, reset(number, line)?),
            Verb::Wait => self.add_command(alloc, wait(number, line)?),
        }
    }

    /// Adds what a set-up line of this kind says.
    #[inline(always)]
    #[tactic(auto, unfolding(crate::specs::Lines::set_up_line))]
    fn set_up_line(
        &mut self,
        alloc: Global,
        number: usize,
        verb: SetUpVerb,
        line: &LineWords<'_>,
    ) -> Result<(), LineError>
        ensures { Leads result (said self.new) (adds_set_up (set_up_line verb number (words_in line.now)) (said self.old)) }
    {
        match verb {
            SetUpVerb::Tasks => self.add_set_up(alloc, tasks(line)?),
            SetUpVerb::Disk => self.add_set_up(alloc, disk(alloc, number, line)?),
            SetUpVerb::Tape => self.add_set_up(alloc, tape(alloc, number, line)?),
            SetUpVerb::Printer => self.add_set_up(alloc, printer(number, line)?),
            SetUpVerb::Record => self.add_set_up(alloc, record(alloc, line)?),
            SetUpVerb::Block => self.add_set_up(alloc, block(alloc, line)?),
            SetUpVerb::Mark => self.add_set_up(alloc, mark(line)?),
            SetUpVerb::Fault => self.add_set_up(alloc, fault(line)?),
            SetUpVerb::Open => self.add_set_up(alloc, opening(alloc, number, line)?),
            SetUpVerb::Area => self.add_set_up(alloc, area(alloc, line)?),
        }
    }

    /// Adds what a set-up line says, if no command comes before it.
    #[inline(always)]
    #[tactic(auto, unfolding(crate::specs::Adding::add_line))]
    fn add_set_up(&mut self, alloc: Global, line: SetUpLine) -> Result<(), LineError>
        ensures { Leads result (said self.new) (add_line (says_set_up (set_up_line_said line)) (said self.old)) }
    {
        if !self.commands.is_empty() {
            return Err(LineError::Fault(FaultName::Order));
        }
        self.set_up.add(alloc, line)
    }

    /// Adds the command of an EXCP, if all that it names is declared.
    #[inline(always)]
    #[tactic(auto, unfolding(crate::specs::Adding::add_line))]
    fn add_excp(&mut self, alloc: Global, excp: ExcpLine) -> Result<(), LineError>
        ensures { Leads result (said self.new) (add_line (says_excp excp) (said self.old)) }
    {
        let command = self.set_up.excp(excp)?;
        self.add_command(alloc, command)
    }

    /// Adds a command, if all that it names is declared.
    #[inline(always)]
    #[tactic(auto, unfolding(crate::specs::Adding::add_command))]
    fn add_command(&mut self, alloc: Global, command: ScriptCommand) -> Result<(), LineError>
        ensures { Leads result (said self.new) (add_command (command_said command) (said self.old)) }
    {
        self.set_up.names(&command)?;
        // Makes room first, so that the command and its index are added together.
        self.commands.reserve(1)?;
        let place = self.commands.len();
        add_place(alloc, &mut self.places, usize::from(command.task), place)?;
        self.commands.push_reserved(command);
        Ok(())
    }

    /// The indices of a task's commands in `commands`, in the order of their lines.
    pub fn places_of(&self, task: u16) -> &[usize]
        ensures value { result.now ≡ places_of task self.now.commands.items }
        ensures inside { All (λ place. place < vec_len self.now.commands) result.now }
    {
        let task = usize::from(task);
        if task >= self.places.len() {
            return &[];
        }
        let places = &self.places[task];
        places
    }

    /// The largest number of requests that it issues to one unit.
    pub fn most_to_a_unit(&self) -> usize
        ensures { result ≡ most (request_count_to self.now.commands.items) (vec_len self.now.set_up.units) }
    {
        let counts = self.requests_to_units();
        let mut largest = 0;
        for unit in 0..self.set_up.units.len() {
            largest = largest.max(counts[unit]);
        }
        largest
    }

    /// For each unit, how many requests it issues to the unit.
    fn requests_to_units(&self) -> [usize; 64]
        ensures { (unit : ℕ) → unit < 64 → get_or result unit 0 ≡ request_count_to self.now.commands.items unit }
    {
        let mut counts = [0; 64];
        for command in &self.commands {
            if let Action::Excp(excp) = &command.action {
                counts[usize::from(excp.dcb.unit)] += 1;
            }
        }
        counts
    }

    /// The largest number of requests that one of its tasks issues.
    pub fn most_of_a_task(&self) -> usize
        ensures { result ≡ most (request_count_of self.now.commands.items) self.now.set_up.tasks }
    {
        let counts = self.requests_of_tasks();
        let mut largest = 0;
        for task in 0..usize::from(self.set_up.tasks) {
            largest = largest.max(counts[task]);
        }
        largest
    }

    /// For each task, how many requests it issues.
    fn requests_of_tasks(&self) -> [usize; 64]
        ensures { (task : ℕ) → task < 64 → get_or result task 0 ≡ request_count_of self.now.commands.items task }
    {
        let mut counts = [0; 64];
        for command in &self.commands {
            if let Action::Excp(_) = &command.action {
                counts[usize::from(command.task)] += 1;
            }
        }
        counts
    }
}

/// Adds an index to the list with this number, after the indices that are there.
#[inline(always)]
fn add_place(
    alloc: Global,
    lists: &mut Vec<Vec<usize>>,
    number: usize,
    place: usize,
) -> Result<(), AllocError>
    ensures added { OnOk result ((k : ℕ) → list_of lists.new.items k ≡ list_of lists.old.items k ++ (if number == k then place ∷ [] else [])) }
    ensures same { OnErr result ((k : ℕ) → list_of lists.new.items k ≡ list_of lists.old.items k) }
{
    lengthen(alloc, lists, number)?;
    lists[number].push(place)?;
    Ok(())
}

/// Adds empty lists until one has this number.
#[inline(always)]
fn lengthen(alloc: Global, lists: &mut Vec<Vec<usize>>, number: usize) -> Result<(), AllocError>
    ensures same { (k : ℕ) → list_of lists.new.items k ≡ list_of lists.old.items k }
    ensures there { OnOk result (number < vec_len lists.new) }
{
    for _ in lists.len()..=number {
        lists.push(Vec::new(alloc))?;
    }
    Ok(())
}
