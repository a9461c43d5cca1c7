//! A replay, and its position in a trace.

ghost use Rattle.std.specs.Prelude.{◌≡◌, ◌<◌, ◌+◌, IfOk, MatchOption, OnOk, OnErr, Some, length, reverse, slice_get};
ghost use Rattle.std.specs.Option.{option_copied};
ghost use Rattle.unit_book.specs.Legal.{Legal};
ghost use Rattle.unit_book.specs.Media.{device};
ghost use Rattle.unit_book.specs.Trace.{active};
ghost use Rattle.unit_history.specs.Replayed.{IsFirstStart, IsBetweenPrograms, IsPost, IsRan, ListsNext, ShowsArea, ShowsContext, behind_command, next_place, so_far, step_to};

use crate::arrivals::arrival_of;
use crate::attempt::Attempt;
use ccw_programs::{Context, Listing, State, Workspace, look};
use device_port::Device;
use io_area::Area;
use request_piece::Name;
use std::alloc::AllocError;
use std::marker::Model;
use unit_book::{Entry, UnitBook};

/// A replay of the trace of a book, and its position there: after a number of entries, oldest first, and a number of
/// commands of the next one.
#[derive(Drop)]
pub struct Replay<'t, D: Device> {
    book: &'t UnitBook<D>,
    done: usize,
    ran: u32,
    device: D,
    attempt: Option<Attempt<'t>>,
    /// Where the search for the next request that is started begins.
    searched: usize,
    workspace: Workspace,
}

/// What a step of a replay was: one command of an entry, a whole entry of another kind, or nothing, at the end.
#[derive(Clone, Copy, PartialEq, Eq)]
pub enum ReplayStep {
    Command,
    Entry,
    End,
}

impl<'t, D: Device> Model for Replay<'t, D> {
    ghost use Rattle.unit_history.specs.Replayed.{ReplayPlace};

    ghost Value = { ReplayPlace D };

    ghost use Rattle.std.specs.Prelude.{reverse};
    ghost use Rattle.unit_history.specs.Ties.{ReplayTies};

    ghost view = { λ r. record { book = r.book.now; done = r.done; ran = r.ran } };

    ghost invariant = { λ r. ReplayTies D.meaning r.book.now.mounted (reverse r.book.now.trace) r.done r.ran r.device r.attempt };
}

impl<'t, D: Device> Replay<'t, D> {
    /// The replay of a book of which nothing is replayed, on a copy of its device as it was mounted.
    pub fn of(book: &'t UnitBook<D>) -> Result<Replay<'t, D>, AllocError>
        ensures { IfOk result (λ r. r ≡ record { book = book.now; done = 0; ran = 0 }) }
    {
        Ok(Replay {
            book,
            done: 0,
            ran: 0,
            device: book.mounted().copy()?,
            attempt: None,
            searched: 0,
            workspace: Workspace::new(),
        })
    }

    /// How many entries were replayed.
    pub fn done(&self) -> usize
        ensures { result ≡ self.now.done }
    {
        self.done
    }

    /// The device with its medium at this position.
    pub fn device(&self) -> &D
        ensures { result.now ≡ device D.meaning self.now.book.mounted (so_far self.now) }
    {
        &self.device
    }

    /// The storage of the active request at this position.
    pub fn area(&self) -> Option<&Area>
        ensures { ShowsArea D.meaning self.now (option_copied result) }
    {
        self.book.holds();
        match &self.attempt {
            Some(attempt) => Some(&attempt.area),
            None => None,
        }
    }

    /// The position of the active request's program at this position.
    pub fn context(&self) -> Option<&Context>
        ensures { ShowsContext D.meaning self.now (option_copied result) }
    {
        match &self.attempt {
            Some(attempt) => Some(&attempt.context),
            None => None,
        }
    }

    /// The next command of the active request's program, if it has not ended, put together in a workspace. A step that
    /// goes on to a command does it.
    pub fn next_command<'w>(&self, workspace: &'w mut Workspace) -> Option<Listing<'w>>
        ensures { MatchOption result (IsBetweenPrograms D.meaning self.now) (λ l. ListsNext D.meaning self.now l.links.now l.flow l.parts.now l.refusal) }
    {
        let Some(attempt) = &self.attempt else {
            return None;
        };
        if attempt.context.state() != State::Running {
            return None;
        }
        Some(look(&attempt.context, &self.device, &attempt.area, workspace))
    }

    /// Replays the next entry, or the next command of an entry of commands. Returns which of these it was. Stays if all
    /// entries were replayed. Allocates only at the first start of a request.
    pub fn step(&mut self) -> Result<ReplayStep, AllocError>
        ensures ok { OnOk result (self.new ≡ next_place self.old) }
        ensures kind { IfOk result (λ step. step ≡ step_to (slice_get (reverse self.old.book.trace) self.old.done)) }
        ensures err { OnErr result (self.new ≡ self.old) }
        ensures full { OnErr result (IsFirstStart (so_far self.old) (slice_get (reverse self.old.book.trace) self.old.done)) }
    {
        let book = self.book;
        book.holds();
        let entries = book.trace();
        if self.done >= entries.len() {
            return Ok(ReplayStep::End);
        }
        let next = self.done + 1;
        match &entries[self.done] {
            Entry::Ran(_, commands) => {
                self.run(*commands, next);
                return Ok(ReplayStep::Command);
            }
            Entry::Start(name) => self.start(*name, next)?,
            Entry::Post(name, _, _, _) => self.post(*name, next),
            _ => self.done = next,
        }
        Ok(ReplayStep::Entry)
    }

    /// Does one more of the `commands` commands of an entry.
    fn run(&mut self, commands: u32, next: usize)
        requires next { next ≡ self.old.done + 1 }
        requires legal { Legal D.meaning self.old.book.mounted self.old.book.trace }
        requires entry { IsRan commands (slice_get (reverse self.old.book.trace) self.old.done) }
        ensures { self.new ≡ behind_command commands self.old }
    {
        let Some(attempt) = &mut self.attempt else {
            unreachable!()
        };
        attempt.run(&mut self.device, &mut self.workspace);
        self.ran += 1;
        if self.ran == commands {
            self.ran = 0;
            self.done = next;
        }
    }

    /// Starts the program of the active request once more, or that of the request which has this name.
    fn start(&mut self, name: Name, next: usize) -> Result<(), AllocError>
        requires next { next ≡ self.old.done + 1 }
        requires legal { Legal D.meaning self.old.book.mounted self.old.book.trace }
        requires entry { slice_get (reverse self.old.book.trace) self.old.done ≡ Some (Entry.Start name) }
        ensures ok { OnOk result (self.new ≡ record self.old { done = self.old.done + 1; ran = 0 }) }
        ensures err { OnErr result (self.new ≡ self.old) }
        ensures full { OnErr result (active (so_far self.old) ≡ None) }
    {
        let attempt = match self.attempt.take() {
            Some(attempt) => attempt.again(),
            None => {
                let entries = &self.book.trace()[..self.done];
                let (place, issued) = arrival_of(entries, self.searched, name);
                self.searched = place;
                Attempt::first(issued)?
            }
        };
        let mask = self.book.mask(attempt.issued.dcb());
        self.device.prefix(&attempt.issued.seek(), mask);
        self.attempt = Some(attempt);
        self.done = next;
        Ok(())
    }

    /// The request with this name is posted. If it is the active one, nothing is active after that.
    fn post(&mut self, name: Name, next: usize)
        requires next { next ≡ self.old.done + 1 }
        requires legal { Legal D.meaning self.old.book.mounted self.old.book.trace }
        requires entry { IsPost name (slice_get (reverse self.old.book.trace) self.old.done) }
        ensures { self.new ≡ record self.old { done = self.old.done + 1; ran = 0 } }
    {
        if let Some(attempt) = &self.attempt {
            if attempt.issued.name() == name {
                self.attempt = None;
            }
        }
        self.done = next;
    }
}
