//! The state of a unit derived from a prefix of its trace.
//!
//! Requests that are doomed are posted straight after the entry that dooms them, or after the end of the program that it
//! halts, and before anything else happens. So the last such entry is the cause of each of these posts.

ghost use Rattle.std.specs.Prelude.{◌≡◌, ◌≤◌, ◌+◌, ◌∷◌, Some, true, false, length, reverse, slice_get, drop};
ghost use Rattle.io_images.specs.Codes.{is_error};
ghost use Rattle.request_piece.specs.Scope.{covers};
ghost use Rattle.unit_book.specs.Trace.{active, has_arrived, request_named, starts_of};
ghost use Rattle.unit_history.specs.Causes.{IsCauseOfPost, ended_cause, is_doom, sets_flag, waiting_cause};
ghost use Rattle.unit_history.specs.Dcbs.{ChangesDcb, KnowsDcbs, NotesError, arrival_cause, closed_at, known_at, room_of};
ghost use Rattle.unit_history.specs.Events.{turns};
ghost use Rattle.unit_history.specs.Orderly.{ErrorFollows, IsAfter, IsPostedNext, Orderly, StartFollows};
ghost use Rattle.unit_history.specs.TraceStates.{ActiveIs, DoomsBy, IfNamed, IsActive, Knows, UnlessNamed, before, active_halted, halting_after, purged_by, room_of_state};

use crate::arrivals::find_arrival;
use crate::dcbs::Dcbs;
use crate::event::PostCause;
use io_images::Code;
use request_piece::{Issued, Name, Scope};
use unit_book::{Entry, Mode};

/// The request that was started and not posted since.
#[derive(Clone, Copy)]
pub(crate) struct StartedRequest<'t> {
    name: Name,
    /// The request as issued.
    issued: &'t Issued,
    /// The index of its arrival in the trace.
    place: usize,
    /// How often it was started.
    starts: u32,
    /// Whether its program was halted.
    is_halted: bool,
    /// The number of the first purge with halt that covered it since its last start.
    halting: Option<usize>,
}

/// State derived from the first `done` entries of a trace: the active request, the DCBs, and the cause of the next posts.
#[derive(Drop)]
pub(crate) struct TraceState<'t, 'd> {
    /// The entries of the trace, oldest first.
    pub trace: &'t [Entry],
    /// How many of them are before.
    pub done: usize,
    active: Option<StartedRequest<'t>>,
    dcbs: &'d mut Dcbs,
    /// Why the waiting requests that are posted next are posted.
    cause: PostCause,
    /// The index of the arrival of the last request that was looked up.
    searched: usize,
}

impl<'t, 'd> TraceState<'t, 'd> {
    /// No entry of a trace.
    pub fn new(trace: &'t [Entry], dcbs: &'d mut Dcbs) -> TraceState<'t, 'd>
        requires orderly { Orderly (reverse trace.now) }
        ensures knows { Knows result }
        ensures trace { result.trace.now ≡ trace.now }
        ensures done { result.done ≡ 0 }
        ensures room { room_of_state result ≡ room_of dcbs.old }
    {
        dcbs.clear();
        TraceState {
            trace,
            done: 0,
            active: None,
            dcbs,
            cause: PostCause::Unknown,
            searched: 0,
        }
    }

    /// The active request, if it has this name.
    fn active_named(&self, name: Name) -> Option<StartedRequest<'t>>
        ensures { IfNamed name self.now.active result }
    {
        match self.active {
            Some(active) if active.name == name => Some(active),
            _ => None,
        }
    }

    /// The name of the active request.
    pub fn active(&self) -> Option<Name>
        requires { Knows self.now }
        ensures { result ≡ active (before self.now) }
    {
        match self.active {
            Some(active) => Some(active.name),
            None => None,
        }
    }

    /// The number of the attempt that a start of this request begins.
    pub fn attempt(&self, name: Name) -> u32
        requires knows { Knows self.now }
        requires follows { StartFollows name (before self.now) }
        ensures { result ≡ starts_of name (before self.now) + 1 }
    {
        match self.active_named(name) {
            Some(active) => active.starts + 1,
            None => 1,
        }
    }

    /// Why the next entry posts this request, with this code.
    pub fn cause(&self, name: Name, code: Code) -> PostCause
        requires knows { Knows self.now }
        requires follows { IsPostedNext name code (before self.now) }
        ensures { IsCauseOfPost (room_of_state self.now) (before self.now) name code result }
    {
        match self.active_named(name) {
            Some(active) => active.cause(code),
            None => waiting_cause(code, self.cause),
        }
    }

    /// Whether the next entry, which posts this request with this code, sets the error flag of its DCB: the request is related,
    /// and ends in error.
    pub fn sets_flag(&self, name: Name, code: Code) -> bool
        requires knows { Knows self.now }
        requires error { is_error code ≡ true → ErrorFollows name (before self.now) }
        ensures { result ≡ sets_flag (before self.now) name code }
    {
        code.is_error() && self.request(name).1.is_related()
    }

    /// Goes on after the next entry, which is this one.
    pub fn note(&mut self, entry: &'t Entry)
        requires knows { Knows self.old }
        requires next { slice_get self.old.trace.now self.old.done ≡ Some entry.now }
        requires follows { IsAfter entry.now (before self.old) }
        ensures knows { Knows self.new }
        ensures trace { self.new.trace.now ≡ self.old.trace.now }
        ensures done { self.new.done ≡ self.old.done + 1 }
        ensures room { room_of_state self.new ≡ room_of_state self.old }
    {
        let number = self.done + 1;
        let active = self.active_after(entry, number);
        self.note_doom(entry, number);
        self.searched = searched_after(active, self.searched);
        self.active = active;
        self.done = number;
    }

    /// Goes on after the turns of a request that come next.
    pub fn pass(&mut self, name: Name, count: usize)
        requires knows { Knows self.old }
        requires turns { count ≡ length (turns name (drop self.old.done self.old.trace.now)) }
        ensures knows { Knows self.new }
        ensures trace { self.new.trace.now ≡ self.old.trace.now }
        ensures done { self.new.done ≡ self.old.done + count }
        ensures room { room_of_state self.new ≡ room_of_state self.old }
    {
        // A slice that is read has a length that fits.
        let _trace = self.trace;
        self.done += count;
    }

    /// The active request after the next entry, which is this one and has this number.
    fn active_after(&self, entry: &Entry, number: usize) -> Option<StartedRequest<'t>>
        requires knows { Knows self.now }
        requires follows { IsAfter entry.now (before self.now) }
        requires number { number ≡ self.now.done + 1 }
        ensures { ActiveIs (entry.now ∷ before self.now) result }
    {
        match entry {
            Entry::Start(name) => Some(self.started(*name)),
            Entry::Halted(name) => self.halted(*name),
            Entry::Purge(scope, mode) => self.purged(*scope, *mode, number),
            Entry::Post(name, _, _, _) => self.active_but(*name),
            _ => self.active,
        }
    }

    /// The state of the request that the next entry starts.
    fn started(&self, name: Name) -> StartedRequest<'t>
        requires knows { Knows self.now }
        requires follows { StartFollows name (before self.now) }
        ensures { IsActive (Entry.Start name ∷ before self.now) result }
    {
        let starts = self.attempt(name);
        let (place, issued) = self.request(name);
        StartedRequest {
            name,
            issued,
            place,
            starts,
            is_halted: false,
            halting: None,
        }
    }

    /// The active request after a halt.
    fn halted(&self, name: Name) -> Option<StartedRequest<'t>>
        requires knows { Knows self.now }
        ensures { ActiveIs (Entry.Halted name ∷ before self.now) result }
    {
        match self.active {
            Some(active) => Some(active.halted_by(name)),
            None => None,
        }
    }

    /// The active request after a purge, which has this number.
    fn purged(&self, scope: Scope, mode: Mode, number: usize) -> Option<StartedRequest<'t>>
        requires knows { Knows self.now }
        requires number { number ≡ self.now.done + 1 }
        ensures { ActiveIs (Entry.Purge scope mode ∷ before self.now) result }
    {
        match self.active {
            Some(active) => Some(active.purged_by(scope, mode, number)),
            None => None,
        }
    }

    /// The active request, unless it has this name.
    fn active_but(&self, name: Name) -> Option<StartedRequest<'t>>
        ensures { UnlessNamed name self.now.active result }
    {
        match self.active {
            Some(active) if active.name == name => None,
            active => active,
        }
    }

    /// What the next entry, which is this one, leaves to be known of the DCBs and of the requests that wait.
    fn note_doom(&mut self, entry: &Entry, number: usize)
        requires knows { Knows self.old }
        requires follows { IsAfter entry.now (before self.old) }
        requires number { number ≡ self.old.done + 1 }
        ensures doom { is_doom self.new.cause ≡ true }
        ensures dooms { DoomsBy (room_of_state self.old) (entry.now ∷ before self.old) self.new.cause }
        ensures dcbs { KnowsDcbs (entry.now ∷ before self.old) self.new.dcbs.now }
        ensures room { room_of_state self.new ≡ room_of_state self.old }
        ensures trace { self.new.trace.now ≡ self.old.trace.now }
        ensures done { self.new.done ≡ self.old.done }
        ensures active { self.new.active ≡ self.old.active }
    {
        match entry {
            Entry::Opened(_, _, _) => self.dcbs.open_next(),
            Entry::Arrive(issued) => self.cause = self.on_arrival(issued.dcb()),
            Entry::Purge(_, _) => self.note_purge(number),
            Entry::Close(dcb) => self.note_close(*dcb, number),
            Entry::Post(name, _, _, code) => self.note_post(*name, *code, number),
            _ => {}
        }
    }

    /// Why a request that arrives for this DCB is posted at once, if it is.
    fn on_arrival(&self, dcb: u16) -> PostCause
        ensures { result ≡ arrival_cause (known_at dcb self.now.dcbs.now) }
    {
        if self.dcbs.is_open(dcb) {
            PostCause::RelatedError(self.dcbs.flagged_by(dcb))
        } else {
            PostCause::NotOpen(self.dcbs.closed_by(dcb))
        }
    }

    fn note_purge(&mut self, number: usize)
        ensures cause { self.new.cause ≡ PostCause.Purge number }
        ensures dcbs { self.new.dcbs.now ≡ self.old.dcbs.now }
        ensures trace { self.new.trace.now ≡ self.old.trace.now }
        ensures done { self.new.done ≡ self.old.done }
        ensures active { self.new.active ≡ self.old.active }
    {
        self.cause = PostCause::Purge(number);
    }

    fn note_close(&mut self, dcb: u16, number: usize)
        ensures cause { self.new.cause ≡ PostCause.Close number }
        ensures dcbs { ChangesDcb self.old.dcbs.now self.new.dcbs.now dcb (closed_at number) }
        ensures trace { self.new.trace.now ≡ self.old.trace.now }
        ensures done { self.new.done ≡ self.old.done }
        ensures active { self.new.active ≡ self.old.active }
    {
        self.dcbs.close(dcb, number);
        self.cause = PostCause::Close(number);
    }

    /// A request ends, with this code.
    fn note_post(&mut self, name: Name, code: Code, number: usize)
        requires knows { Knows self.old }
        requires error { is_error code ≡ true → ErrorFollows name (before self.old) }
        ensures error { is_error code ≡ true → self.new.cause ≡ PostCause.RelatedError (Some number) }
        ensures dcbs { is_error code ≡ true →
            NotesError (request_named name (before self.old)) number self.old.dcbs.now self.new.dcbs.now }
        ensures other { is_error code ≡ false → self.new.cause ≡ self.old.cause }
        ensures other_dcbs { is_error code ≡ false → self.new.dcbs.now ≡ self.old.dcbs.now }
        ensures trace { self.new.trace.now ≡ self.old.trace.now }
        ensures done { self.new.done ≡ self.old.done }
        ensures active { self.new.active ≡ self.old.active }
    {
        if code.is_error() {
            self.note_error(name, number);
        }
    }

    /// A request ends in error. Requests are started in the order of their arrivals, so the next search goes on from its own.
    fn note_error(&mut self, name: Name, number: usize)
        requires knows { Knows self.old }
        requires arrived { has_arrived name (before self.old) ≡ true }
        ensures cause { self.new.cause ≡ PostCause.RelatedError (Some number) }
        ensures dcbs { NotesError (request_named name (before self.old)) number self.old.dcbs.now self.new.dcbs.now }
        ensures trace { self.new.trace.now ≡ self.old.trace.now }
        ensures done { self.new.done ≡ self.old.done }
        ensures active { self.new.active ≡ self.old.active }
    {
        let (place, issued) = self.request(name);
        self.searched = place;
        self.cause = PostCause::RelatedError(Some(number));
        if issued.is_related() {
            self.dcbs.flag(issued.dcb(), number);
        }
    }

    /// The request of this name, as issued, and the index of its arrival.
    fn request(&self, name: Name) -> (usize, &'t Issued)
        requires knows { Knows self.now }
        requires arrived { has_arrived name (before self.now) ≡ true }
        ensures { result.1.now ≡ request_named name (before self.now) }
    {
        match self.active_named(name) {
            Some(active) => (active.place, active.issued),
            None => self.arrival(name),
        }
    }

    /// The request of this name, as issued, and the index of its arrival, found in the trace.
    fn arrival(&self, name: Name) -> (usize, &'t Issued)
        requires knows { Knows self.now }
        requires arrived { has_arrived name (before self.now) ≡ true }
        ensures { result.1.now ≡ request_named name (before self.now) }
    {
        let trace = &self.trace[..self.done];
        let Some(found) = find_arrival(trace, self.searched, name) else {
            unreachable!()
        };
        found
    }
}

impl<'t> StartedRequest<'t> {
    /// Why the next entry posts it, with this code. A post as purged has a purge that halts.
    fn cause(&self, code: Code) -> PostCause
        ensures { result ≡ ended_cause code self.now.is_halted self.now.halting }
    {
        match (code, self.halting) {
            (Code::Purged, Some(purge)) if self.is_halted => PostCause::Halt(purge),
            (Code::Purged, Some(purge)) => PostCause::NotTriedAgain(purge),
            (Code::Purged, None) => PostCause::Unknown,
            _ => PostCause::Program,
        }
    }

    /// The active request after a halt of the request with this name.
    fn halted_by(self, name: Name) -> StartedRequest<'t>
        ensures { result ≡ active_halted name self.entry }
    {
        StartedRequest {
            is_halted: self.is_halted || self.name == name,
            ..self
        }
    }

    /// The active request after a purge, which has this number.
    fn purged_by(self, scope: Scope, mode: Mode, number: usize) -> StartedRequest<'t>
        ensures { result ≡ purged_by scope mode number self.entry }
    {
        let halts = self.is_of(scope) && matches!(mode, Mode::Halt);
        StartedRequest {
            halting: halting_after(self.halting, halts, number),
            ..self
        }
    }

    /// Whether a scope covers it.
    fn is_of(&self, scope: Scope) -> bool
        ensures { result ≡ covers scope self.now.issued.now }
    {
        match scope {
            Scope::Task(task) => self.issued.name().task == task,
            Scope::Dcb(dcb) => self.issued.dcb() == dcb,
        }
    }
}

/// The number of the halting purge after one more purge, which halts or not.
fn halting_after(halting: Option<usize>, halts: bool, number: usize) -> Option<usize>
    ensures { result ≡ halting_after halting halts number }
{
    match halting {
        None if halts => Some(number),
        halting => halting,
    }
}

/// The index of the arrival of the active request, or the index that was searched last.
fn searched_after(active: Option<StartedRequest<'_>>, searched: usize) -> usize {
    match active {
        Some(active) => active.place,
        None => searched,
    }
}

/// Why a request that waits is posted with this code, if this is the cause of what is doomed.
fn waiting_cause(code: Code, doom: PostCause) -> PostCause
    ensures { result ≡ waiting_cause code doom }
{
    match code {
        Code::ExtentViolated => PostCause::OutsideExtents,
        _ => doom,
    }
}
