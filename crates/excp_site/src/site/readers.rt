//! What a site tells of its units. Each reader copies out, and allocates nothing.

ghost use Rattle.std.specs.Prelude.{◌≡◌, ◌≤◌, ◌<◌, ◌↔◌, IfErr, IfOk, Some};
ghost use Rattle.unit_book.specs.Book.{occupancy};
ghost use Rattle.excp_site.specs.Looks.{ActiveRefused, DcbLookRefused, EntryRefused, IsPlace, IsTrackUnder, LookRefused, ShowsActive, ShowsDcb, ShowsUnit, TraceAt, WaitingRefused, WaitsAt, active_request, device_now, number_active, oldest_first, printed_by, state_active, task_active};
ghost use Rattle.excp_site.specs.Sites.{HasPart};

use crate::refusal::Refusal;
use crate::site::Site;
use crate::state::{
    ActiveRequest, DcbState, Place, UnitState, active_number, as_bit, count_of, dcb_number,
    kind_number,
};
use any_device::AnyDevice;
use ckd_disk::Disk;
use device_port::Device;
use request_piece::Name;
use unit_book::{Activity, ActivityPhase, DcbState as OfDcb, Entry, UnitBook};
use unit_world::ActiveState;

impl Site {
    /// A unit as it is.
    ///
    /// Error: `NoUnit`.
    pub fn look(&self, unit: u16) -> Result<UnitState, Refusal>
        ensures ok { IfOk result (λ u. HasPart self.now.plain unit (λ p. ShowsUnit self.now unit p u)) }
        ensures refused { IfErr result (LookRefused self.now.plain unit) }
    {
        self.has_unit(unit)?;
        let book = self.plain.book(unit);
        let in_flight = self.plain.flight_len(unit);
        let in_flight_room = self.plain.intake_room(unit).saturating_sub(in_flight);
        let (active_number, active_task, active) = self.shown(unit, self.plain.active(unit));
        Ok(UnitState {
            active_number,
            in_flight: count_of(in_flight),
            in_flight_room: count_of(in_flight_room),
            waiting: count_of(book.waiting_len()),
            out: count_of(book.out_len()),
            printed: count_of(printed(book.device())),
            active_task,
            active,
            kind: kind_number(book.device().kind()),
            has_room: has_room(book),
        })
    }

    /// The number and the task of the active request of a unit, and what it waits for, or 0.
    fn shown(&self, unit: u16, active: Option<(Name, ActiveState)>) -> (u64, u16, u8)
        ensures number { result.0 ≡ number_active self.now unit active }
        ensures task { result.1 ≡ task_active active }
        ensures state { result.2 ≡ state_active active }
    {
        match active {
            Some((name, state)) => (self.number(unit, name), name.task, active_number(state)),
            None => (0, 0, 0),
        }
    }

    /// A DCB of a unit as it is.
    ///
    /// Errors: `NoUnit`, `NoDcb`.
    pub fn look_dcb(&self, unit: u16, dcb: u16) -> Result<DcbState, Refusal>
        ensures ok { IfOk result (λ d. HasPart self.now.plain unit (λ p. ShowsDcb p dcb d)) }
        ensures refused { IfErr result (DcbLookRefused self.now.plain unit dcb) }
    {
        self.has_unit(unit)?;
        let book = self.plain.book(unit);
        match book.dcb_state(dcb) {
            OfDcb::Unknown => Err(Refusal::NoDcb),
            state => Ok(DcbState {
                state: dcb_number(state),
                in_error: as_bit(book.dcb_flag(dcb)),
                file_mask: book.mask(dcb),
            }),
        }
    }

    /// The active request of a unit.
    ///
    /// Errors: `NoUnit`; `NothingThere` if none is active.
    pub fn active(&self, unit: u16) -> Result<ActiveRequest, Refusal>
        ensures ok { IfOk result (λ a. HasPart self.now.plain unit (λ p. ShowsActive self.now unit p a)) }
        ensures refused { IfErr result (ActiveRefused self.now.plain unit) }
    {
        self.has_unit(unit)?;
        match self.plain.book(unit).activity() {
            Some(activity) => Ok(self.active_request(unit, &activity)),
            None => Err(Refusal::NothingThere),
        }
    }

    /// The active request of a unit with this activity.
    fn active_request(&self, unit: u16, activity: &Activity<'_>) -> ActiveRequest
        ensures { result ≡ active_request self.now unit activity.now.piece.now activity.now.starts activity.now.phase }
    {
        ActiveRequest {
            number: self.number(unit, activity.piece.name),
            next: match &activity.phase {
                ActivityPhase::Running(place) => place.next(),
                ActivityPhase::Pending(_) | ActivityPhase::AwaitsRestart(_) => 0,
            },
            attempt: activity.starts,
            task: activity.piece.name.task,
            dcb: activity.piece.dcb,
        }
    }

    /// Where the device of a unit is on its medium.
    ///
    /// Error: `NoUnit`.
    pub fn place(&self, unit: u16) -> Result<Place, Refusal>
        ensures ok { IfOk result (λ place. HasPart self.now.plain unit (λ p. IsPlace (device_now p.book) place)) }
        ensures refused { IfErr result (LookRefused self.now.plain unit) }
    {
        self.has_unit(unit)?;
        Ok(place_of(self.plain.book(unit).device()))
    }

    /// The request that waits at a place, counted from 0 in the order in which they are started.
    ///
    /// Errors: `NoUnit`, `NothingThere`.
    pub fn waiting(&self, unit: u16, place: u32) -> Result<Name, Refusal>
        ensures ok { IfOk result (λ name. HasPart self.now.plain unit (λ p. WaitsAt p place name)) }
        ensures refused { IfErr result (WaitingRefused self.now.plain unit place) }
    {
        self.has_unit(unit)?;
        let book = self.plain.book(unit);
        match book.waiting_name(place as usize) {
            Some(name) => Ok(name),
            None => Err(Refusal::NothingThere),
        }
    }

    /// The entry at a place of the trace of a unit, counted from 0, the oldest first. Of those before its last checkpoint, openings
    /// and closes stay.
    ///
    /// Errors: `NoUnit`, `NothingThere`.
    pub fn entry(&self, unit: u16, place: u32) -> Result<&Entry, Refusal>
        ensures ok { IfOk result (λ entry. HasPart self.now.plain unit (λ p. TraceAt p place (Some entry.now))) }
        ensures refused { IfErr result (EntryRefused self.now.plain unit place) }
    {
        self.has_unit(unit)?;
        match entries(self.plain.book(unit)).get(place as usize) {
            Some(entry) => Ok(entry),
            None => Err(Refusal::NothingThere),
        }
    }
}

/// The entries of a book, the oldest first.
fn entries(book: &UnitBook<AnyDevice>) -> &[Entry]
    ensures { result.now ≡ oldest_first book.now }
{
    book.trace()
}

/// How many lines a printer printed; 0 for other devices.
fn printed(device: &AnyDevice) -> usize
    ensures { result ≡ printed_by device.now }
{
    match device {
        AnyDevice::Printer(printer) => printer.printed().len(),
        _ => 0,
    }
}

/// Whether a book has room for another request.
fn has_room(book: &UnitBook<AnyDevice>) -> u8
    ensures value { (result ≡ 1) ↔ (occupancy book.now < book.now.capacity) }
    ensures bit { result ≤ 1 }
{
    if book.has_room() { 1 } else { 0 }
}

/// Where a device is on its medium.
fn place_of(device: &AnyDevice) -> Place
    ensures { IsPlace device.now result }
{
    let none = Place {
        items: 0,
        passed: 0,
        cylinder: 0,
        head: 0,
        page: 0,
        line: 0,
    };
    match device {
        AnyDevice::Disk(disk) => {
            let (cylinder, head) = track_of(disk);
            Place {
                cylinder,
                head,
                ..none
            }
        }
        AnyDevice::Tape(tape) => Place {
            items: count_of(tape.len()),
            passed: count_of(tape.place()),
            ..none
        },
        AnyDevice::Printer(printer) => {
            let position = printer.position();
            Place {
                page: position.page,
                line: u16::from(position.line),
                ..none
            }
        }
    }
}

/// The cylinder and the head of the track under the heads.
fn track_of(disk: &Disk) -> (u16, u16)
    ensures { IsTrackUnder disk.now result.0 result.1 }
{
    let heads = usize::from(disk.heads());
    if heads == 0 {
        return (0, 0);
    }
    let track = disk.track();
    (
        u16::try_from(track / heads).unwrap_or(u16::MAX),
        u16::try_from(track % heads).unwrap_or(u16::MAX),
    )
}
