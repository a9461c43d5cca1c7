//! Events and controls (c/excp.h, "Events" and "Controls").

ghost use Rattle.std.specs.Prelude.{◌≡◌, ◌≢◌, ◌<◌};
ghost use Rattle.unit_book.specs.Book.{occupancy};
ghost use Rattle.excp_site.specs.Refusals.{UnitRefused};
ghost use Rattle.excp_site.specs.Serving.{HasSettled, IsServedFor, ServeRefused, SettleRefused};
ghost use Rattle.excp_site.specs.Sites.{IssueCallRefused};
ghost use Rattle.excp_c.specs.Answers.{of_answer, of_delivery, of_intake};
ghost use Rattle.excp_c.specs.Done.{SiteDelivers, Did, IssuesAs, Made, NumberedRefused, OnlyPlain, Refused, RefusedAs, SiteSettles, SiteSteps, SiteTakes};
ghost use Rattle.excp_c.specs.Calls.{KeepsSite, SameSite, TestsSite};
ghost use Rattle.excp_c.specs.Numbers.{control_from_c, mode_from_c, step_from_c};

use crate::answer::{Answer, Event};
use crate::handle::Handle;
use crate::status::{NO_SITE, OK, done, give, status_in_c};
use excp_site::{Refusal, RefusedCall, Served};
use request_piece::Scope;
use unit_book::{Control, Mode, UnitStep};

/// `excp_issue`.
#[unsafe(no_mangle)]
pub extern "C" fn excp_call_issue(
    handle: &mut Handle,
    task: u16,
    unit: u16,
    dcb: u16,
    iob: u32,
    base: u32,
    storage: &[u8],
    number: &mut u64,
) -> u32
    ensures site { TestsSite handle.old result }
    ensures keeps { KeepsSite handle.old handle.new }
    ensures done { result ≡ 0 → Did handle.old handle.new (IssuesAs task unit dcb iob (record { base = base; bytes = storage.now }) number.new) }
    ensures why { result ≢ 0 → result ≢ 3 → RefusedAs handle.old handle.new result (λ s. IssueCallRefused s.plain task unit dcb iob (record { base = base; bytes = storage.now })) }
    ensures refused { result ≢ 0 → number.new ≡ number.old }
    ensures none { result ≡ 3 → SameSite handle.old handle.new }
{
    let Some(site) = handle.site() else {
        return NO_SITE;
    };
    match site.issue(task, unit, dcb, iob, base, storage) {
        Ok(name) => {
            *number = site.number(unit, name);
            OK
        }
        Err(refusal) => {
            let call = RefusedCall::Issue {
                dcb,
                iob,
                base,
                storage,
            };
            site.explain(refusal, call);
            status_in_c(refusal)
        }
    }
}

/// `excp_take`.
#[unsafe(no_mangle)]
pub extern "C" fn excp_call_take(handle: &mut Handle, unit: u16, answer: &mut Answer) -> u32
    ensures site { TestsSite handle.old result }
    ensures keeps { KeepsSite handle.old handle.new }
    ensures done { result ≡ 0 → Made of_intake unit (SiteTakes unit) handle.old handle.new answer.new }
    ensures why { result ≢ 0 → result ≢ 3 → Refused handle.old handle.new result (λ s _. UnitRefused s.plain unit (λ b. (occupancy b < b.capacity) × (b.spare < 2))) }
    ensures refused { result ≢ 0 → SameSite handle.old handle.new × (answer.new ≡ answer.old) }
{
    let Some(site) = handle.site() else {
        return NO_SITE;
    };
    match site.take(unit) {
        Ok(did) => {
            *answer = Event::from(did).answer(site, unit);
            OK
        }
        Err(refusal) => status_in_c(refusal),
    }
}

/// The step of a kind: 0 start, 1 run of `number` commands, 2 interrupt, and those of `control_from_c`.
fn step_from_c(kind: u8, number: u32, mode: u8) -> Option<UnitStep>
    ensures { result ≡ step_from_c kind number mode }
{
    match kind {
        0 => Some(UnitStep::Start),
        1 => Some(UnitStep::Run(number)),
        2 => Some(UnitStep::Interrupt),
        _ => Some(UnitStep::Control(control_from_c(kind, number, mode)?)),
    }
}

/// The control of a kind: 3 purge of the DCB `number` and 4 of the task `number`, by `mode`; 5 close and 6 reset of the DCB `number`.
fn control_from_c(kind: u8, number: u32, mode: u8) -> Option<Control>
    ensures { result ≡ control_from_c kind number mode }
{
    let Ok(number) = u16::try_from(number) else {
        return None;
    };
    match kind {
        3 => Some(Control::Purge(Scope::Dcb(number), mode_from_c(mode)?)),
        4 => Some(Control::Purge(Scope::Task(number), mode_from_c(mode)?)),
        5 => Some(Control::Close(number)),
        6 => Some(Control::Reset(number)),
        _ => None,
    }
}

/// The mode with this number, `EXCP_QUIESCE` or `EXCP_HALT`.
fn mode_from_c(number: u8) -> Option<Mode>
    ensures { result ≡ mode_from_c number }
{
    match number {
        0 => Some(Mode::Quiesce),
        1 => Some(Mode::Halt),
        _ => None,
    }
}

/// The step of the kind `kind` (`step_from_c`), for `excp_start`, `excp_run`, `excp_interrupt`, `excp_purge`, `excp_purge_task`,
/// `excp_close` and `excp_reset`.
#[unsafe(no_mangle)]
pub extern "C" fn excp_call_step(
    handle: &mut Handle,
    unit: u16,
    kind: u8,
    number: u32,
    mode: u8,
    answer: &mut Answer,
) -> u32
    ensures site { TestsSite handle.old result }
    ensures keeps { KeepsSite handle.old handle.new }
    ensures done { result ≡ 0 → Made of_answer unit (SiteSteps unit (step_from_c kind number mode)) handle.old handle.new answer.new }
    ensures why { result ≢ 0 → result ≢ 3 → Refused handle.old handle.new result (λ s _. NumberedRefused s.plain unit (step_from_c kind number mode)) }
    ensures refused { result ≢ 0 → SameSite handle.old handle.new × (answer.new ≡ answer.old) }
{
    let Some(site) = handle.site() else {
        return NO_SITE;
    };
    match step_from_c(kind, number, mode) {
        Some(step) => match site.step(unit, step) {
            Ok(did) => {
                *answer = Event::from(did).answer(site, unit);
                OK
            }
            Err(refusal) => status_in_c(refusal),
        },
        None => status_in_c(Refusal::BadNumber),
    }
}

/// `excp_deliver`.
#[unsafe(no_mangle)]
pub extern "C" fn excp_call_deliver(handle: &mut Handle, unit: u16, answer: &mut Answer) -> u32
    ensures site { TestsSite handle.old result }
    ensures keeps { KeepsSite handle.old handle.new }
    ensures done { result ≡ 0 → Made of_delivery unit (SiteDelivers unit) handle.old handle.new answer.new }
    ensures why { result ≢ 0 → result ≢ 3 → Refused handle.old handle.new result (λ s _. UnitRefused s.plain unit (λ _. ⊥)) }
    ensures refused { result ≢ 0 → SameSite handle.old handle.new × (answer.new ≡ answer.old) }
{
    let Some(site) = handle.site() else {
        return NO_SITE;
    };
    match site.deliver(unit) {
        Ok(did) => {
            *answer = Event::from(did).answer(site, unit);
            OK
        }
        Err(refusal) => status_in_c(refusal),
    }
}

/// `excp_serve`.
#[unsafe(no_mangle)]
pub extern "C" fn excp_call_serve(
    handle: &mut Handle,
    unit: u16,
    max_commands: u32,
    served: &mut Served,
) -> u32
    ensures site { TestsSite handle.old result }
    ensures keeps { KeepsSite handle.old handle.new }
    ensures done { result ≡ 0 → Did handle.old handle.new (λ s t. IsServedFor s.plain unit max_commands served.new t.plain × OnlyPlain s t) }
    ensures why { result ≢ 0 → result ≢ 3 → Refused handle.old handle.new result (λ s t e. ServeRefused s.plain unit max_commands t.plain e × OnlyPlain s t) }
    ensures none { result ≡ 3 → SameSite handle.old handle.new }
    ensures refused { result ≢ 0 → served.new ≡ served.old }
{
    let Some(site) = handle.site() else {
        return NO_SITE;
    };
    give(site.serve(unit, max_commands), served)
}

/// `excp_settle`.
#[unsafe(no_mangle)]
pub extern "C" fn excp_call_settle(handle: &mut Handle, unit: u16) -> u32
    ensures site { TestsSite handle.old result }
    ensures keeps { KeepsSite handle.old handle.new }
    ensures done { result ≡ 0 → Did handle.old handle.new (SiteSettles unit) }
    ensures why { result ≢ 0 → result ≢ 3 → Refused handle.old handle.new result (λ s t e. HasSettled s.plain unit t.plain × SettleRefused s.plain unit t.plain e × OnlyPlain s t) }
    ensures none { result ≡ 3 → SameSite handle.old handle.new }
{
    let Some(site) = handle.site() else {
        return NO_SITE;
    };
    done(site.settle(unit))
}
