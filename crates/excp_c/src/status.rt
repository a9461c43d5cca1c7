//! The statuses of c/excp.h.

ghost use Rattle.std.specs.Prelude.{◌≡◌, ◌≢◌, IsErr, MatchResult};
ghost use Rattle.excp_site.specs.Reasons.{LeavesReason};
ghost use Rattle.excp_c.specs.Statuses.{status_in_c};

use excp_site::{Refusal, RefusedCall, Site};

pub(crate) const OK: u32 = 0;

pub(crate) const NO_SITE: u32 = 3;

pub(crate) const SITE_IN_USE: u32 = 4;

/// The status of a refusal.
pub(crate) fn status_in_c(refusal: Refusal) -> u32
    ensures number { result ≡ status_in_c refusal }
    ensures not_ok { result ≢ 0 }
    ensures site { result ≢ 3 }
{
    match refusal {
        Refusal::NoMemory => 1,
        Refusal::BadNumber => 5,
        Refusal::NoUnit => 6,
        Refusal::NoTask => 7,
        Refusal::NoDcb => 8,
        Refusal::TooManyUnits => 9,
        Refusal::TooManyDcbs => 10,
        Refusal::BadGeometry => 11,
        Refusal::BadMedium => 12,
        Refusal::BadImage => 13,
        Refusal::NoImage => 14,
        Refusal::BadExtent => 15,
        Refusal::AreaMisaligned => 16,
        Refusal::AreaTooLong => 17,
        Refusal::AreaPastTop => 18,
        Refusal::BadIob => 19,
        Refusal::BadEcb => 20,
        Refusal::BadProgram => 21,
        Refusal::WrongDcb => 22,
        Refusal::Full => 23,
        Refusal::NoNumber => 24,
        Refusal::NoPost => 25,
        Refusal::NoRoom => 26,
        Refusal::NothingThere => 27,
        Refusal::NotIdle => 28,
        Refusal::InError => 29,
    }
}

/// The status of what was done or refused.
pub(crate) fn done(answered: Result<(), Refusal>) -> u32
    ensures status { MatchResult answered (λ _. result ≡ 0) (λ e. result ≡ status_in_c e) }
    ensures refused { result ≢ 0 → IsErr answered }
    ensures site { result ≢ 3 }
{
    match answered {
        Ok(()) => OK,
        Err(refusal) => status_in_c(refusal),
    }
}

/// Writes out what was answered, and returns the status.
pub(crate) fn give<T: Drop>(answered: Result<T, Refusal>, out: &mut T) -> u32
    ensures status { MatchResult answered (λ x. (result ≡ 0) × (out.new ≡ x)) (λ e. (result ≡ status_in_c e) × (out.new ≡ out.old)) }
    ensures refused { result ≢ 0 → IsErr answered }
    ensures site { result ≢ 3 }
{
    match answered {
        Ok(answer) => {
            *out = answer;
            OK
        }
        Err(refusal) => status_in_c(refusal),
    }
}

/// Writes out what was answered, or explains why it was refused. Returns the status.
pub(crate) fn give_or_explain<T: Drop>(
    site: &mut Site,
    answered: Result<T, Refusal>,
    call: RefusedCall<'_>,
    out: &mut T,
) -> u32
    ensures status { MatchResult answered (λ x. (result ≡ 0) × (out.new ≡ x) × (site.new ≡ site.old)) (λ e. (result ≡ status_in_c e) × (out.new ≡ out.old) × LeavesReason site.old site.new e) }
    ensures refused { result ≢ 0 → IsErr answered }
    ensures site { result ≢ 3 }
{
    match answered {
        Ok(answer) => {
            *out = answer;
            OK
        }
        Err(refusal) => {
            site.explain(refusal, call);
            status_in_c(refusal)
        }
    }
}
