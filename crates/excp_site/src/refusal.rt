//! Why a call of a site does nothing.

ghost use Rattle.std.specs.Prelude.{◌≡◌};
ghost use Rattle.excp_site.specs.Refusals.{of_area, of_dcb, of_mount, of_open, of_request};
ghost use Rattle.excp_site.specs.declared.refusal.Refusal.TheVariants as refusals;

use device_port::MountError;
use io_area::AreaError;
use request_piece::RequestError;
use std::alloc::{AllocError, AllocFailed};
use thiserror::Error;
use unit_book::{DcbError, OpenError};

/// Why a call of a site does nothing (profile).
#[derive(Clone, Copy, PartialEq, Eq, Debug, Error)]
pub enum Refusal {
    #[error("out of memory")]
    NoMemory,
    #[error("a number is outside its range")]
    BadNumber,
    #[error("the site has no such unit")]
    NoUnit,
    #[error("the site has no such task")]
    NoTask,
    #[error("the unit has no such DCB")]
    NoDcb,
    #[error("the site has 65,535 units, which is the most")]
    TooManyUnits,
    #[error("the unit has 65,535 DCBs, which is the most")]
    TooManyDcbs,
    #[error("the size of the medium is outside its range")]
    BadGeometry,
    #[error("what was put is not of the medium, or does not fit it; or the unit has another device")]
    BadMedium,
    #[error("the image breaks a rule of its format, or does not fit the tape")]
    BadImage,
    #[error("no image has such a disk")]
    NoImage,
    #[error("an extent is not one of the device, or is not 16 bytes")]
    BadExtent,
    #[error("the base of the storage is not a multiple of 8")]
    AreaMisaligned,
    #[error("the storage has over 8,192 bytes")]
    AreaTooLong,
    #[error("the storage ends past 2^24")]
    AreaPastTop,
    #[error("the IOB is not on a fullword in the storage")]
    BadIob,
    #[error("the ECB is not on a fullword in the storage and outside the IOB")]
    BadEcb,
    #[error("the channel program is not on a doubleword in the storage")]
    BadProgram,
    #[error("the IOB names another DCB")]
    WrongDcb,
    #[error("as many requests are in flight to the unit as may be")]
    Full,
    #[error("the task has used its last number at the unit")]
    NoNumber,
    #[error("no post was delivered to the task that it has not collected")]
    NoPost,
    #[error("the buffer is too short, or so many bytes were not made")]
    NoRoom,
    #[error("no request, record or line is at that place")]
    NothingThere,
    #[error("a request is in flight, waits, is active or out, or a post is not collected")]
    NotIdle,
    #[error("a DCB is in error")]
    InError,
}

impl From<AllocError> for Refusal {
    ghost from_gives = { λ _ e. e ≡ refusals.NoMemory };

    fn from(_error: AllocError) -> Refusal {
        Refusal::NoMemory
    }
}

impl<T: Drop> From<AllocFailed<T>> for Refusal {
    ghost from_gives = { λ _ e. e ≡ refusals.NoMemory };

    fn from(_error: AllocFailed<T>) -> Refusal {
        Refusal::NoMemory
    }
}

impl From<AreaError> for Refusal {
    ghost from_gives = { λ error e. e ≡ of_area error };

    fn from(error: AreaError) -> Refusal {
        match error {
            AreaError::Misaligned => Refusal::AreaMisaligned,
            AreaError::TooLong => Refusal::AreaTooLong,
            AreaError::PastTop => Refusal::AreaPastTop,
            AreaError::NoMemory => Refusal::NoMemory,
        }
    }
}

impl From<RequestError> for Refusal {
    ghost from_gives = { λ error e. e ≡ of_request error };

    fn from(error: RequestError) -> Refusal {
        match error {
            RequestError::IobPlace => Refusal::BadIob,
            RequestError::EcbPlace => Refusal::BadEcb,
            RequestError::ProgramPlace => Refusal::BadProgram,
            RequestError::DcbMismatch => Refusal::WrongDcb,
            RequestError::NoMemory => Refusal::NoMemory,
        }
    }
}

impl From<MountError> for Refusal {
    ghost from_gives = { λ error e. e ≡ of_mount error };

    fn from(error: MountError) -> Refusal {
        match error {
            MountError::BadGeometry => Refusal::BadGeometry,
            MountError::BadMedium => Refusal::BadMedium,
            MountError::NoMemory => Refusal::NoMemory,
        }
    }
}

impl From<OpenError> for Refusal {
    ghost from_gives = { λ error e. e ≡ of_open error };

    fn from(error: OpenError) -> Refusal {
        match error {
            OpenError::TooManyDcbs => Refusal::TooManyDcbs,
            OpenError::BadExtent => Refusal::BadExtent,
            OpenError::NoMemory => Refusal::NoMemory,
        }
    }
}

impl From<DcbError> for Refusal {
    ghost from_gives = { λ error e. e ≡ of_dcb error };

    fn from(error: DcbError) -> Refusal {
        match error {
            DcbError::NoSuchDcb => Refusal::NoDcb,
            DcbError::NoMemory => Refusal::NoMemory,
        }
    }
}
