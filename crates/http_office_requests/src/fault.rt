//! Why a path and a body ask nothing of a channel.
use std::alloc::AllocFailed;
use timecode::Unavailable;

/// Why there is no command.
#[derive(Clone, Copy)]
pub(crate) enum AskFault {
    /// A number that its path is to have isn't there.
    NotFound,
    /// The body isn't one of it.
    BadBody,
    /// Want of memory.
    Unavailable,
}

impl From<Unavailable> for AskFault {
    ghost use Rattle.std.specs.Prelude.{◌≡◌};
    ghost use Rattle.http_office_requests.specs.declared.fault.AskFault.TheVariants.{Unavailable};

    ghost from_gives = { λ _ fault. fault ≡ Unavailable };

    fn from(_fault: Unavailable) -> AskFault {
        AskFault::Unavailable
    }
}

impl<T: Drop> From<AllocFailed<T>> for AskFault {
    ghost use Rattle.std.specs.Prelude.{◌≡◌};
    ghost use Rattle.http_office_requests.specs.declared.fault.AskFault.TheVariants.{Unavailable};

    ghost from_gives = { λ _ fault. fault ≡ Unavailable };

    fn from(_fault: AllocFailed<T>) -> AskFault {
        AskFault::Unavailable
    }
}
