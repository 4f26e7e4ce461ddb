//! Why a call doesn't begin.
use board_model::Reason;
use std::alloc::AllocError;

/// Why a call doesn't begin: the script is told the reason, or memory was refused.
#[derive(Clone, Copy, Debug)]
pub(crate) enum NotBegun {
    Refused(Reason),
    OutOfMemory,
}

impl From<Reason> for NotBegun {
    ghost use Rattle.std.specs.Prelude.{◌≡◌};
    ghost use Rattle.script_boards.specs.declared.not_begun.NotBegun.TheVariants.{Refused};

    ghost from_gives = { λ why e. e ≡ Refused why };

    fn from(why: Reason) -> NotBegun {
        NotBegun::Refused(why)
    }
}

impl From<AllocError> for NotBegun {
    ghost use Rattle.std.specs.Prelude.{◌≡◌};
    ghost use Rattle.script_boards.specs.declared.not_begun.NotBegun.TheVariants.{OutOfMemory};

    ghost from_gives = { λ _ e. e ≡ OutOfMemory };

    fn from(_error: AllocError) -> NotBegun {
        NotBegun::OutOfMemory
    }
}
