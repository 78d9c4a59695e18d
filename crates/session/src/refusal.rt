//! Why an edit or a step was refused.

ghost use Rattle.std.specs.Prelude.{◌≡◌};
ghost use Rattle.session.specs.declared.refusal.Refusal.TheVariants.{Memory};
ghost use Rattle.session.specs.Refusal.{number_of, of_edits};

use dimacs_text::CommandFault;
use std::alloc::AllocError;
use thiserror::Error;

/// Why an edit was refused.
#[derive(Debug, Drop, Error)]
pub enum Refusal {
    /// The network does not allow it, by the number that `Network::edited` gives.
    #[error("the edit is refused by number {0}")]
    Cause(u8),
    /// Memory for the step was refused.
    #[error("want of memory")]
    Memory,
}

impl From<AllocError> for Refusal {
    ghost from_gives = { λ _ refusal. refusal ≡ Memory };

    fn from(_refused: AllocError) -> Refusal {
        Refusal::Memory
    }
}

/// Why a step was refused.
#[derive(Clone, Copy, Debug, PartialEq, Eq, Error)]
pub enum StepRefusal {
    /// A line or an edit fails a check, by the number that `read_command`, `Group::fault` or `Network::edited_all` gives.
    #[error("refused by number {0}")]
    Cause(u8),
    #[error("there is no past moment")]
    NothingToUndo,
    #[error("there is no future moment")]
    NothingToRedo,
    /// No moment bears the name.
    #[error("no moment has a mark of this name")]
    NoSuchMark,
    /// A line `group` or `end` is no step by itself.
    #[error("no group opens or ends here")]
    OutOfPlace,
    /// Memory for the step was refused.
    #[error("want of memory")]
    Memory,
    /// `MARK_LIMIT` other names have marks.
    #[error("as many other names have marks as may")]
    TooManyMarks,
}

impl StepRefusal {
    /// The number that the refusal is reported by; a line or an edit that is refused keeps its own.
    pub fn number(self) -> u8
        ensures { result ≡ number_of self }
    {
        match self {
            StepRefusal::Cause(number) => number,
            StepRefusal::NothingToUndo => 25,
            StepRefusal::NothingToRedo => 26,
            StepRefusal::NoSuchMark => 28,
            StepRefusal::OutOfPlace => CommandFault::OutOfPlace.number(),
            StepRefusal::Memory => 30,
            StepRefusal::TooManyMarks => 33,
        }
    }
}

impl From<Refusal> for StepRefusal {
    ghost from_gives = { λ refusal step. step ≡ of_edits refusal };

    fn from(refusal: Refusal) -> StepRefusal {
        match refusal {
            Refusal::Cause(number) => StepRefusal::Cause(number),
            Refusal::Memory => StepRefusal::Memory,
        }
    }
}
