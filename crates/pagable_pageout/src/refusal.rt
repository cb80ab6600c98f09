//! The error for a failed page-out.

ghost use Rattle.pagable_pageout.specs.declared.tasks.PageOutError.{PageOutError};
ghost use Rattle.std.specs.Prelude.{◌≡◌};

use crate::tasks::PageOutError;
use pagable_value_spec::{Error, Reason};

/// The worker's own error; for another worker's failure, a `Custom` error that says so.
impl From<PageOutError> for Error {
    ghost use Rattle.pagable_value_spec.specs.declared.error.Error.{Error as Refusal};

    ghost from_gives = { λ why e. (cause : Refusal) → why ≡ PageOutError.Failed cause → e ≡ cause };

    fn from(why: PageOutError) -> Error {
        match why {
            PageOutError::Failed(e) => e,
            PageOutError::AlreadyFailed => Error::Custom(Reason::new("another worker failed here")),
        }
    }
}
