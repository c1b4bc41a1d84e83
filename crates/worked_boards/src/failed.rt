//! Failures that can be let go.
use std::alloc::AllocError;

/// A case went wrong, for this reason.
#[derive(Drop)]
pub(crate) struct Failed(pub &'static str);

impl From<AllocError> for Failed {
    fn from(_error: AllocError) -> Failed {
        Failed("out of memory")
    }
}
