//! Why a call on an iterator register is refused.

use thiserror::Error;

/// Why a call on an iterator register is refused. Nothing is changed then.
#[derive(Clone, Copy, Debug, PartialEq, Eq, Error)]
pub enum IterRefusal {
    /// The register is closed. This comes before the other refusals.
    #[error("the register is closed")]
    Closed,
    /// The offset is 2^32 or more.
    #[error("the offset is 2^32 or more")]
    Offset,
    /// 64 other offsets are buffered.
    #[error("64 other offsets are buffered")]
    BufferFull,
}
