//! Why a conversation breaks off.

/// Why a conversation breaks off.
#[derive(Clone, Copy, Debug, PartialEq, Eq)]
pub enum TalkFault {
    /// A read failed.
    ReadFailed,
    /// A write failed, or took no byte.
    WriteFailed,
    /// As many bytes were heard as may be, and the end did not come before.
    TooLong,
    /// Memory was refused.
    NoMemory,
}
