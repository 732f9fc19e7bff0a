//! The faults of HTTP messages.

/// What is wrong with an HTTP message.
#[derive(Clone, Copy, Debug, PartialEq, Eq)]
pub enum BadKind {
    /// No empty line within the longest head.
    HeadTooLong,
    /// The head is no complete request head, or has too many fields.
    Head,
    /// A Transfer-Encoding field.
    Chunked,
    /// A Content-Length of another spelling, or two of them.
    Length,
    BodyTooLong,
}
