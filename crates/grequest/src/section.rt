//! The sections of a request.

/// A section of a request that has a command (gitprotocol-v2(5), "Command Request").
#[derive(Clone, Copy, Debug, PartialEq, Eq)]
pub(crate) enum Section {
    Capabilities,
    Arguments,
}
