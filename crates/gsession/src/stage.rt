//! The stages of a session.

/// The stage of a session. The stage and the open request determine which calls the session allows.
#[derive(Clone, Copy, Drop)]
pub enum Stage {
    /// The session requests the refs of the server.
    Listing,
    /// The session requests the wanted objects.
    Fetching,
    /// The session needs nothing more from the server, and can update the local refs.
    Settling,
    /// The session is over.
    Over,
}
