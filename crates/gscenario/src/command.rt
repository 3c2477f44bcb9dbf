//! The first word of each line of a scenario.

ghost use Rattle.std.specs.Prelude.{◌≡◌, ◌≢◌, MatchOption};
ghost use Rattle.gscenario.specs.ScenarioText.{command_text};

/// The first word of a line, which names the kind of event that the line describes.
#[derive(Clone, Copy, Drop)]
pub(crate) enum EventWord {
    Begin,
    Ask,
    Serve,
    Deliver,
    Forge,
    StrangeRequest,
    Settle,
    RestartClient,
    RestartServer,
    ServerAdd,
    ServerRef,
    ClientAdd,
    ClientRef,
}

impl EventWord {
    /// Returns the kind of event that the word names, or `None` if the word names no kind.
    pub(crate) fn of(word: &[u8]) -> Option<EventWord>
        ensures { MatchOption result (((c : EventWord) → word.now ≢ command_text c))
            (λ c. word.now ≡ command_text c) }
    {
        if word == b"begin".as_slice() {
            Some(EventWord::Begin)
        } else if word == b"ask".as_slice() {
            Some(EventWord::Ask)
        } else if word == b"serve".as_slice() {
            Some(EventWord::Serve)
        } else if word == b"deliver".as_slice() {
            Some(EventWord::Deliver)
        } else if word == b"forge".as_slice() {
            Some(EventWord::Forge)
        } else if word == b"stranger".as_slice() {
            Some(EventWord::StrangeRequest)
        } else if word == b"settle".as_slice() {
            Some(EventWord::Settle)
        } else if word == b"restart-client".as_slice() {
            Some(EventWord::RestartClient)
        } else if word == b"restart-server".as_slice() {
            Some(EventWord::RestartServer)
        } else if word == b"server-add".as_slice() {
            Some(EventWord::ServerAdd)
        } else if word == b"server-ref".as_slice() {
            Some(EventWord::ServerRef)
        } else if word == b"client-add".as_slice() {
            Some(EventWord::ClientAdd)
        } else if word == b"client-ref".as_slice() {
            Some(EventWord::ClientRef)
        } else {
            None
        }
    }
}
