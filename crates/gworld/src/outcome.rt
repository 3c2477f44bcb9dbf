//! The outcomes of events.

/// The outcome of an event.
#[derive(Clone, Copy, Debug, PartialEq, Eq, Drop)]
pub enum Outcome {
    /// The event succeeded.
    Done,
    /// The client sent the request at index `request` in the list of sent requests.
    Asked {
        request: usize,
    },
    /// The server made the reply at index `reply` in the list of kept replies.
    Served {
        reply: usize,
    },
    /// The server wrote `written` bytes to the unknown client.
    StrangerServed {
        written: u128,
    },
    /// The client accepted an ls-refs reply. The session now has `asks` requested ref updates and
    /// `wants` wants.
    LsTaken {
        asks: usize,
        wants: usize,
    },
    /// The client accepted acknowledgments, and the session now has `common` common ids.
    Round {
        common: usize,
    },
    /// The client accepted a pack, and gained `added` new objects.
    PackTaken {
        added: usize,
    },
    /// The session settled. The fields count the refs that moved, the refs that already had their
    /// ids, and the refs whose update was not a fast-forward.
    Settled {
        moved: usize,
        same: usize,
        not_forward: usize,
    },
    /// The event failed with the fault that has this number. [`World::run`](crate::World::run)
    /// lists the numbers for each event.
    Fault {
        code: u32,
    },
}
