//! The reasons why a world can't be made, and why a run of events stops.

ghost use Rattle.std.specs.Prelude.{◌≡◌, Some};
ghost use Rattle.gworld.specs.Faults.{run_fault_row, run_fault_text, world_fault_row, world_fault_text};

use crate::outcome::Outcome;
use gname::Oid;
use gscenario::ScenarioFault;
use std::alloc::{Allocator, Global};
use std::error::Error;
use std::fmt;

/// The number of the fault for an event that adds an object, if the other end holds a different
/// object under the same id.
pub(crate) const DISAGREE: u32 = 90;

/// The number of the fault for an event whose index is outside the list of sent requests or the
/// list of kept replies.
pub(crate) const NO_SUCH_INDEX: u32 = 93;

/// The number of the fault for an event that needs a session, if there is no session or the session
/// is at the wrong stage.
pub(crate) const NO_OPEN_REQUEST: u32 = 83;

/// The number of the fault for an event that adds an object at the client, if the client's indexer
/// does not keep the id of the object.
pub(crate) const NOT_KEPT: u32 = 98;

/// The reason why a server and a client's repository can't form a world.
#[derive(Clone, Copy, Debug, PartialEq, Eq, Drop)]
pub enum WorldFault {
    /// Fault 97: server and client have different object formats.
    TwoFormats,
    /// Fault 90: server and client hold different objects under `id`. The fault gives the first
    /// such id, in the order of the server's objects.
    Disagree { id: Oid },
    /// Fault 98: the client holds `id`, which its indexer does not keep. The fault gives the first
    /// such id, in the order of the client's objects.
    NotKept { id: Oid },
}

impl WorldFault {
    /// Returns the number of the fault.
    pub fn code(&self) -> u32
        ensures { result ≡ (world_fault_row self.now).0 }
    {
        self.fault_row().0
    }

    /// Returns the name of the fault.
    pub fn name(&self) -> &'static str
        ensures { result.now ≡ (world_fault_row self.now).1 }
    {
        self.fault_row().1
    }

    // Returns the number and the name of the fault.
    fn fault_row(&self) -> (u32, &'static str)
        ensures { (result.0, result.1.now) ≡ world_fault_row self.now }
    {
        match self {
            WorldFault::TwoFormats => (97, "TwoFormats"),
            WorldFault::Disagree { .. } => (DISAGREE, "Disagree"),
            WorldFault::NotKept { .. } => (NOT_KEPT, "NotKept"),
        }
    }
}

impl fmt::Display for WorldFault {
    ghost output = { λ fault. Some (world_fault_text fault) };

    fn fmt<W: fmt::Write>(&self, f: &mut fmt::Formatter<W>) -> fmt::Result {
        match self {
            WorldFault::TwoFormats => f.write_str("server and client have two object formats"),
            WorldFault::Disagree { .. } => f.write_str(
                "server and client hold an id with two objects",
            ),
            WorldFault::NotKept { .. } => f.write_str(
                "the client holds an id that its indexer does not keep",
            ),
        }
    }
}

impl Error for WorldFault {}

/// The reason why a run stopped before its last event.
#[derive(Debug, Drop)]
pub enum RunFault<A: Allocator + Copy = Global> {
    /// Fault 91: there is not enough memory for one of the world's lists or for a buffer.
    /// `outcomes` has the outcomes of the completed events. The next event has not begun.
    Memory { outcomes: Vec<Outcome, A> },
}

impl<A: Allocator + Copy> RunFault<A> {
    /// Returns the number of the fault.
    pub fn code(&self) -> u32
        ensures { result ≡ (run_fault_row self.now).0 }
    {
        self.fault_row().0
    }

    /// Returns the name of the fault.
    pub fn name(&self) -> &'static str
        ensures { result.now ≡ (run_fault_row self.now).1 }
    {
        self.fault_row().1
    }

    // Returns the number and the name of the fault.
    fn fault_row(&self) -> (u32, &'static str)
        ensures { (result.0, result.1.now) ≡ run_fault_row self.now }
    {
        match self {
            RunFault::Memory { .. } => ScenarioFault::Memory.fault_row(),
        }
    }
}

impl<A: Allocator + Copy> fmt::Display for RunFault<A> {
    ghost output = { λ fault. Some (run_fault_text fault) };

    fn fmt<W: fmt::Write>(&self, f: &mut fmt::Formatter<W>) -> fmt::Result {
        match self {
            RunFault::Memory { .. } => fmt::Display::fmt(&ScenarioFault::Memory, f),
        }
    }
}

impl<A: Allocator + Copy + fmt::Debug> Error for RunFault<A> {}
