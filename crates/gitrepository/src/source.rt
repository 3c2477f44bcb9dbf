//! A reader as a source of objects, and the faults of reading everything that objects reach.

use crate::fault::{ObjectCause, RepositoryFault};
use gcomplete::{BatchFault, JudgeFault, ObjectSource};
use gitobject::ObjectType;
use gitobjects::{ObjectFiles, ObjectReader};
use gname::Oid;
use std::alloc::Allocator;

/// The maximum number of ids that the objects may name. Memory ends sooner.
pub(crate) const MAX_NAMED: usize = 4_294_967_295;

/// The objects that a reader reads.
#[derive(Drop)]
pub(crate) struct Source<'r, 'f, F: ObjectFiles, A: Allocator + Copy> {
    reader: &'r mut ObjectReader<'f, F, A>,
}

impl<'r, 'f, F: ObjectFiles, A: Allocator + Copy> Source<'r, 'f, F, A> {
    /// Returns a source that reads from this reader.
    pub(crate) fn new(reader: &'r mut ObjectReader<'f, F, A>) -> Source<'r, 'f, F, A> {
        Source { reader }
    }
}

impl<F: ObjectFiles, A: Allocator + Copy> ObjectSource<A> for Source<'_, '_, F, A> {
    type Fault = RepositoryFault<A>;

    fn read_object(&mut self, id: &Oid) -> Result<(ObjectType, Vec<u8, A>), RepositoryFault<A>> {
        match self.reader.read_checked(id) {
            Ok(object) => Ok((object.kind, object.body)),
            Err(fault) => Err(RepositoryFault::from(fault)),
        }
    }
}

/// Converts the fault of reading what an object reaches.
pub(crate) fn fault_of_judge<A: Allocator + Copy>(
    fault: JudgeFault<RepositoryFault<A>>,
) -> RepositoryFault<A> {
    match fault {
        JudgeFault::Source {
            by: Some(by),
            fault: RepositoryFault::Store(fault),
            ..
        } => RepositoryFault::Named { by, fault },
        JudgeFault::Source { fault, .. } => fault,
        JudgeFault::Batch(fault) => fault_of_batch(&fault),
        JudgeFault::TooMany => RepositoryFault::Memory,
    }
}

/// Converts the fault of an object.
pub(crate) fn fault_of_batch<A: Allocator + Copy>(fault: &BatchFault) -> RepositoryFault<A> {
    match fault {
        BatchFault::Malformed { id } => RepositoryFault::object_fault(id, ObjectCause::Malformed),
        BatchFault::Collision { id } => RepositoryFault::object_fault(id, ObjectCause::Type),
        BatchFault::Clash { link, .. } | BatchFault::Missing { link, .. } => {
            RepositoryFault::object_fault(&link.id, ObjectCause::Type)
        }
        BatchFault::Memory => RepositoryFault::Memory,
    }
}
