//! Proved laws of stores. Each function does nothing at run time. The contract of each function
//! states a law, which the proof of a caller can use.

ghost use Rattle.gcomplete.specs.Laws.{ClosedIsComplete, CompleteIsTheSame, LinkedIsClosed, NamesAreShared};
ghost use Rattle.gcomplete.specs.Laws.{ReadIsComplete, SentIsFit, SentIsNoted};

/// Proves that a closed store holds everything that its objects reach.
pub fn closed_is_complete()
    ensures { ClosedIsComplete }
{}

/// Proves that two objects with the same id are the same object, or that two different texts have
/// the same SHA-1.
pub fn names_are_shared()
    ensures { NamesAreShared }
{}

/// Proves that if an id is complete in one store, this store has everything that the id reaches in
/// another store. The bytes are the same, or two different texts have the same SHA-1.
pub fn complete_is_the_same()
    ensures { CompleteIsTheSame }
{}

/// Proves that the objects of a closed store are complete when they are read again from elsewhere,
/// or that two different texts have the same SHA-1. The law assumes that the id of each object is
/// checked when the object is read, and that each object still exists.
pub fn read_is_complete()
    ensures { ReadIsComplete }
{}

/// Proves that a closed store stays closed when objects are added whose links lead to the store or
/// to one another, or that two different texts have the same SHA-1.
pub fn linked_is_closed()
    ensures { LinkedIsClosed }
{}

/// Proves that adding an object of a server to a batch of the server's objects fails only if out of
/// memory. The server's store is closed.
pub fn sent_is_noted()
    ensures { SentIsNoted }
{}

/// Proves that a closed store accepts what an honest server sends, or that two different texts have
/// the same SHA-1. The server's store is closed too, and the server knows some ids that the
/// client's store holds. Each link of a sent object leads to a sent object, or to an object that
/// these ids reach at the server.
pub fn sent_is_fit()
    ensures { SentIsFit }
{}
