//! The laws of objects. Each function does nothing at run time, and its contract states the law.

ghost use Rattle.gitobject.specs.Laws.{LinksAreOne, TextsAreOne};

/// Proves that an object has at most one list of links.
pub fn links_are_one()
    ensures { LinksAreOne }
{}

/// Proves that a text encodes at most one object of fewer than 2^64 bytes.
pub fn texts_are_one()
    ensures { TextsAreOne }
{}
