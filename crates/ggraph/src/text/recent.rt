//! The ids of the last two nodes that were read.

ghost use Rattle.std.specs.Prelude.{◌≡◌, ◌≢◌, ◌++◌, [], IfSome};
ghost use Rattle.gname.specs.Ids.{id_text};

use gname::Oid;
use std::marker::Model;

/// The ids of the last two nodes, with their digits in the text. A node's parents are often among
/// these ids. A parent among these ids needs no decoding. Before the first node the digits are
/// empty.
#[derive(Drop)]
pub(crate) struct Recent<'a> {
    last: Oid,
    last_digits: &'a [u8],
    before: Oid,
    before_digits: &'a [u8],
}

impl<'a> Model for Recent<'a> {
    ghost use Rattle.std.specs.Prelude.{⊤, ◌≡◌, ◌≢◌, []};
    ghost use Rattle.gname.specs.Ids.{id_text};

    ghost Value = { ⊤ };

    ghost view = { λ _. tt };

    ghost invariant = { λ it. (it.last_digits.now ≢ [] → it.last_digits.now ≡ id_text it.last)
        × (it.before_digits.now ≢ [] → it.before_digits.now ≡ id_text it.before) };
}

impl<'a> Recent<'a> {
    /// Returns the recent ids before the first node. The id `blank` is only a placeholder.
    pub(crate) fn new(blank: Oid) -> Recent<'a> {
        Recent {
            last: blank,
            last_digits: b"",
            before: blank,
            before_digits: b"",
        }
    }

    /// Stores the id of the most recently read node, with the digits of that id.
    pub(crate) fn keep(&mut self, digits: &'a [u8], id: Oid)
        requires { digits.now ≡ id_text id }
    {
        self.before = self.last;
        self.before_digits = self.last_digits;
        self.last = id;
        self.last_digits = digits;
    }

    /// Returns the recent id at the beginning of the text, and the text after the id. Returns
    /// `None` if the text does not begin with the digits of a recent id.
    pub(crate) fn take_recent<'t>(&self, text: &'t [u8]) -> Option<(Oid, &'t [u8])>
        ensures { IfSome result (λ pair. text.now ≡ id_text pair.0 ++ pair.1.now) }
    {
        if let Some(rest) = after(self.last_digits, text) {
            return Some((self.last, rest));
        }
        if let Some(rest) = after(self.before_digits, text) {
            return Some((self.before, rest));
        }
        None
    }
}

// Returns the text after `digits`, if the text begins with `digits` and `digits` is not empty.
// Returns `None` otherwise.
fn after<'t>(digits: &[u8], text: &'t [u8]) -> Option<&'t [u8]>
    ensures { IfSome result (λ rest. (digits.now ≢ []) × (text.now ≡ digits.now ++ rest.now)) }
{
    if digits.is_empty() {
        return None;
    }
    text.strip_prefix(digits)
}
