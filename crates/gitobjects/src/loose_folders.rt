//! The folders of loose objects (gitrepository-layout(5), "objects/[0-9a-f][0-9a-f]").

ghost use Rattle.std.specs.Prelude.{◌<◌};

use gname::Oid;

/// A record of which folders of loose objects exist. Each folder is looked up once, at the first
/// look-up of an object in it.
#[derive(Clone, Copy, Drop)]
pub struct LooseFolders {
    // For each first byte of an id, whether its folder exists, or `None` if the folder was not
    // looked up.
    exists_by_first_byte: [Option<bool>; 256],
}

impl LooseFolders {
    /// Returns an empty record: no folder was looked up yet.
    pub fn new() -> LooseFolders {
        LooseFolders {
            exists_by_first_byte: [None; 256],
        }
    }

    /// Returns whether the folder of a loose object with this id exists, or `None` if the folder
    /// was not looked up.
    pub(crate) fn get(&self, id: &Oid) -> Option<bool> {
        self.exists_by_first_byte[first_byte(id)]
    }

    /// Records whether the folder of a loose object with this id exists.
    pub(crate) fn note(&mut self, id: &Oid, is_there: bool) {
        self.exists_by_first_byte[first_byte(id)] = Some(is_there);
    }
}

fn first_byte(id: &Oid) -> usize
    ensures { result < 256 }
{
    usize::from(id.as_bytes()[0])
}
