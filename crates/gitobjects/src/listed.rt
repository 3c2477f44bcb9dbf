//! The number of listings of a pack folder since its last change. This number determines whether
//! the folder must be listed again. A listing does not count if a fault of it can pass.

ghost use Rattle.std.specs.Prelude.{◌≡◌, ◌≢◌, ◌↔◌, IsTrue, Option};
ghost use Rattle.gitobjects.specs.Listed.{ListsAgain, Twice};
ghost use Rattle.gitobjects.specs.declared.files.FolderTime.{FolderTime};

use crate::files::FolderTime;

/// The number of times that a pack folder was listed since the names in it last changed, and the
/// time of this change. The time is `None` if the folder is missing or its time is unknown.
#[derive(Clone, Copy, Debug)]
pub(crate) enum Listed {
    /// No listing of the folder counts.
    Never,
    /// The folder was listed once.
    Once(Option<FolderTime>),
    /// The folder was listed at least twice.
    Twice(Option<FolderTime>),
}

impl Listed {
    /// Returns whether the folder must be listed again. `change_time` is the time at which the
    /// names in the folder last changed. Returns `false` if the folder was listed at least twice
    /// since then.
    pub(crate) fn is_stale(&self, change_time: Option<FolderTime>) -> bool
        ensures { IsTrue result ↔ (self.now ≢ Twice change_time) }
    {
        match self {
            Listed::Twice(time) => *time != change_time,
            _ => true,
        }
    }

    /// Returns the state after another listing of the folder. `change_time` is the time at which
    /// the names in the folder last changed.
    pub(crate) fn again(&self, change_time: Option<FolderTime>) -> Listed
        ensures { ListsAgain change_time self.now result }
    {
        match self {
            Listed::Once(time) | Listed::Twice(time) if *time == change_time => {
                Listed::Twice(change_time)
            }
            _ => Listed::Once(change_time),
        }
    }
}
