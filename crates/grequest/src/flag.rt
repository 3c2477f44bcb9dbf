//! Flags: the arguments of a command that have no value.

ghost use Rattle.std.specs.Prelude.{◌≡◌, ◌<◌, ◌↔◌, ℕ, IsTrue};
ghost use Rattle.grequest.specs.Flags.{flag_in, flags_at};
ghost use Rattle.grequest.specs.steps.Flags.{table_in};

/// A flag of ls-refs, with the name that Git uses (gitprotocol-v2(5), "ls-refs").
#[derive(Clone, Copy, Debug, PartialEq, Eq)]
pub enum LsRefsFlag {
    Peel,
    Symrefs,
    Unborn,
}

/// A flag of fetch, with the name that Git uses (gitprotocol-v2(5), "fetch").
#[derive(Clone, Copy, Debug, PartialEq, Eq)]
pub enum FetchFlag {
    ThinPack,
    NoProgress,
    IncludeTag,
    OfsDelta,
    Done,
}

/// The flags of ls-refs with their texts.
pub(crate) const LS_REFS_FLAGS: &[(LsRefsFlag, &str)] = &[
    (LsRefsFlag::Peel, "peel"),
    (LsRefsFlag::Symrefs, "symrefs"),
    (LsRefsFlag::Unborn, "unborn"),
];

/// The flags of fetch with their texts.
pub(crate) const FETCH_FLAGS: &[(FetchFlag, &str)] = &[
    (FetchFlag::ThinPack, "thin-pack"),
    (FetchFlag::NoProgress, "no-progress"),
    (FetchFlag::IncludeTag, "include-tag"),
    (FetchFlag::OfsDelta, "ofs-delta"),
    (FetchFlag::Done, "done"),
];

/// The maximum number of flags of a command.
pub(crate) const MAX_FLAGS: usize = 32;

/// A flag of a command.
pub(crate) trait Flag: Copy {
    ghost number: { Self → ℕ };

    /// Returns the number of the flag among the flags of its command.
    fn number(self) -> usize
        ensures number { result ≡ number self }
        ensures few { result < MAX_FLAGS };
}

impl Flag for LsRefsFlag {
    ghost use Rattle.grequest.specs.Asked.{ls_number};

    ghost number = { ls_number };

    fn number(self) -> usize {
        self as usize
    }
}

impl Flag for FetchFlag {
    ghost use Rattle.grequest.specs.Asked.{fetch_number};

    ghost number = { fetch_number };

    fn number(self) -> usize {
        self as usize
    }
}

/// Returns the flag with this text in the table, if any.
pub(crate) fn flag_in<F: Copy>(table: &[(F, &str)], text: &[u8]) -> Option<F>
    ensures { result ≡ flag_in (table_in table.now) text.now }
{
    for (flag, word) in table {
        if text == word.as_bytes() {
            return Some(*flag);
        }
    }
    None
}

/// Returns whether both arrays set the same flags of the table.
pub(crate) fn are_same_flags<F: Flag>(
    table: &[(F, &str)],
    left: &[bool; MAX_FLAGS],
    right: &[bool; MAX_FLAGS],
) -> bool
    ensures { IsTrue result ↔ (flags_at F.number (table_in table.now) left.now
        ≡ flags_at F.number (table_in table.now) right.now) }
{
    for (flag, _) in table {
        if left[flag.number()] != right[flag.number()] {
            return false;
        }
    }
    true
}
