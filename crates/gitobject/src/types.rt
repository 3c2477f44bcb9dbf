//! The types of objects.

ghost use Rattle.std.specs.Prelude.{◌≡◌, MatchOption};
ghost use Rattle.gitobject.specs.Types.{pack_number, type_name};
ghost use Rattle.gitobject.specs.declared.types.ObjectType.{ObjectType};

/// The type of an object (gitglossary(7), "object type").
#[derive(Clone, Copy, Debug, PartialEq, Eq, Drop)]
pub enum ObjectType {
    /// A commit: a tree, the parent commits, and a message.
    Commit,
    /// A tree: the entries of a directory.
    Tree,
    /// A blob: the bytes of a file, or the target of a symbolic link.
    Blob,
    /// An annotated tag: the name of another object, and a message.
    Tag,
}

impl ObjectType {
    /// Returns the name of the type.
    pub fn name(self) -> &'static str
        ensures { result.now ≡ type_name self }
    {
        match self {
            ObjectType::Commit => "commit",
            ObjectType::Tree => "tree",
            ObjectType::Blob => "blob",
            ObjectType::Tag => "tag",
        }
    }

    /// Returns the type with this name, or `None` if there is no such type.
    pub fn from_name(word: &[u8]) -> Option<ObjectType>
        ensures { MatchOption result ((kind : ObjectType) → ¬ (word.now ≡ type_name kind))
            (λ kind. word.now ≡ type_name kind) }
    {
        match word {
            b"commit" => Some(ObjectType::Commit),
            b"tree" => Some(ObjectType::Tree),
            b"blob" => Some(ObjectType::Blob),
            b"tag" => Some(ObjectType::Tag),
            _ => None,
        }
    }

    /// Returns the number of the type in a pack, from 1 to 4 (gitformat-pack(5), "Object types").
    pub fn pack_number(self) -> u8
        ensures { result ≡ pack_number self }
    {
        match self {
            ObjectType::Commit => 1,
            ObjectType::Tree => 2,
            ObjectType::Blob => 3,
            ObjectType::Tag => 4,
        }
    }

    /// Returns the object type with this number in a pack, or `None` for the number of a delta or
    /// any other number.
    pub fn from_pack_number(number: u8) -> Option<ObjectType>
        ensures { MatchOption result ((kind : ObjectType) → ¬ (number ≡ pack_number kind))
            (λ kind. number ≡ pack_number kind) }
    {
        match number {
            1 => Some(ObjectType::Commit),
            2 => Some(ObjectType::Tree),
            3 => Some(ObjectType::Blob),
            4 => Some(ObjectType::Tag),
            _ => None,
        }
    }
}
