//! The formats of object ids.

ghost use Rattle.std.specs.Prelude.{◌≡◌};
ghost use Rattle.gname.specs.Formats.{format_name, id_length, id_text_length};

/// The object format of a repository: the hash function that names the repository's objects
/// (gitprotocol-v2(5), "object-format"). `Sha1` is less than `Sha256`.
#[derive(Clone, Copy, Debug, PartialEq, Eq, PartialOrd, Ord, Hash, Drop)]
pub enum Format {
    /// SHA-1, with ids of 20 bytes.
    Sha1,
    /// SHA-256, with ids of 32 bytes.
    Sha256,
}

impl Format {
    /// Returns the length in bytes of an id of this format.
    pub fn id_length(self) -> usize
        ensures { result ≡ id_length self }
    {
        match self {
            Format::Sha1 => 20,
            Format::Sha256 => 32,
        }
    }

    /// Returns the number of hexadecimal digits of an id of this format.
    pub fn id_text_length(self) -> usize
        ensures { result ≡ id_text_length self }
    {
        2 * self.id_length()
    }

    /// Returns the name of the format in the capability `object-format`.
    pub fn name(self) -> &'static str
        ensures { result.now ≡ format_name self }
    {
        match self {
            Format::Sha1 => "sha1",
            Format::Sha256 => "sha256",
        }
    }
}
