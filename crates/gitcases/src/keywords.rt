//! The first words of the lines of test files.

use crate::row::TestedCall;
use gitobject::ObjectType;

/// The kind of a line. FORMAT.md describes each kind except `Unknown`.
#[derive(Clone, Copy)]
pub(crate) enum Keyword {
    Times,
    Text,
    Object(ObjectType),
    Delta,
    Copy,
    Insert,
    Also,
    Pack,
    Whole,
    Entry,
    Back,
    Far,
    ById,
    Head,
    Bytes,
    Count,
    Magic,
    Trailer,
    Lines,
    Line,
    WrongLine,
    Unsorted,
    Store,
    Loose,
    Packed,
    File,
    At,
    Row,
    Of,
    In,
    Then,
    Has,
    Limits,
    Tips,
    Update,
    Asked,
    Call(TestedCall),
    Read(TestedCall),
    Or,
    Large,
    Sweep,
    Unknown,
}

// The first words of lines, and the kinds of the lines.
const KEYWORDS: &[(&str, Keyword)] = &[
    ("times", Keyword::Times),
    ("text", Keyword::Text),
    ("commit", Keyword::Object(ObjectType::Commit)),
    ("tree", Keyword::Object(ObjectType::Tree)),
    ("blob", Keyword::Object(ObjectType::Blob)),
    ("tag", Keyword::Object(ObjectType::Tag)),
    ("delta", Keyword::Delta),
    ("copy", Keyword::Copy),
    ("insert", Keyword::Insert),
    ("also", Keyword::Also),
    ("pack", Keyword::Pack),
    ("whole", Keyword::Whole),
    ("entry", Keyword::Entry),
    ("back", Keyword::Back),
    ("far", Keyword::Far),
    ("by-id", Keyword::ById),
    ("head", Keyword::Head),
    ("bytes", Keyword::Bytes),
    ("count", Keyword::Count),
    ("magic", Keyword::Magic),
    ("trailer", Keyword::Trailer),
    ("lines", Keyword::Lines),
    ("line", Keyword::Line),
    ("wrong-line", Keyword::WrongLine),
    ("unsorted", Keyword::Unsorted),
    ("store", Keyword::Store),
    ("loose", Keyword::Loose),
    ("packed", Keyword::Packed),
    ("file", Keyword::File),
    ("at", Keyword::At),
    ("row", Keyword::Row),
    ("of", Keyword::Of),
    ("in", Keyword::In),
    ("then", Keyword::Then),
    ("has", Keyword::Has),
    ("limits", Keyword::Limits),
    ("tips", Keyword::Tips),
    ("update", Keyword::Update),
    ("asked", Keyword::Asked),
    ("index", Keyword::Call(TestedCall::IndexPack)),
    ("kept", Keyword::Call(TestedCall::ReceivePack)),
    ("memory", Keyword::Call(TestedCall::ReceiveInMemory)),
    ("open", Keyword::Call(TestedCall::OpenStore)),
    ("refs", Keyword::Call(TestedCall::ReadRefs)),
    ("move", Keyword::Call(TestedCall::UpdateRefs)),
    ("clone", Keyword::Call(TestedCall::CloneRefs)),
    ("url", Keyword::Call(TestedCall::ParseUrl)),
    ("served", Keyword::Call(TestedCall::ParseServedPath)),
    ("read", Keyword::Read(TestedCall::ReadObject)),
    ("raw", Keyword::Read(TestedCall::ReadRawEntry)),
    ("or", Keyword::Or),
    ("large", Keyword::Large),
    ("sweep", Keyword::Sweep),
];

/// Returns the kind of a line with this first word.
pub(crate) fn keyword_of(word: &str) -> Keyword {
    keyword_in(KEYWORDS, word)
}

fn keyword_in(keywords: &[(&str, Keyword)], word: &str) -> Keyword {
    for (text, keyword) in keywords {
        if *text == word {
            return *keyword;
        }
    }
    Keyword::Unknown
}
