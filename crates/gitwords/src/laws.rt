//! Laws that follow from the definitions in `specs/`.

ghost use Rattle.gitwords.specs.Clean.{PiecesAreClean};
ghost use Rattle.gitwords.specs.Served.{PathsHaveOneReading};
ghost use Rattle.gitwords.specs.Urls.{UrlsHaveOneReading};

/// Proves that cleaning a text in two pieces has the same result as cleaning the whole text. A
/// cleaned text contains only bytes that a terminal may show.
pub fn pieces_are_clean()
    ensures { PiecesAreClean }
{}

/// Proves that the path of a request names at most one directory.
pub fn paths_have_one_reading()
    ensures { PathsHaveOneReading }
{}

/// Proves that a URL has at most one host, one port and one path.
pub fn urls_have_one_reading()
    ensures { UrlsHaveOneReading }
{}
