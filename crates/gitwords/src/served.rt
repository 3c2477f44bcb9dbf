//! The path of a request, and the directories that it may name.

ghost use Rattle.std.specs.Prelude.{◌≡◌, ◌≢◌, ◌⊎◌, ◌++◌, ◌∷◌, [], IfOk, List, ℕ, MatchOption, string_bytes};
ghost use Rattle.std.specs.List.{list_all};
ghost use Rattle.gitwords.specs.Served.{IsServedPath, StaysBelow, components, ending_text, endings, is_name};

use std::alloc::{AllocError, Allocator};
use std::marker::Model;

/// An ending that is appended to the path of a request, to form the path of a possible Git
/// directory.
#[derive(Clone, Copy, Debug, PartialEq, Eq, Drop)]
pub enum Ending {
    /// `PATH/.git`
    DotGit,
    /// `PATH`
    Itself,
    /// `PATH.git/.git`
    BareDotGit,
    /// `PATH.git`
    Bare,
}

impl Ending {
    /// Returns the endings in the order in which Git tries them.
    pub fn in_order() -> [Ending; 4]
        ensures { result ≡ endings }
    {
        [
            Ending::DotGit,
            Ending::Itself,
            Ending::BareDotGit,
            Ending::Bare,
        ]
    }

    /// Returns the ending as text.
    pub fn text(self) -> &'static str
        ensures { result.now ≡ ending_text self }
    {
        match self {
            Ending::DotGit => "/.git",
            Ending::Itself => "",
            Ending::BareDotGit => ".git/.git",
            Ending::Bare => ".git",
        }
    }
}

/// The path of a repository in a request (git-daemon(1)). No component of the path is empty or
/// begins with a dot.
#[derive(Debug, Drop)]
pub struct ServedPath<'a> {
    relative: &'a str,
}

impl<'a> Model for ServedPath<'a> {
    ghost Value = { List ℕ };

    ghost view = { λ path. path.relative.now };

    ghost invariant = { λ path. IsServedPath (47 ∷ path.relative.now) path.relative.now };
}

impl<'a> ServedPath<'a> {
    /// Parses the path of a request, and removes its first slash and an optional slash at its end.
    /// Returns `None` if the path does not begin with a slash, or if a component is empty or begins
    /// with a dot.
    pub fn parse(path: &'a str) -> Option<ServedPath<'a>>
        ensures { MatchOption result ((rest : List ℕ) → ¬ (IsServedPath path.now rest))
            (IsServedPath path.now) }
    {
        let Some(rest) = path.strip_prefix('/') else {
            return None;
        };
        let relative = without_last_slash(rest);
        if has_names(relative) {
            Some(ServedPath { relative })
        } else {
            None
        }
    }

    /// Returns the path with this ending appended, relative to the base directory. Fails only if
    /// out of memory.
    pub fn candidate<A: Allocator + Copy>(
        &self,
        alloc: A,
        ending: Ending,
    ) -> Result<String<A>, AllocError>
        ensures text { IfOk result (λ text. string_bytes text ≡ self.now ++ ending_text ending) }
        ensures below { IfOk result (λ text. StaysBelow (string_bytes text)) }
    {
        let mut text = String::from_str(alloc, self.relative)?;
        text.push_str(ending.text())?;
        Ok(text)
    }
}

// Returns the text without the slash at its end, or the whole text if it does not end with a slash.
fn without_last_slash(text: &str) -> &str
    ensures { (text.now ≡ result.now ++ 47 ∷ [])
        ⊎ ((text.now ≡ result.now) × ((front : List ℕ) → text.now ≢ front ++ 47 ∷ [])) }
{
    match text.strip_suffix('/') {
        Some(front) => front,
        None => text,
    }
}

// Returns whether no component of the path is empty or begins with a dot.
fn has_names(relative: &str) -> bool
    ensures { result ≡ list_all is_name (components relative.now) }
{
    relative
        .as_bytes()
        .split(|byte| *byte == b'/')
        .all(|part| is_name(part))
}

// Returns whether a component is not empty and does not begin with a dot.
fn is_name(component: &[u8]) -> bool
    ensures { result ≡ is_name component.now }
{
    !component.is_empty() && !component.starts_with(b".")
}
