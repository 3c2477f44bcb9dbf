//! Files that contain the path of a directory: `.git` files and `commondir`.

ghost use Rattle.std.specs.Prelude.{◌≡◌, List, ℕ, IfSome, MatchOption};
ghost use Rattle.gitrefs.specs.Links.{IsGitFile, IsPathFile, is_line_end};

use crate::words::strip;

/// Returns the path of a Git directory, parsed from the text of a `.git` file. A linked worktree
/// (git-worktree(1)) and a submodule (gitsubmodules(7)) have `.git` files. Returns `None` if the
/// text is not a valid `.git` file. A relative path starts at the directory of the file.
pub fn parse_git_file(text: &[u8]) -> Option<&[u8]>
    ensures { IfSome result (λ path. IsGitFile text.now path.now) }
{
    match strip(b"gitdir: ", text) {
        Some(rest) => parse_common_dir(rest),
        None => None,
    }
}

/// Returns the path of the common directory, parsed from the text of a `commondir` file
/// (gitrepository-layout(5)). Returns `None` if the text is not a valid `commondir` file. A
/// relative path starts at the Git directory.
pub fn parse_common_dir(text: &[u8]) -> Option<&[u8]>
    ensures { MatchOption result ((path : List ℕ) → ¬ (IsPathFile text.now path))
        (λ path. IsPathFile text.now path.now) }
{
    let mut path = text;
    while let Some((last, front)) = path.split_last() {
        if !is_line_end(*last) {
            return Some(path);
        }
        path = front;
    }
    None
}

fn is_line_end(byte: u8) -> bool
    ensures { result ≡ is_line_end byte }
{
    byte == b'\n' || byte == b'\r'
}
