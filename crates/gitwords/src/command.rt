//! The commands of the program.

ghost use Rattle.std.specs.Prelude.{◌≡◌, ◌&&◌, ◌||◌, not};

use crate::url::GitUrl;
use gname::Prefix;
use grefs::Spec;

/// A parsed command. The texts of the command borrow from the arguments.
#[derive(Debug, Drop)]
pub enum GitrepoCommand<'a> {
    /// `check DIR`
    Check {
        /// The directory of the repository.
        dir: &'a str,
    },
    /// `clone [--quiet] [--progress] URL DIR`
    Clone(CloneArgs<'a>),
    /// `fetch [--quiet] [--progress] DIR URL SPEC...`
    Fetch(FetchArgs<'a>),
    /// `ls URL [PREFIX]...`
    Ls(LsArgs<'a>),
    /// `serve --listen ADDR [OPTION]... BASE`
    Serve(ServeArgs<'a>),
    /// `upload-pack DIR`
    UploadPack {
        /// The directory of the repository.
        dir: &'a str,
    },
}

/// The options that control the output of `clone` and `fetch` (git-fetch(1), "--quiet",
/// "--progress").
#[derive(Clone, Copy, Debug, PartialEq, Eq, Drop)]
pub struct Verbosity {
    /// `--quiet`: print no report, and show progress only with `--progress`.
    pub quiet: bool,
    /// `--progress`: show progress even if standard error is not a terminal.
    pub progress: bool,
}

impl Verbosity {
    /// Returns whether progress is shown. `is_terminal` states whether standard error is a
    /// terminal.
    pub fn shows_progress(self, is_terminal: bool) -> bool
        ensures { result ≡ (self.progress || (is_terminal && not self.quiet)) }
    {
        self.progress || (is_terminal && !self.quiet)
    }
}

/// The arguments of `clone`.
#[derive(Clone, Copy, Debug, Drop)]
pub struct CloneArgs<'a> {
    /// The options that control the output.
    pub verbosity: Verbosity,
    /// The URL of the repository on the server.
    pub url: GitUrl<'a>,
    /// The directory of the new repository.
    pub dir: &'a str,
}

/// The arguments of `fetch`.
#[derive(Debug, Drop)]
pub struct FetchArgs<'a> {
    /// The options that control the output.
    pub verbosity: Verbosity,
    /// The directory of the repository.
    pub dir: &'a str,
    /// The URL of the repository on the server.
    pub url: GitUrl<'a>,
    /// The refspecs: at least one.
    pub specs: Vec<Spec>,
}

/// The arguments of `ls`.
#[derive(Debug, Drop)]
pub struct LsArgs<'a> {
    /// The URL of the repository on the server.
    pub url: GitUrl<'a>,
    /// The prefixes of the refs to list. If there are no prefixes, all refs are listed.
    pub prefixes: Vec<Prefix>,
}

/// The arguments of `serve`.
#[derive(Clone, Copy, Debug, Drop)]
pub struct ServeArgs<'a> {
    /// The address to listen on, HOST:PORT. If the port is 0, the system picks a free port.
    pub listen: &'a str,
    /// The total number of connections to serve, from 1 to 1,000,000. `None` means no limit.
    pub connections: Option<u32>,
    /// The maximum number of simultaneous connections, from 1 to 1,000,000, or `None` for the
    /// default.
    pub max_connections: Option<u32>,
    /// The maximum number of simultaneous connections from one address, from 1 to 1,000,000, or
    /// `None` for the default.
    pub max_per_address: Option<u32>,
    /// Whether to serve repositories without a file `git-daemon-export-ok` (git-daemon(1),
    /// "--export-all").
    pub export_all: bool,
    /// The base directory, which contains all served repositories.
    pub base: &'a str,
}
