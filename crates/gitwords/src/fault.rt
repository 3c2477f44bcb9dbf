//! The faults of URLs that `gitrepo` refuses.

ghost use Rattle.std.specs.Prelude.{◌≡◌, Some};
ghost use Rattle.gitwords.specs.Faults.{cause_text, transport_text, url_fault_text};

use std::error::Error;
use std::fmt;

/// A refused URL, and the reason. The displayed text is one sentence that quotes the URL and
/// suggests a remedy.
#[derive(Clone, Copy, Debug, Drop)]
pub struct UrlFault<'a> {
    /// The refused URL.
    pub url: &'a str,
    /// The reason why the URL is refused.
    pub cause: Cause,
}

/// The reason why a URL is refused.
#[derive(Clone, Copy, Debug, PartialEq, Eq, Drop)]
pub enum Cause {
    /// The URL does not begin with `git://`.
    Transport(Transport),
    /// The URL has no slash after the host.
    NoPath,
    /// The host is malformed. A host is a name, an IPv4 address, or an IPv6 address in brackets.
    BadHost,
    /// The port after the host and a colon is not a number from 1 to 65,535.
    BadPort,
    /// The path has more than 1,000 bytes, a percent sign, or a byte that is not printable ASCII.
    BadPath,
}

/// The transport of a URL that does not begin with `git://` (git-clone(1), "GIT URLS").
#[derive(Clone, Copy, Debug, PartialEq, Eq, Drop)]
pub enum Transport {
    /// The ssh transport: `ssh://`, or the form `HOST:PATH`.
    Ssh,
    /// HTTP or HTTPS.
    Http,
    /// The local transport: `file://`, or a path.
    File,
    /// Any other transport.
    Unknown,
}

impl Cause {
    // Returns the part of the displayed sentence that follows the URL.
    fn phrase(self) -> &'static str
        ensures { result.now ≡ cause_text self }
    {
        match self {
            Cause::Transport(transport) => transport.phrase(),
            Cause::NoPath => "names no repository: write git://HOST[:PORT]/PATH",
            Cause::BadHost => {
                "has a malformed host: write a name, an IPv4 address, or [an IPv6 address]"
            }
            Cause::BadPort => "has a malformed port: write a number from 1 to 65535",
            Cause::BadPath => {
                "has a malformed path: write at most 1000 printable ASCII characters, and no %"
            }
        }
    }
}

impl Transport {
    /// Returns the transport of a URL that does not begin with `git://`.
    pub(crate) fn of(url: &str) -> Transport {
        match url.split_once("://") {
            Some((scheme, _)) => Transport::of_scheme(scheme),
            None if has_host(url) => Transport::Ssh,
            None => Transport::File,
        }
    }

    // Returns the transport with this URL scheme.
    fn of_scheme(scheme: &str) -> Transport {
        match scheme {
            "ssh" | "git+ssh" | "ssh+git" => Transport::Ssh,
            "http" | "https" => Transport::Http,
            "file" => Transport::File,
            _ => Transport::Unknown,
        }
    }

    // Returns the part of the displayed sentence that follows the URL.
    fn phrase(self) -> &'static str
        ensures { result.now ≡ transport_text self }
    {
        match self {
            Transport::Ssh => "is reached by ssh: use git, since gitrepo has no ssh",
            Transport::Http => "is reached by HTTP: use git, since gitrepo has no HTTP",
            Transport::File => "is a file: use git, since gitrepo has no local transport",
            Transport::Unknown => "has an unknown transport: write git://HOST[:PORT]/PATH",
        }
    }
}

// Returns whether the text has a colon before its first slash, like HOST:PATH.
fn has_host(text: &str) -> bool {
    match text.split_once(':') {
        Some((host, _)) => !host.contains('/'),
        None => false,
    }
}

impl fmt::Display for UrlFault<'_> {
    ghost output = { λ fault. Some (url_fault_text fault) };

    fn fmt<W: fmt::Write>(&self, f: &mut fmt::Formatter<W>) -> fmt::Result {
        write!(f, "'{}' {}", self.url, self.cause.phrase())
    }
}

impl Error for UrlFault<'_> {}
