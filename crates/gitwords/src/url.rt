//! URLs of the `git://` transport, and listening addresses.

ghost use Rattle.std.specs.Prelude.{◌≡◌, ◌≢◌, ◌++◌, ◌∷◌, ◌≤◌, [], All, IfErr, IfOk, List, MatchBool, MatchOption, MatchResult, codes, decimal, string_bytes, ℕ};
ghost use Rattle.std.specs.Net.Grammar.{IsNumber};
ghost use Rattle.std.specs.List.{list_all};
ghost use Rattle.gitwords.specs.Numbers.{IsPort};
ghost use Rattle.gitwords.specs.Urls.{IsAuthority, IsAuthorityCause, IsBracketed, IsCause, IsGitUrl, IsHost, IsListenAddress, is_host_name, is_name_byte, is_path_byte, is_path_text};

use crate::fault::{Cause, Transport, UrlFault};
use crate::number::number_of;
use std::alloc::{AllocError, Allocator};
use std::net::Ipv6Addr;

/// The default port of `git://`.
pub const DEFAULT_PORT: u16 = 9418;

// The maximum length of a host in bytes, in URLs and in the first line of a `git://` connection.
const MAX_HOST: usize = 255;

// The maximum length of a path in bytes, in URLs and in the first line of a `git://` connection.
const MAX_PATH: usize = 1_000;

// The highest port.
const MAX_PORT: u32 = 65_535;

// The start of a `git://` URL.
const SCHEME: &str = "git://";

/// A URL of the `git://` transport: `git://HOST[:PORT]/PATH` (git-clone(1), "GIT URLS").
#[derive(Clone, Copy, Debug, Drop)]
pub struct GitUrl<'a> {
    /// A name, an IPv4 address, or an IPv6 address in brackets. The host has at most 255 bytes.
    pub host: &'a str,
    /// The port, from 1 to 65,535.
    pub port: u16,
    /// The path with its leading slash: at most 1,000 bytes of printable ASCII, without `%`.
    pub path: &'a str,
}

impl<'a> GitUrl<'a> {
    /// Parses a URL. The returned path is unchanged, even if it begins with `/~user`.
    ///
    /// Fails if the text does not have the form `git://HOST[:PORT]/PATH`. The fault contains the
    /// text and the cause.
    pub fn parse(text: &'a str) -> Result<GitUrl<'a>, UrlFault<'a>>
        ensures url { MatchResult result
            (λ url. IsGitUrl text.now url.host.now url.port url.path.now)
            (λ _. (host : List ℕ) (port : ℕ) (path : List ℕ)
            → ¬ (IsGitUrl text.now host port path)) }
        ensures cause { IfErr result (λ fault. (fault.url.now ≡ text.now)
            × IsCause text.now fault.cause) }
    {
        match read_url(text) {
            Ok(url) => Ok(url),
            Err(cause) => Err(UrlFault { url: text, cause }),
        }
    }

    /// Returns the text `HOST:PORT`. Fails only if out of memory.
    pub fn address<A: Allocator + Copy>(&self, alloc: A) -> Result<String<A>, AllocError>
        ensures { IfOk result (λ text. string_bytes text
            ≡ self.now.host.now ++ codes ":" ++ decimal self.now.port) }
    {
        format!(in alloc; "{}:{}", self.host, self.port)
    }
}

/// Returns whether a text is the address of a listening socket, HOST:PORT. The port is from 0 to
/// 65,535, and 0 lets the system pick a port.
pub(crate) fn is_listen_address(text: &str) -> bool
    ensures { MatchBool result (IsListenAddress text.now) (¬ (IsListenAddress text.now)) }
{
    match split_port(text) {
        Some((host, digits)) => is_host(host) && is_port_or_zero(digits),
        None => false,
    }
}

// Returns whether a text consists of decimal digits that denote a number up to 65,535.
fn is_port_or_zero(digits: &str) -> bool
    ensures { MatchBool result ((port : ℕ) × IsNumber 10 digits.now port × (port ≤ 65_535))
        ((port : ℕ) → port ≤ 65_535 → ¬ (IsNumber 10 digits.now port)) }
{
    match number_of(digits) {
        Some(number) => number <= MAX_PORT,
        None => false,
    }
}

fn read_url(text: &str) -> Result<GitUrl<'_>, Cause>
    ensures url { MatchResult result
        (λ url. IsGitUrl text.now url.host.now url.port url.path.now)
        (λ _. (host : List ℕ) (port : ℕ) (path : List ℕ)
        → ¬ (IsGitUrl text.now host port path)) }
    ensures cause { IfErr result (IsCause text.now) }
{
    let Some(after) = text.strip_prefix(SCHEME) else {
        return Err(Cause::Transport(Transport::of(text)));
    };
    let Some((authority, path)) = split_path(after) else {
        return Err(Cause::NoPath);
    };
    if !is_path_text(path) {
        return Err(Cause::BadPath);
    }
    match read_authority(authority) {
        Ok((host, port)) => Ok(GitUrl { host, port, path }),
        Err(cause) => Err(cause),
    }
}

// Returns the text before the first slash, and the rest, which begins with this slash. Returns
// `None` if the text has no slash.
fn split_path(text: &str) -> Option<(&str, &str)>
    ensures { MatchOption result (All (λ b. b ≢ 47) text.now)
        (λ parts. (text.now ≡ parts.0.now ++ parts.1.now) × All (λ b. b ≢ 47) parts.0.now
        × ((rest : List ℕ) × (parts.1.now ≡ 47 ∷ rest))) }
{
    match text.find('/') {
        Some(at) => Some(text.split_at(at)),
        None => None,
    }
}

fn is_path_text(text: &str) -> bool
    ensures { result ≡ is_path_text text.now }
{
    text.len() <= MAX_PATH && are_path_bytes(text)
}

fn are_path_bytes(text: &str) -> bool
    ensures { result ≡ list_all is_path_byte text.now }
{
    text.as_bytes().iter().all(|byte| is_path_byte(*byte))
}

fn is_path_byte(byte: u8) -> bool
    ensures { result ≡ is_path_byte byte }
{
    (b' '..=b'~').contains(&byte) && byte != b'%'
}

// Returns the host and the port of a text of the form HOST[:PORT]. Fails with `BadHost` or
// `BadPort` if the text does not have this form.
fn read_authority(text: &str) -> Result<(&str, u16), Cause>
    ensures { MatchResult result (λ parts. IsAuthority text.now parts.0.now parts.1)
        (IsAuthorityCause text.now) }
{
    if is_host(text) {
        return Ok((text, DEFAULT_PORT));
    }
    let Some((host, digits)) = split_port(text) else {
        return Err(Cause::BadHost);
    };
    if !is_host(host) {
        return Err(Cause::BadHost);
    }
    match port_of(digits) {
        Some(port) => Ok((host, port)),
        None => Err(Cause::BadPort),
    }
}

// Returns the texts before and after the last colon, or `None` if the text has no colon.
fn split_port(text: &str) -> Option<(&str, &str)>
    ensures { MatchOption result (All (λ b. b ≢ 58) text.now)
        (λ parts. (text.now ≡ parts.0.now ++ 58 ∷ parts.1.now)
        × All (λ b. b ≢ 58) parts.1.now) }
{
    text.rsplit_once(':')
}

// Returns the port from 1 to 65,535 that a text of decimal digits denotes, or `None` for any other
// text.
fn port_of(digits: &str) -> Option<u16>
    ensures { MatchOption result ((port : ℕ) → ¬ (IsPort digits.now port)) (IsPort digits.now) }
{
    match number_of(digits) {
        Some(number) if (1..=MAX_PORT).contains(&number) => Some(number as u16),
        _ => None,
    }
}

fn is_host(text: &str) -> bool
    ensures { MatchBool result (IsHost text.now) (¬ (IsHost text.now)) }
{
    is_host_name(text) || is_bracketed(text)
}

fn is_host_name(text: &str) -> bool
    ensures { result ≡ is_host_name text.now }
{
    1 <= text.len() && text.len() <= MAX_HOST && are_name_bytes(text)
}

fn are_name_bytes(text: &str) -> bool
    ensures { result ≡ list_all is_name_byte text.now }
{
    text.as_bytes().iter().all(|byte| is_name_byte(*byte))
}

fn is_name_byte(byte: u8) -> bool
    ensures { result ≡ is_name_byte byte }
{
    byte.is_ascii_alphanumeric() || matches!(byte, b'-' | b'.' | b'_')
}

fn is_bracketed(text: &str) -> bool
    ensures { MatchBool result (IsBracketed text.now) (¬ (IsBracketed text.now)) }
{
    match in_brackets(text) {
        Some(inner) => Ipv6Addr::parse_ascii(inner.as_bytes()).is_ok(),
        None => false,
    }
}

// Returns the text between enclosing brackets, or `None` if the text is not enclosed in brackets.
fn in_brackets(text: &str) -> Option<&str>
    ensures { MatchOption result ((inner : List ℕ) → ¬ (text.now ≡ 91 ∷ (inner ++ 93 ∷ [])))
        (λ inner. text.now ≡ 91 ∷ (inner.now ++ 93 ∷ [])) }
{
    let rest = text.strip_prefix('[')?;
    rest.strip_suffix(']')
}
