//! Parsing of the capabilities and the arguments of a request.

ghost use Rattle.std.specs.Prelude.{◌≡◌, codes};
ghost use Rattle.ggrammar.specs.PeerErrors.{after_word};
ghost use Rattle.std.specs.Option.{option_copied, option_map};
ghost use Rattle.ggrammar.specs.CapabilityView.{capability_view};
ghost use Rattle.grequest.specs.Arguments.{agent_with, format_with, known_capability, capability_form, ls_argument, fetch_argument, ref_prefix_or_unknown, want_or_else, have_or_unknown};
ghost use Rattle.grequest.specs.steps.RequestState.{CarriesWord};
ghost use Rattle.grequest.specs.steps.Views.{capability_in, ls_argument_in, fetch_argument_in};

use crate::flag::{FETCH_FLAGS, FetchFlag, LS_REFS_FLAGS, LsRefsFlag, flag_in};
use ggrammar::{Capability, after_word, capability_of, is_word_value};

/// A text of a request's capability list (gitprotocol-v2(5), "agent", "object-format").
#[derive(Clone, Copy, Debug, PartialEq, Eq)]
pub(crate) enum CapabilityForm<'a> {
    Agent(&'a [u8]),
    ObjectFormat(&'a [u8]),
    /// A capability whose key is neither `agent` nor `object-format`.
    Unknown,
    /// A text that is not a valid capability.
    Bad,
}

/// An argument of ls-refs.
#[derive(Clone, Copy, Debug, PartialEq, Eq)]
pub(crate) enum LsArgument<'a> {
    Flag(LsRefsFlag),
    /// The text after `ref-prefix `, which may be malformed.
    RefPrefix(&'a [u8]),
    /// A text of any other form.
    Unknown,
}

/// An argument of fetch.
#[derive(Clone, Copy, Debug, PartialEq, Eq)]
pub(crate) enum FetchArgument<'a> {
    Flag(FetchFlag),
    /// The text after `want `, which may be malformed.
    Want(&'a [u8]),
    /// The text after `have `, which may be malformed.
    Have(&'a [u8]),
    /// A text of any other form.
    Unknown,
}

/// Returns the kind of a text of the capability list.
#[tactic(auto, unfolding(crate::specs::Arguments::capability_form))]
pub(crate) fn capability_form(text: &[u8]) -> CapabilityForm<'_>
    ensures form { capability_in result ≡ capability_form text.now }
    ensures word { CarriesWord (capability_in result) }
{
    match capability_of(text) {
        Some(capability) => known_capability(&capability),
        None => CapabilityForm::Bad,
    }
}

fn known_capability<'a>(capability: &Capability<'a>) -> CapabilityForm<'a>
    ensures form { capability_in result ≡ known_capability (capability_view capability.now) }
    ensures word { CarriesWord (capability_in result) }
{
    if capability.key == b"agent".as_slice() {
        agent_with(capability.value)
    } else if capability.key == b"object-format".as_slice() {
        format_with(capability.value)
    } else {
        CapabilityForm::Unknown
    }
}

fn agent_with(value: Option<&[u8]>) -> CapabilityForm<'_>
    ensures form { capability_in result ≡ agent_with (option_copied value.entry) }
    ensures word { CarriesWord (capability_in result) }
{
    match value {
        Some(value) if is_word_value(value) => CapabilityForm::Agent(value),
        _ => CapabilityForm::Bad,
    }
}

fn format_with(value: Option<&[u8]>) -> CapabilityForm<'_>
    ensures form { capability_in result ≡ format_with (option_copied value.entry) }
    ensures word { CarriesWord (capability_in result) }
{
    match value {
        Some(value) => CapabilityForm::ObjectFormat(value),
        None => CapabilityForm::Bad,
    }
}

/// Returns the ls-refs argument that a text encodes.
#[tactic(auto, unfolding(crate::specs::Arguments::ls_argument))]
pub(crate) fn ls_argument(text: &[u8]) -> LsArgument<'_>
    ensures { ls_argument_in result ≡ ls_argument text.now }
{
    match flag_in(LS_REFS_FLAGS, text) {
        Some(flag) => LsArgument::Flag(flag),
        None => ref_prefix(text),
    }
}

fn ref_prefix(text: &[u8]) -> LsArgument<'_>
    ensures { ls_argument_in result
        ≡ ref_prefix_or_unknown (after_word (codes "ref-prefix ") text.now) }
{
    match after_word(b"ref-prefix ", text) {
        Some(prefix) => LsArgument::RefPrefix(prefix),
        None => LsArgument::Unknown,
    }
}

/// Returns the fetch argument that a text encodes.
#[tactic(auto, unfolding(crate::specs::Arguments::fetch_argument))]
pub(crate) fn fetch_argument(text: &[u8]) -> FetchArgument<'_>
    ensures { fetch_argument_in result ≡ fetch_argument text.now }
{
    match flag_in(FETCH_FLAGS, text) {
        Some(flag) => FetchArgument::Flag(flag),
        None => want_or_have(text),
    }
}

fn want_or_have(text: &[u8]) -> FetchArgument<'_>
    ensures { fetch_argument_in result
        ≡ want_or_else (after_word (codes "want ") text.now)
        (have_or_unknown (after_word (codes "have ") text.now)) }
{
    if let Some(id) = after_word(b"want ", text) {
        return FetchArgument::Want(id);
    }
    match after_word(b"have ", text) {
        Some(id) => FetchArgument::Have(id),
        None => FetchArgument::Unknown,
    }
}
