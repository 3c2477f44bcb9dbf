//! Reading a scenario.

ghost use Rattle.std.specs.Prelude.{◌≡◌, ◌++◌, ◌∷◌, [], IfOk, MatchOption, MatchResult};
ghost use Rattle.gobject.specs.PlainPackText.{IsInLine, line};
ghost use Rattle.gscenario.specs.ScenarioText.{BeginsWithCommand, IsLineOf, IsNoLine, IsScenario, Refuses};

use crate::arguments::event_of;
use crate::command::EventWord;
use crate::event::Event;
use crate::fault::ScenarioFault;
use crate::words::first_word;
use memchr::memchr;
use std::alloc::{AllocError, Allocator};

/// A text that encodes a list of events.
///
/// Each event is one line. The line ends with a line feed. Single spaces separate the words of a
/// line. A line has one of these forms:
///
/// - `begin SPEC SPEC ..`, with at least one refspec
/// - `ask`, `settle`, `restart-client`, `restart-server`
/// - `serve K`
/// - `deliver J N`, or `deliver J all`
/// - `forge BYTES`, `stranger BYTES`
/// - `server-add c ID PARENT ..` for a commit, or `server-add t ID PARENT ..` for a tag.
///   `client-add` has the same arguments.
/// - `server-ref ID NAME`, `client-ref ID NAME`
///
/// `K`, `J` and `N` are decimal numbers without leading zeros, below 2^63. `BYTES` has two
/// hexadecimal digits for each byte, or `-` for an empty list. Ids have 40 or 64 hexadecimal
/// digits. Hexadecimal digits may be in either case.
pub struct Scenario;

impl Scenario {
    /// Reads a text that encodes a list of events, and returns the events.
    ///
    /// Fails with `Scenario` at the first line that does not encode an event, or has no line feed.
    /// Fails with `Memory` if there is not enough memory for the event of a line. In that case the
    /// line begins with a command, and all earlier lines are valid.
    pub fn read<A: Allocator + Copy>(
        alloc: A,
        text: &[u8],
    ) -> Result<Vec<Event<A>, A>, ScenarioFault>
        ensures { MatchResult result (λ events. IsScenario text.now events.items)
            (Refuses A text.now) }
    {
        let mut events = Vec::new(alloc);
        let mut rest = text;
        let mut number = 1;
        while let Some(pair) = split_line(rest) {
            match read_line(alloc, pair.0)? {
                Some(event) => keep(&mut events, event)?,
                None => return Err(ScenarioFault::Scenario { line: number }),
            }
            number += 1;
            rest = pair.1;
        }
        if rest.is_empty() {
            Ok(events)
        } else {
            Err(ScenarioFault::Scenario { line: number })
        }
    }
}

// Appends the event to the list.
fn keep<A: Allocator + Copy>(
    events: &mut Vec<Event<A>, A>,
    event: Event<A>,
) -> Result<(), AllocError>
    ensures { IfOk result (λ _. events.new.items ≡ events.old.items ++ event ∷ []) }
{
    events.push(event)?;
    Ok(())
}

// Returns the event of the line, or `None` if the line is malformed.
fn read_line<A: Allocator + Copy>(alloc: A, line: &[u8]) -> Result<Option<Event<A>>, AllocError>
    ensures { MatchResult result (λ found. MatchOption found (IsNoLine A line.now)
        (IsLineOf line.now)) (λ _. BeginsWithCommand line.now) }
{
    let (word, tail) = first_word(line);
    match EventWord::of(word) {
        Some(command) => event_of(alloc, command, tail),
        None => Ok(None),
    }
}

// Returns the first line without its line feed, and the text after the line feed. Returns `None` if
// the text has no line feed.
fn split_line(text: &[u8]) -> Option<(&[u8], &[u8])>
    ensures { MatchOption result (IsInLine text.now) (λ pair.
        (text.now ≡ line pair.0.now ++ pair.1.now) × IsInLine pair.0.now) }
{
    match memchr(b'\n', text) {
        Some(end) => Some((&text[..end], &text[end + 1..])),
        None => None,
    }
}
