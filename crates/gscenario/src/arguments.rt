//! The arguments of a line, which are all words after the first.

ghost use Rattle.std.specs.Prelude.{◌≡◌, ◌≢◌, ◌∷◌, [], ℕ, List, MatchOption, MatchResult, ⊤};
ghost use Rattle.gname.specs.Names.{Name};
ghost use Rattle.gobject.specs.PlainPackText.{ids_of};
ghost use Rattle.gobject.specs.declared.node.Entry.{Entry};
ghost use Rattle.grefs.specs.Refspecs.{Refspec};
ghost use Rattle.gscenario.specs.ScenarioText.{AreNumberAndCount, AreOneBytes, AreSpecs, IsEntry, IsOneNumber, IsRef};
ghost use Rattle.gname.specs.Ids.{Id, IsIdText};
ghost use Rattle.std.specs.List.{AllZip};
ghost use Rattle.gscenario.specs.steps.Reading.{HasArguments, NoArguments, ReadsArguments, words_after};

use crate::command::EventWord;
use crate::event::Event;
use crate::words::{
    bytes_of, count_of, id_of, kind_of, name_of, next_word, no_word, number_of, one_word, two_words,
};
use gname::{Oid, RefName};
use gobject::{Entry, Kind, Node, Parents};
use grefs::{Spec, SpecFault};
use std::alloc::{AllocError, Allocator};

/// Returns the event of a line with this command, or `None` if `tail` is malformed. `tail` is the
/// rest of the line after the command.
pub(crate) fn event_of<A: Allocator + Copy>(
    alloc: A,
    command: EventWord,
    tail: &[u8],
) -> Result<Option<Event<A>>, AllocError>
    ensures { ReadsArguments command (words_after tail.now) result }
{
    match command {
        EventWord::Begin => begin(alloc, tail),
        EventWord::Ask => Ok(without_arguments(tail, Event::Ask)),
        EventWord::Serve => Ok(serve(tail)),
        EventWord::Deliver => Ok(deliver(tail)),
        EventWord::Forge => forge(alloc, tail),
        EventWord::StrangeRequest => strange_request(alloc, tail),
        EventWord::Settle => Ok(without_arguments(tail, Event::Settle)),
        EventWord::RestartClient => Ok(without_arguments(tail, Event::RestartClient)),
        EventWord::RestartServer => Ok(without_arguments(tail, Event::RestartServer)),
        EventWord::ServerAdd => server_add(alloc, tail),
        EventWord::ServerRef => server_ref(alloc, tail),
        EventWord::ClientAdd => client_add(alloc, tail),
        EventWord::ClientRef => client_ref(alloc, tail),
    }
}

// Returns the event of a command without arguments, or `None` if `tail` has words.
fn without_arguments<A: Allocator + Copy>(tail: &[u8], event: Event<A>) -> Option<Event<A>>
    ensures { MatchOption result (words_after tail.now ≢ [])
        (λ found. (found ≡ event) × (words_after tail.now ≡ [])) }
{
    if no_word(tail) { Some(event) } else { None }
}

// ---- one function for each kind of event

fn begin<A: Allocator + Copy>(alloc: A, tail: &[u8]) -> Result<Option<Event<A>>, AllocError>
    ensures { ReadsArguments EventWord.Begin (words_after tail.now) result }
{
    match specs_of(alloc, tail)? {
        Some(specs) => Ok(Some(Event::Begin(specs))),
        None => Ok(None),
    }
}

#[tactic(auto, using(crate::proofs::ArgumentLemmas::no_serve))]
fn serve<A: Allocator + Copy>(tail: &[u8]) -> Option<Event<A>>
    ensures { MatchOption result (NoArguments A EventWord.Serve (words_after tail.now))
        (HasArguments EventWord.Serve (words_after tail.now)) }
{
    match number_alone(tail) {
        Some(request) => Some(Event::Serve(request)),
        None => None,
    }
}

#[tactic(auto, using(crate::proofs::ArgumentLemmas::no_deliver))]
fn deliver<A: Allocator + Copy>(tail: &[u8]) -> Option<Event<A>>
    ensures { MatchOption result (NoArguments A EventWord.Deliver (words_after tail.now))
        (HasArguments EventWord.Deliver (words_after tail.now)) }
{
    match number_and_count(tail) {
        Some((reply, count)) => Some(Event::Deliver { reply, count }),
        None => None,
    }
}

#[tactic(auto, using(crate::proofs::ArgumentLemmas::no_forge))]
fn forge<A: Allocator + Copy>(alloc: A, tail: &[u8]) -> Result<Option<Event<A>>, AllocError>
    ensures { ReadsArguments EventWord.Forge (words_after tail.now) result }
{
    match bytes_alone(alloc, tail)? {
        Some(bytes) => Ok(Some(Event::Forge(bytes))),
        None => Ok(None),
    }
}

#[tactic(auto, using(crate::proofs::ArgumentLemmas::no_stranger))]
fn strange_request<A: Allocator + Copy>(
    alloc: A,
    tail: &[u8],
) -> Result<Option<Event<A>>, AllocError>
    ensures { ReadsArguments EventWord.StrangeRequest (words_after tail.now) result }
{
    match bytes_alone(alloc, tail)? {
        Some(bytes) => Ok(Some(Event::StrangeRequest(bytes))),
        None => Ok(None),
    }
}

#[tactic(auto, using(crate::proofs::ArgumentLemmas::no_server_add))]
fn server_add<A: Allocator + Copy>(alloc: A, tail: &[u8]) -> Result<Option<Event<A>>, AllocError>
    ensures { ReadsArguments EventWord.ServerAdd (words_after tail.now) result }
{
    match entry_of(alloc, tail)? {
        Some(entry) => Ok(Some(Event::ServerAdd(entry))),
        None => Ok(None),
    }
}

#[tactic(auto, using(crate::proofs::ArgumentLemmas::no_client_add))]
fn client_add<A: Allocator + Copy>(alloc: A, tail: &[u8]) -> Result<Option<Event<A>>, AllocError>
    ensures { ReadsArguments EventWord.ClientAdd (words_after tail.now) result }
{
    match entry_of(alloc, tail)? {
        Some(entry) => Ok(Some(Event::ClientAdd(entry))),
        None => Ok(None),
    }
}

#[tactic(auto, using(crate::proofs::ArgumentLemmas::no_server_ref))]
fn server_ref<A: Allocator + Copy>(alloc: A, tail: &[u8]) -> Result<Option<Event<A>>, AllocError>
    ensures { ReadsArguments EventWord.ServerRef (words_after tail.now) result }
{
    match ref_of(alloc, tail)? {
        Some((name, id)) => Ok(Some(Event::ServerRef(name, id))),
        None => Ok(None),
    }
}

#[tactic(auto, using(crate::proofs::ArgumentLemmas::no_client_ref))]
fn client_ref<A: Allocator + Copy>(alloc: A, tail: &[u8]) -> Result<Option<Event<A>>, AllocError>
    ensures { ReadsArguments EventWord.ClientRef (words_after tail.now) result }
{
    match ref_of(alloc, tail)? {
        Some((name, id)) => Ok(Some(Event::ClientRef(name, id))),
        None => Ok(None),
    }
}

// ---- arguments that several kinds of event share

// Returns the number if `tail` is exactly one number, or `None` otherwise.
fn number_alone(tail: &[u8]) -> Option<usize>
    ensures { MatchOption result (((number : ℕ) → IsOneNumber (words_after tail.now) number → ⊥))
        (IsOneNumber (words_after tail.now)) }
{
    match one_word(tail) {
        Some(text) => number_of(text),
        None => None,
    }
}

// Returns the index of a reply and the number of bytes to deliver. Returns `None` if `tail` is not
// exactly these two arguments.
fn number_and_count(tail: &[u8]) -> Option<(usize, usize)>
    ensures { MatchOption result
        (((number count : ℕ) → AreNumberAndCount (words_after tail.now) number count → ⊥))
        (λ pair. AreNumberAndCount (words_after tail.now) pair.0 pair.1) }
{
    match two_words(tail) {
        Some((text, bytes)) => match number_of(text) {
            Some(number) => match count_of(bytes) {
                Some(count) => Some((number, count)),
                None => None,
            },
            None => None,
        },
        None => None,
    }
}

// Returns the bytes if `tail` is exactly one argument that encodes bytes, or `None` otherwise.
fn bytes_alone<A: Allocator + Copy>(alloc: A, tail: &[u8]) -> Result<Option<Vec<u8, A>>, AllocError>
    ensures { MatchResult result
        (λ found. MatchOption found (((bytes : List ℕ) → AreOneBytes (words_after tail.now) bytes
        → ⊥))
        (λ bytes. AreOneBytes (words_after tail.now) bytes.items))
        (λ _. ⊤) }
{
    match one_word(tail) {
        Some(text) => bytes_of(alloc, text),
        None => Ok(None),
    }
}

// Returns the refspecs in `tail`. Returns `None` if there are no arguments, or if an argument is
// not a refspec.
fn specs_of<A: Allocator + Copy>(
    alloc: A,
    tail: &[u8],
) -> Result<Option<Vec<Spec<A>, A>>, AllocError>
    ensures { MatchResult result
        (λ found. MatchOption found (((specs : List Refspec)
        → AreSpecs (words_after tail.now) specs → ⊥))
        (λ specs. AreSpecs (words_after tail.now) specs.items))
        (λ _. ⊤) }
{
    if no_word(tail) {
        return Ok(None);
    }
    let mut specs = Vec::new(alloc);
    let mut rest = tail;
    while let Some(next) = next_word(rest) {
        match Spec::parse(alloc, next.0) {
            Ok(spec) => specs.push(spec)?,
            Err(SpecFault::BadSpec) => return Ok(None),
            Err(SpecFault::Memory) => return Err(AllocError),
        }
        rest = next.1;
    }
    Ok(Some(specs))
}

// Returns the object that the arguments describe, or `None` if they are malformed.
fn entry_of<A: Allocator + Copy>(alloc: A, tail: &[u8]) -> Result<Option<Entry<A>>, AllocError>
    ensures { MatchResult result
        (λ found. MatchOption found (((entry : Entry A) → IsEntry (words_after tail.now) entry
        → ⊥))
        (IsEntry (words_after tail.now)))
        (λ _. ⊤) }
{
    match next_word(tail) {
        Some((word, rest)) => match kind_of(word) {
            Some(kind) => entry_of_kind(alloc, kind, rest),
            None => Ok(None),
        },
        None => Ok(None),
    }
}

// Returns the object of this kind, or `None` if the arguments are malformed. The arguments are the
// object's id and the ids of its parents.
fn entry_of_kind<A: Allocator + Copy>(
    alloc: A,
    kind: Kind,
    tail: &[u8],
) -> Result<Option<Entry<A>>, AllocError>
    ensures { MatchResult result
        (λ found. MatchOption found
        (((id : Id) (ids : List Id) → AllZip IsIdText (words_after tail.now) (id ∷ ids) → ⊥))
        (λ entry. (entry.node.kind ≡ kind)
        × AllZip IsIdText (words_after tail.now) (ids_of entry)))
        (λ _. ⊤) }
{
    match next_word(tail) {
        Some((word, rest)) => match id_of(word) {
            Some(id) => match parents_of(alloc, rest)? {
                Some(parents) => Ok(Some(Entry {
                    id,
                    node: Node { kind, parents },
                })),
                None => Ok(None),
            },
            None => Ok(None),
        },
        None => Ok(None),
    }
}

// Returns the ids of an object's parents, or `None` if an argument is not an id.
fn parents_of<A: Allocator + Copy>(alloc: A, tail: &[u8]) -> Result<Option<Parents<A>>, AllocError>
    ensures { MatchResult result
        (λ found. MatchOption found (((ids : List Id) → AllZip IsIdText (words_after tail.now) ids
        → ⊥))
        (AllZip IsIdText (words_after tail.now)))
        (λ _. ⊤) }
{
    let mut parents = Parents::new(alloc);
    let mut rest = tail;
    while let Some(next) = next_word(rest) {
        match id_of(next.0) {
            Some(id) => parents.push(id)?,
            None => return Ok(None),
        }
        rest = next.1;
    }
    Ok(Some(parents))
}

// Returns the ref name and the new id that the arguments encode, or `None` if they are malformed.
fn ref_of<A: Allocator + Copy>(
    alloc: A,
    tail: &[u8],
) -> Result<Option<(RefName<A>, Oid)>, AllocError>
    ensures { MatchResult result
        (λ found. MatchOption found (((name : Name) (id : Id)
        → IsRef (words_after tail.now) name id → ⊥))
        (λ pair. IsRef (words_after tail.now) pair.0 pair.1))
        (λ _. ⊤) }
{
    let Some((digits, text)) = two_words(tail) else {
        return Ok(None);
    };
    let Some(id) = id_of(digits) else {
        return Ok(None);
    };
    match name_of(alloc, text)? {
        Some(name) => Ok(Some((name, id))),
        None => Ok(None),
    }
}
