//! The printed lines of a simulation: the outcomes of its events, and the ids of the client's refs.

ghost use Rattle.std.specs.Prelude.{◌≡◌, ◌<◌, ◌++◌, IfOk, OnOk, Some, length, slice_get};
ghost use Rattle.std.specs.List.{flat_map};
ghost use Rattle.gworld.specs.declared.outcome.Outcome.TheVariants as outcome;
ghost use Rattle.gsimulate.specs.Lines.{outcome_line, outcome_text, ref_line, simulated_text};

use ggraph::Refs;
use gname::{Oid, RefName};
use gworld::Outcome;
use itoa::{Buffer, Integer};
use std::alloc::{AllocError, Allocator};

/// Returns a line for each outcome, followed by a line for each ref. Fails only if out of memory.
pub(crate) fn text_of<A: Allocator + Copy>(
    alloc: A,
    outcomes: &[Outcome],
    refs: &Refs<A>,
) -> Result<Vec<u8, A>, AllocError>
    ensures { IfOk result (λ text. text.items ≡ simulated_text outcomes.now refs.now) }
{
    let mut text = Vec::new(alloc);
    put_outcomes(&mut text, outcomes)?;
    put_refs(&mut text, refs.as_slice())?;
    Ok(text)
}

fn put_outcomes<A: Allocator + Copy>(
    text: &mut Vec<u8, A>,
    outcomes: &[Outcome],
) -> Result<(), AllocError>
    ensures { OnOk result (text.new.items ≡ text.old.items ++ flat_map outcome_line outcomes.now) }
{
    for index in 0..outcomes.len() {
        put_line(text, &outcome_at(outcomes, index))?;
    }
    Ok(())
}

fn outcome_at(outcomes: &[Outcome], index: usize) -> Outcome
    requires { index < length outcomes.now }
    ensures { slice_get outcomes.now index ≡ Some result }
{
    outcomes[index]
}

fn put_line<A: Allocator + Copy>(text: &mut Vec<u8, A>, outcome: &Outcome) -> Result<(), AllocError>
    ensures { OnOk result (text.new.items ≡ text.old.items ++ outcome_line outcome.now) }
{
    put_outcome(text, outcome)?;
    text.extend_from_slice(b"\n")
}

fn put_outcome<A: Allocator + Copy>(
    text: &mut Vec<u8, A>,
    outcome: &Outcome,
) -> Result<(), AllocError>
    ensures { OnOk result (text.new.items ≡ text.old.items ++ outcome_text outcome.now) }
{
    match outcome {
        Outcome::Done => text.extend_from_slice(b"done"),
        Outcome::Asked { request } => put_count(text, b"asked ", *request),
        Outcome::Served { reply } => put_count(text, b"served ", *reply),
        Outcome::StrangerServed { written } => put_count(text, b"stranger ", *written),
        Outcome::LsTaken { asks, wants } => put_taken(text, *asks, *wants),
        Outcome::Round { common } => put_count(text, b"round common=", *common),
        Outcome::PackTaken { added } => put_count(text, b"pack added=", *added),
        Outcome::Settled {
            moved,
            same,
            not_forward,
        } => put_settled(text, *moved, *same, *not_forward),
        Outcome::Fault { code } => put_count(text, b"fault ", *code),
    }
}

// Appends the number of requested ref updates, and the number of wanted objects.
fn put_taken<A: Allocator + Copy>(
    text: &mut Vec<u8, A>,
    asks: usize,
    wants: usize,
) -> Result<(), AllocError>
    ensures { OnOk result (text.new.items
        ≡ text.old.items ++ outcome_text (outcome.LsTaken asks wants)) }
{
    put_count(text, b"ls asks=", asks)?;
    put_count(text, b" wants=", wants)
}

// Appends the numbers of three kinds of refs: refs that moved, refs that already had their ids, and
// refs whose update was not a fast-forward.
fn put_settled<A: Allocator + Copy>(
    text: &mut Vec<u8, A>,
    moved: usize,
    same: usize,
    not_forward: usize,
) -> Result<(), AllocError>
    ensures { OnOk result (text.new.items
        ≡ text.old.items ++ outcome_text (outcome.Settled moved same not_forward)) }
{
    put_count(text, b"settled moved=", moved)?;
    put_count(text, b" same=", same)?;
    put_count(text, b" notforward=", not_forward)
}

fn put_count<A: Allocator + Copy, I: Integer>(
    text: &mut Vec<u8, A>,
    word: &[u8],
    number: I,
) -> Result<(), AllocError>
    ensures { OnOk result (text.new.items ≡ text.old.items ++ (word.now ++ I.text number)) }
{
    text.extend_from_slice(word)?;
    let mut digits = Buffer::new();
    text.extend_from_slice(digits.format(number).as_bytes())
}

fn put_refs<A: Allocator + Copy>(
    text: &mut Vec<u8, A>,
    refs: &[(RefName<A>, Oid)],
) -> Result<(), AllocError>
    ensures { OnOk result (text.new.items ≡ text.old.items ++ flat_map ref_line refs.now) }
{
    for reference in refs {
        put_ref(text, &reference.0, &reference.1)?;
    }
    Ok(())
}

fn put_ref<A: Allocator + Copy>(
    text: &mut Vec<u8, A>,
    name: &RefName<A>,
    id: &Oid,
) -> Result<(), AllocError>
    ensures { OnOk result (text.new.items ≡ text.old.items ++ ref_line (name.now, id.now)) }
{
    text.extend_from_slice(b"ref ")?;
    id.push_hex(text)?;
    text.extend_from_slice(b" ")?;
    text.extend_from_slice(name.as_bytes())?;
    text.extend_from_slice(b"\n")
}
