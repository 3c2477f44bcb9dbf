//! The report of a fetch.

ghost use Rattle.std.specs.Prelude.{◌≡◌, ◌<◌, ◌++◌, IfOk, OnOk, Some, codes, length, slice_get};
ghost use Rattle.gname.specs.Ids.{id_text};
ghost use Rattle.gclientrepo.specs.declared.ask.Ask.{Ask};
ghost use Rattle.gclientrepo.specs.declared.ask.RefUpdate.TheVariants.{Moved};
ghost use Rattle.gcmd.specs.Reporting.{fetch_report, unborn_line, update_line, update_lines, update_text};

use gclient::{Asks, Fetched, RefUpdate};
use gname::{Oid, RefName};
use std::alloc::{AllocError, Allocator};

/// Returns the lines of the report: a line for each requested ref update, in order, and a line for
/// an unborn HEAD of the server. Fails only if out of memory.
pub(crate) fn report_of<A: Allocator + Copy>(
    alloc: A,
    fetched: &Fetched<A>,
) -> Result<Vec<u8, A>, AllocError>
    requires { length fetched.now.settled.updates.items ≡ length fetched.now.settled.asks }
    ensures { IfOk result (λ text. text.items ≡ fetch_report fetched.now) }
{
    let mut text = Vec::new(alloc);
    put_updates(
        &mut text,
        &fetched.settled.asks,
        fetched.settled.updates.as_slice(),
    )?;
    put_unborn(&mut text, &fetched.unborn)?;
    Ok(text)
}

// Appends a line for each requested ref update.
fn put_updates<A: Allocator + Copy>(
    text: &mut Vec<u8, A>,
    asks: &Asks<A>,
    updates: &[RefUpdate],
) -> Result<(), AllocError>
    requires { length updates.now ≡ length asks.now }
    ensures { OnOk result (text.new.items ≡ text.old.items ++ update_lines asks.now updates.now) }
{
    for place in 0..asks.len() {
        put_ask(text, asks, place, update_at(updates, place))?;
    }
    Ok(())
}

fn update_at(updates: &[RefUpdate], place: usize) -> RefUpdate
    requires { place < length updates.now }
    ensures { slice_get updates.now place ≡ Some result }
{
    updates[place]
}

// Appends a line for the requested ref update at this index, with its result.
fn put_ask<A: Allocator + Copy>(
    text: &mut Vec<u8, A>,
    asks: &Asks<A>,
    place: usize,
    update: RefUpdate,
) -> Result<(), AllocError>
    requires { place < length asks.now }
    ensures { OnOk result ((ask : Ask A) × (slice_get asks.now place ≡ Some ask)
        × (text.new.items ≡ text.old.items ++ update_line ask update)) }
{
    match asks.at(place) {
        Some(pair) => put_update(text, pair.0, pair.1, update),
        None => unreachable!(),
    }
}

// Appends a line for the update of one ref to an id.
fn put_update<A: Allocator + Copy>(
    text: &mut Vec<u8, A>,
    name: &RefName<A>,
    id: Oid,
    update: RefUpdate,
) -> Result<(), AllocError>
    ensures { OnOk result (text.new.items ≡ text.old.items ++ update_text name.now id update) }
{
    match update {
        RefUpdate::Moved => put_moved(text, name, &id),
        RefUpdate::Same => put_line(text, b"same ", name),
        RefUpdate::NotForward => put_line(text, b"notforward ", name),
    }
}

fn put_moved<A: Allocator + Copy>(
    text: &mut Vec<u8, A>,
    name: &RefName<A>,
    id: &Oid,
) -> Result<(), AllocError>
    ensures { OnOk result (text.new.items ≡ text.old.items ++ update_text name.now id.now Moved) }
{
    put_named(text, b"moved ", name)?;
    text.extend_from_slice(b" ")?;
    id.push_hex(text)?;
    text.extend_from_slice(b"\n")
}

// Appends a line for an unborn HEAD of the server, if there is one.
fn put_unborn<A: Allocator + Copy>(
    text: &mut Vec<u8, A>,
    unborn: &Option<RefName<A>>,
) -> Result<(), AllocError>
    ensures { OnOk result (text.new.items ≡ text.old.items ++ unborn_line unborn.now) }
{
    match unborn {
        Some(name) => put_line(text, b"unborn ", name),
        None => Ok(()),
    }
}

// Appends a line that consists of a word and a ref name.
fn put_line<A: Allocator + Copy>(
    text: &mut Vec<u8, A>,
    word: &[u8],
    name: &RefName<A>,
) -> Result<(), AllocError>
    ensures { OnOk result (text.new.items
        ≡ text.old.items ++ (word.now ++ (name.now ++ codes "\n"))) }
{
    put_named(text, word, name)?;
    text.extend_from_slice(b"\n")
}

// Appends a word and a ref name.
fn put_named<A: Allocator + Copy>(
    text: &mut Vec<u8, A>,
    word: &[u8],
    name: &RefName<A>,
) -> Result<(), AllocError>
    ensures { OnOk result (text.new.items ≡ text.old.items ++ (word.now ++ name.now)) }
{
    text.extend_from_slice(word)?;
    text.extend_from_slice(name.as_bytes())
}
