//! Tests of a row with each `Variation`.

use crate::answers::{OUT_OF_MEMORY, RunInputs, SUCCESS, actual_result};
use crate::packs::correct_trailer;
use crate::row::{Row, TestedCall};
use crate::script::Script;
use crate::stores::{File, copy_files};
use crate::tally::{Tally, Variation};
use crate::trouble::Trouble;
use case_text::RefusingAllocator;
use std::rt::Files;

// The masks of the eight bits of a byte.
const BITS: [u8; 8] = [1, 2, 4, 8, 16, 32, 64, 128];

// An exclusive upper bound on the position of the refused allocation among all allocations.
const MAX_REFUSED: u64 = 100_000;

// An exclusive upper bound on the number of file-system calls before the files are replaced.
const MAX_CALLS: u64 = 60;

/// Tests each call of a row, with each `Variation` that applies to the row.
pub(crate) fn test_row<R: Files + Print + AllocGlobal>(
    rt: &R,
    script: &Script<'_>,
    row: &Row<'_>,
    tally: &mut Tally,
) -> Result<(), Trouble> {
    tally.count_row();
    let pack = script.pack_bytes(row.pack)?;
    let files = script.files(row.store)?;
    let replacement_files = script.files(row.replacement_store)?;
    for check in &row.checks {
        let inputs = RunInputs {
            row,
            check,
            pack: pack.as_slice(),
            files,
            replacement_files,
            calls_before_replacement: u64::MAX,
        };
        test_all_variations(rt, inputs, tally)?;
    }
    Ok(())
}

fn test_all_variations<R: Files + Print + AllocGlobal>(
    rt: &R,
    inputs: RunInputs<'_, '_>,
    tally: &mut Tally,
) -> Result<(), Trouble> {
    test_once(rt, inputs, (Variation::Unchanged, 0), tally)?;
    if inputs.row.is_large {
        return Ok(());
    }
    test_refused_allocations(rt, inputs, tally)?;
    if !inputs.row.replacement_store.is_empty() {
        test_replaced_files(rt, inputs, tally)?;
    }
    match inputs.check.tested_call {
        _ if !inputs.row.is_swept => Ok(()),
        TestedCall::IndexPack | TestedCall::ReceivePack | TestedCall::ReceiveInMemory => {
            test_changed_packs(rt, inputs, tally)
        }
        _ => test_changed_files(rt, inputs, tally),
    }
}

fn test_once<R: Files + Print + AllocGlobal>(
    rt: &R,
    inputs: RunInputs<'_, '_>,
    (variation, offset): (Variation, usize),
    tally: &mut Tally,
) -> Result<(), Trouble> {
    let actual_result = actual_result(rt, rt.alloc(), inputs)?;
    count_and_print(
        rt,
        inputs,
        (variation, offset),
        actual_result.as_str(),
        tally,
    )
}

// Counts a result, and prints it if it is wrong.
fn count_and_print<R: Print>(
    rt: &R,
    inputs: RunInputs<'_, '_>,
    (variation, offset): (Variation, usize),
    actual_result: &str,
    tally: &mut Tally,
) -> Result<(), Trouble> {
    let is_right = is_right(inputs, variation, actual_result);
    tally.count(variation, is_right);
    if !is_right {
        let (file_name, line_number, title) = (
            inputs.row.file_name,
            inputs.row.line_number,
            inputs.row.title,
        );
        let variation = variation.name();
        println!(rt;
            "{file_name}:{line_number}: {title}, {variation} at {offset}: {actual_result}"
        )?;
    }
    Ok(())
}

// Returns whether this result is allowed with this variation.
fn is_right(inputs: RunInputs<'_, '_>, variation: Variation, actual_result: &str) -> bool {
    let is_fault = !actual_result.starts_with(SUCCESS);
    let is_allowed = is_allowed_result(inputs, actual_result);
    match variation {
        Variation::Unchanged => actual_result.as_bytes() == inputs.check.expected.as_slice(),
        Variation::BrokenPack => is_fault,
        Variation::ChangedBits => is_fault || is_allowed,
        Variation::ReplacedFiles => is_allowed,
        Variation::RefusedAllocations => is_allowed || actual_result == OUT_OF_MEMORY,
    }
}

// Returns whether a result is the expected result, or one of the row's further results.
fn is_allowed_result(inputs: RunInputs<'_, '_>, actual_result: &str) -> bool {
    for expected in &inputs.row.other_results {
        if expected.as_slice() == actual_result.as_bytes() {
            return true;
        }
    }
    actual_result.as_bytes() == inputs.check.expected.as_slice()
}

// Tests a row with each allocation refused in turn.
fn test_refused_allocations<R: Files + Print + AllocGlobal>(
    rt: &R,
    inputs: RunInputs<'_, '_>,
    tally: &mut Tally,
) -> Result<(), Trouble> {
    for number in 1..MAX_REFUSED {
        let tested_alloc = RefusingAllocator::new(rt.alloc());
        tested_alloc.refuse_allocation(number);
        let actual_result = actual_result(rt, &tested_alloc, inputs)?;
        if tested_alloc.awaits_refusal() {
            break;
        }
        count_and_print(
            rt,
            inputs,
            (Variation::RefusedAllocations, 0),
            actual_result.as_str(),
            tally,
        )?;
    }
    Ok(())
}

// Tests a row whose files are replaced during the run. Each run replaces the files after a
// different number of file-system calls.
fn test_replaced_files<R: Files + Print + AllocGlobal>(
    rt: &R,
    inputs: RunInputs<'_, '_>,
    tally: &mut Tally,
) -> Result<(), Trouble> {
    let mut inputs = inputs;
    for calls_before_replacement in 0..MAX_CALLS {
        inputs.calls_before_replacement = calls_before_replacement;
        test_once(rt, inputs, (Variation::ReplacedFiles, 0), tally)?;
    }
    Ok(())
}

// Tests the pack truncated at each offset, and with each bit flipped in turn.
fn test_changed_packs<R: Files + Print + AllocGlobal>(
    rt: &R,
    inputs: RunInputs<'_, '_>,
    tally: &mut Tally,
) -> Result<(), Trouble> {
    for offset in 0..inputs.pack.len() {
        test_truncated_pack(rt, inputs, offset, tally)?;
        test_flipped_bits(rt, inputs, offset, tally)?;
    }
    Ok(())
}

// Tests a truncated pack, first without a correct trailer and then with one.
fn test_truncated_pack<R: Files + Print + AllocGlobal>(
    rt: &R,
    inputs: RunInputs<'_, '_>,
    offset: usize,
    tally: &mut Tally,
) -> Result<(), Trouble> {
    let prefix = inputs.pack.get(..offset).unwrap_or(b"");
    let truncated_pack = prefix.to_vec(rt.alloc())?;
    test_both_trailers(
        rt,
        inputs,
        truncated_pack,
        (Variation::BrokenPack, offset),
        tally,
    )
}

// Tests a pack with each bit of one byte flipped, first with the old trailer and then with a
// correct trailer.
fn test_flipped_bits<R: Files + Print + AllocGlobal>(
    rt: &R,
    inputs: RunInputs<'_, '_>,
    offset: usize,
    tally: &mut Tally,
) -> Result<(), Trouble> {
    for bit in BITS {
        let mut changed_pack = inputs.pack.to_vec(rt.alloc())?;
        flip_bit(&mut changed_pack, offset, bit);
        test_both_trailers(
            rt,
            inputs,
            changed_pack,
            (Variation::ChangedBits, offset),
            tally,
        )?;
    }
    Ok(())
}

// Tests a changed pack as `BrokenPack`, and then with a correct trailer as this variation.
fn test_both_trailers<R: Files + Print + AllocGlobal>(
    rt: &R,
    inputs: RunInputs<'_, '_>,
    mut pack: Vec<u8>,
    (variation, offset): (Variation, usize),
    tally: &mut Tally,
) -> Result<(), Trouble> {
    test_pack(
        rt,
        inputs,
        pack.as_slice(),
        (Variation::BrokenPack, offset),
        tally,
    )?;
    correct_trailer(&mut pack)?;
    test_pack(rt, inputs, pack.as_slice(), (variation, offset), tally)
}

fn test_pack<R: Files + Print + AllocGlobal>(
    rt: &R,
    inputs: RunInputs<'_, '_>,
    pack: &[u8],
    variation_at: (Variation, usize),
    tally: &mut Tally,
) -> Result<(), Trouble> {
    let changed_inputs = RunInputs {
        row: inputs.row,
        check: inputs.check,
        pack,
        files: inputs.files,
        replacement_files: inputs.replacement_files,
        calls_before_replacement: inputs.calls_before_replacement,
    };
    test_once(rt, changed_inputs, variation_at, tally)
}

fn flip_bit(bytes: &mut Vec<u8>, offset: usize, bit: u8) {
    if let Some(byte) = bytes.get_mut(offset) {
        *byte ^= bit;
    }
}

// Tests a store with each bit of each file flipped.
fn test_changed_files<R: Files + Print + AllocGlobal>(
    rt: &R,
    inputs: RunInputs<'_, '_>,
    tally: &mut Tally,
) -> Result<(), Trouble> {
    for file_index in 0..inputs.files.len() {
        for offset in 0..inputs.files[file_index].bytes.len() {
            test_flipped_file_bits(rt, inputs, (file_index, offset), tally)?;
        }
    }
    Ok(())
}

// Tests a store with each bit of one byte flipped. Each result must be a fault, or a result that
// the row allows.
fn test_flipped_file_bits<R: Files + Print + AllocGlobal>(
    rt: &R,
    inputs: RunInputs<'_, '_>,
    (file_index, offset): (usize, usize),
    tally: &mut Tally,
) -> Result<(), Trouble> {
    let mut files = copy_files(rt.alloc(), inputs.files)?;
    for bit in BITS {
        flip_file_bit(&mut files, file_index, offset, bit);
        test_files(rt, inputs, files.as_slice(), offset, tally)?;
        flip_file_bit(&mut files, file_index, offset, bit);
    }
    Ok(())
}

fn test_files<R: Files + Print + AllocGlobal>(
    rt: &R,
    inputs: RunInputs<'_, '_>,
    files: &[File],
    offset: usize,
    tally: &mut Tally,
) -> Result<(), Trouble> {
    let changed_inputs = RunInputs {
        row: inputs.row,
        check: inputs.check,
        pack: inputs.pack,
        files,
        replacement_files: inputs.replacement_files,
        calls_before_replacement: inputs.calls_before_replacement,
    };
    test_once(rt, changed_inputs, (Variation::ChangedBits, offset), tally)
}

fn flip_file_bit(files: &mut Vec<File>, file_index: usize, offset: usize, bit: u8) {
    if let Some(file) = files.get_mut(file_index) {
        flip_bit(&mut file.bytes, offset, bit);
    }
}
