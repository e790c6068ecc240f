//! Writing an object file.
ghost use Rattle.std.specs.Prelude.{◌≡◌, [], ◌∷◌, ◌++◌, ◌≤◌, length, flat_map, OnOk, IfOk};
ghost use Rattle.std.specs.Int.{w32, to_le_bytes};
ghost use Rattle.hic_isa.specs.Spelling.{spelling};
ghost use Rattle.hic_object.specs.Parts.{parts, most_tasks, most_segments, most_instructions, most_records};
ghost use Rattle.hic_object.specs.Spelled.{head, kind_bytes, data_bytes, spelled};

use crate::object::DataRec;
use hic_isa::{Instr, SegKind, encode};
use std::alloc::{AllocError, Global};

/// Magic, version and counts.
fn put_head(
    out: &mut Vec<u8>,
    tasks: u8,
    segments: u16,
    code: u32,
    words: u32,
) -> Result<(), AllocError>
    ensures { OnOk result (out.new.items ≡
        out.old.items ++ (head tasks segments ++ (to_le_bytes w32 code ++ to_le_bytes w32 words))) }
{
    out.extend_from_slice(&[b'H', b'I', b'C', b'P', 1, tasks])?;
    out.extend_from_slice(&segments.to_le_bytes())?;
    out.extend_from_slice(&code.to_le_bytes())?;
    out.extend_from_slice(&words.to_le_bytes())?;
    Ok(())
}

/// Each entry.
fn put_entries(out: &mut Vec<u8>, entries: &[u32]) -> Result<(), AllocError>
    ensures { OnOk result (out.new.items ≡ out.old.items ++ flat_map (to_le_bytes w32) entries.now) }
{
    for entry in entries {
        out.extend_from_slice(&entry.to_le_bytes())?;
    }
    Ok(())
}

/// The byte of a kind.
fn kind_byte(kind: SegKind) -> u8
    ensures { result ∷ [] ≡ kind_bytes kind }
{
    match kind {
        SegKind::Plain => 0,
        SegKind::Merge => 1,
    }
}

/// Each kind.
fn put_kinds(out: &mut Vec<u8>, kinds: &[SegKind]) -> Result<(), AllocError>
    ensures { OnOk result (out.new.items ≡ out.old.items ++ flat_map kind_bytes kinds.now) }
{
    for kind in kinds {
        out.push(kind_byte(*kind))?;
    }
    Ok(())
}

/// Segment, offset and value of a record.
fn put_record(out: &mut Vec<u8>, word: &DataRec) -> Result<(), AllocError>
    ensures { OnOk result (out.new.items ≡ out.old.items ++ data_bytes word.now) }
{
    out.extend_from_slice(&word.segment.to_le_bytes())?;
    out.extend_from_slice(&word.offset.to_le_bytes())?;
    out.extend_from_slice(&word.value.to_le_bytes())?;
    Ok(())
}

/// Each record.
fn put_words(out: &mut Vec<u8>, words: &[DataRec]) -> Result<(), AllocError>
    ensures { OnOk result (out.new.items ≡ out.old.items ++ flat_map data_bytes words.now) }
{
    for word in words {
        put_record(out, word)?;
    }
    Ok(())
}

/// Each instruction.
fn put_code(out: &mut Vec<u8>, code: &[Instr]) -> Result<(), AllocError>
    ensures { OnOk result (out.new.items ≡ out.old.items ++ flat_map spelling code.now) }
{
    for instr in code {
        out.extend_from_slice(&encode(*instr))?;
    }
    Ok(())
}

/// The one spelling of the object of these parts.
pub(crate) fn spell(
    alloc: Global,
    entries: &[u32],
    kinds: &[SegKind],
    words: &[DataRec],
    code: &[Instr],
) -> Result<Vec<u8>, AllocError>
    requires tasks { length entries.now ≤ most_tasks }
    requires segments { length kinds.now ≤ most_segments }
    requires words_count { length words.now ≤ most_records }
    requires code_count { length code.now ≤ most_instructions }
    ensures { IfOk result (λ bytes. bytes.items ≡ spelled (parts entries.now kinds.now words.now code.now)) }
{
    let len = 16 + 4 * entries.len() + kinds.len() + 14 * words.len() + 8 * code.len();
    let mut out = Vec::with_capacity(alloc, len)?;
    put_head(
        &mut out,
        entries.len() as u8,
        kinds.len() as u16,
        code.len() as u32,
        words.len() as u32,
    )?;
    put_entries(&mut out, entries)?;
    put_kinds(&mut out, kinds)?;
    put_words(&mut out, words)?;
    put_code(&mut out, code)?;
    Ok(out)
}
