use anyhow::Result;
use record_codec::reading::{text_at, truth_at, u32_at};
use record_codec::{
    Packed, ShareEntry, ShareEntryRow, ShareRec, UnmarkedEntryRow, Unpack, WatchRec, WatchRow,
    list_at,
};
use std::alloc::Global;

// An open by pid 101 with read and write access, shared fully, with a lease, durable for 60 seconds.
const ENTRY: [u8; 54] = [
    101, 0, 0, 0, 1, 0, 0, 0, 101, 0, 0, 0, 1, 0, 0, 0, 1, 0, 0, 0, 3, 0, 0, 0, 7, 1, 11, 0, 0, 0,
    0, 0, 0, 0, 5, 0, 0, 0, 0, 0, 0, 0, 60, 0, 0, 0, 100, 0, 0, 0, 0, 0, 0, 0,
];

/// What is done to a share mode record with so many entries, in version 2, or in version 1 for an old one.
#[derive(Clone, Copy)]
pub enum RecordWork {
    Pack,
    Unpack,
    Judge,
    PackOld,
    UnpackOld,
    JudgeOld,
}

impl RecordWork {
    pub fn named(word: &str) -> Option<RecordWork> {
        match word {
            "pack" => Some(RecordWork::Pack),
            "unpack" => Some(RecordWork::Unpack),
            "judge" => Some(RecordWork::Judge),
            "pack_old" => Some(RecordWork::PackOld),
            "unpack_old" => Some(RecordWork::UnpackOld),
            "judge_old" => Some(RecordWork::JudgeOld),
            _ => None,
        }
    }
}

/// Does it so often, and answers how many bytes the record has.
pub fn count(alloc: Global, work: RecordWork, entries: u32, times: u32) -> Result<u64> {
    let bytes = match work {
        RecordWork::Pack | RecordWork::Unpack | RecordWork::Judge => record_bytes(alloc, entries)?,
        RecordWork::PackOld | RecordWork::UnpackOld | RecordWork::JudgeOld => {
            old_record_bytes(alloc, entries)?
        }
    };
    match work {
        RecordWork::Pack => pack_often(alloc, bytes.as_slice(), times)?,
        RecordWork::PackOld => pack_old_often(alloc, bytes.as_slice(), times)?,
        RecordWork::Unpack | RecordWork::UnpackOld => unpack_often(alloc, bytes.as_slice(), times)?,
        RecordWork::Judge => judge_often(bytes.as_slice(), times)?,
        RecordWork::JudgeOld => judge_old_often(bytes.as_slice(), times)?,
    }
    Ok(bytes.len() as u64)
}

/// The record of file 1, `/srv/data` and `a.txt`, with so many entries.
pub fn record_bytes(alloc: Global, entries: u32) -> Result<Vec<u8>> {
    let mut bytes = Vec::new(alloc);
    bytes.extend_from_slice(b"SHAR\x02\x00\x01\x00\x00\x00\x09\x00/srv/data\x05\x00a.txt\x00")?;
    bytes.extend_from_slice(&entries.to_le_bytes())?;
    for _ in 0..entries {
        bytes.extend_from_slice(&ENTRY)?;
        bytes.push(0)?;
    }
    bytes.extend_from_slice(&[0, 0, 0, 0])?;
    Ok(bytes)
}

// The same in version 1.
fn old_record_bytes(alloc: Global, entries: u32) -> Result<Vec<u8>> {
    let mut bytes = Vec::new(alloc);
    bytes.extend_from_slice(b"SHAR\x01\x00\x01\x00\x00\x00\x09\x00/srv/data\x05\x00a.txt")?;
    bytes.extend_from_slice(&entries.to_le_bytes())?;
    for _ in 0..entries {
        bytes.extend_from_slice(&ENTRY)?;
    }
    bytes.extend_from_slice(&[0, 0, 0, 0])?;
    Ok(bytes)
}

fn pack_often(alloc: Global, bytes: &[u8], times: u32) -> Result<(), Unpack> {
    let record = ShareRec::unpack(alloc, bytes)?;
    for _ in 0..times {
        let _packed = record.pack(alloc)?;
    }
    Ok(())
}

fn pack_old_often(alloc: Global, bytes: &[u8], times: u32) -> Result<(), Unpack> {
    let record = ShareRec::unpack(alloc, bytes)?;
    if record.has_no_mark() {
        for _ in 0..times {
            let _packed = record.pack_old(alloc)?;
        }
    }
    Ok(())
}

fn unpack_often(alloc: Global, bytes: &[u8], times: u32) -> Result<(), Unpack> {
    for _ in 0..times {
        let _record = ShareRec::unpack(alloc, bytes)?;
    }
    Ok(())
}

/// Judges the whole record in place.
pub fn is_record(bytes: &[u8]) -> Result<bool, Unpack> {
    let (_version, rest) = ShareRec::header_at(bytes)?;
    let (_file, rest) = u32_at(rest)?;
    let (_path, rest) = text_at(rest, 4)?;
    let (_name, rest) = text_at(rest, 5)?;
    let (_pending, rest) = truth_at(rest, 6)?;
    let (_entries, rest) = list_at::<ShareEntry, ShareEntryRow>(rest)?;
    let (_watchers, rest) = list_at::<WatchRec, WatchRow>(rest)?;
    Ok(rest.is_empty())
}

fn is_old_record(bytes: &[u8]) -> Result<bool, Unpack> {
    let (_version, rest) = ShareRec::header_at(bytes)?;
    let (_file, rest) = u32_at(rest)?;
    let (_path, rest) = text_at(rest, 4)?;
    let (_name, rest) = text_at(rest, 5)?;
    let (_entries, rest) = list_at::<ShareEntry, UnmarkedEntryRow>(rest)?;
    let (_watchers, rest) = list_at::<WatchRec, WatchRow>(rest)?;
    Ok(rest.is_empty())
}

fn judge_often(bytes: &[u8], times: u32) -> Result<(), Unpack> {
    for _ in 0..times {
        if !is_record(bytes)? {
            return Err(Unpack::Trailing);
        }
    }
    Ok(())
}

fn judge_old_often(bytes: &[u8], times: u32) -> Result<(), Unpack> {
    for _ in 0..times {
        if !is_old_record(bytes)? {
            return Err(Unpack::Trailing);
        }
    }
    Ok(())
}
