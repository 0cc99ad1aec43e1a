//! Tests of brlock: ranges of several opens in one record, some of opens that don't count.
use brlock::{RAnswer, check_io, lock, overlap, range_conflict, unlock};
use record_codec::{RangeItem, RangeRec};
use sid_core::{Items, Mode, OpenId, Span};
use std::alloc::Global;
use std::test::Fail;

const LAST: u64 = u64::MAX;

// Pids 1 and 2 have an open that counts. That of pid 9 doesn't.
const VALID: [OpenId; 2] = [OpenId { pid: 2, call: 1 }, OpenId { pid: 1, call: 1 }];

fn open(pid: u32) -> OpenId {
    OpenId { pid, call: 1 }
}

fn span(start: u64, length: u64) -> Span {
    Span { start, length }
}

fn item(pid: u32, start: u64, length: u64, mode: Mode) -> RangeItem {
    RangeItem {
        id: open(pid),
        start,
        length,
        mode,
    }
}

// What is answered, as its number in this list, with the pid of the open that is in the way.
fn answered(answer: RAnswer) -> (u32, u32) {
    match answer {
        RAnswer::Granted => (0, 0),
        RAnswer::Conflict(id) => (1, id.pid),
        RAnswer::InvalidRange => (2, 0),
        RAnswer::OutOfMemory => (3, 0),
    }
}

fn asks(rec: &mut RangeRec, pid: u32, start: u64, length: u64, mode: Mode) -> (u32, u32) {
    answered(lock(rec, &VALID, open(pid), span(start, length), mode))
}

fn forbids(rec: &RangeRec, pid: u32, start: u64, write: bool) -> Option<u32> {
    check_io(rec, &VALID, open(pid), span(start, 1), write).map(|id| id.pid)
}

// Of an open that doesn't count, over everything.
fn stale_ranges(alloc: Global) -> Result<RangeRec, Fail> {
    Ok(RangeRec {
        file: 1,
        ranges: Items::from_vec(vec![in alloc; item(9, 0, LAST, Mode::Exclusive)]?),
        watchers: Items::new(alloc),
    })
}

#[test]
fn ranges_overlap_and_conflict(rt: HostRuntime) -> Result<(), Fail> {
    // The first range, the second one, and whether they overlap.
    let cases: [((u64, u64), (u64, u64), bool); 9] = [
        ((10, 10), (19, 5), true),
        ((10, 10), (20, 5), false),
        ((10, 10), (15, 0), true),
        ((10, 10), (10, 0), false),
        ((10, 10), (20, 0), false),
        ((15, 0), (15, 0), false),
        ((LAST, 1), (0, LAST), false),
        ((LAST, 1), (1, LAST), true),
        ((LAST, 0), (LAST - 1, 2), true),
    ];
    for (a, b, overlaps) in cases {
        assert_eq!(rt; overlap(span(a.0, a.1), span(b.0, b.1)), overlaps);
        assert_eq!(rt; overlap(span(b.0, b.1), span(a.0, a.1)), overlaps);
    }
    let shared = item(1, 0, 10, Mode::Shared);
    let exclusive = item(1, 0, 10, Mode::Exclusive);
    assert!(rt; !range_conflict(shared, open(2), span(5, 1), Mode::Shared));
    assert!(rt; range_conflict(shared, open(1), span(5, 1), Mode::Exclusive));
    assert!(rt; !range_conflict(exclusive, open(1), span(5, 1), Mode::Shared));
    assert!(rt; range_conflict(exclusive, open(2), span(5, 1), Mode::Shared));
    Ok(())
}

#[test]
fn ranges_come_and_go(rt: HostRuntime) -> Result<(), Fail> {
    let mut rec = stale_ranges(rt.alloc())?;
    assert_eq!(rt; asks(&mut rec, 1, LAST, 1, Mode::Exclusive), (0, 0));
    assert_eq!(rt; asks(&mut rec, 1, LAST, 2, Mode::Exclusive), (2, 0));
    assert_eq!(rt; asks(&mut rec, 1, 10, 10, Mode::Exclusive), (0, 0));
    assert_eq!(rt; asks(&mut rec, 2, 10, 0, Mode::Exclusive), (0, 0));
    assert_eq!(rt; asks(&mut rec, 2, 15, 0, Mode::Exclusive), (1, 1));
    assert_eq!(rt; asks(&mut rec, 2, 20, 0, Mode::Exclusive), (0, 0));
    // The open's own range lets a shared one in, and no exclusive one.
    assert_eq!(rt; asks(&mut rec, 1, 10, 10, Mode::Shared), (0, 0));
    assert_eq!(rt; asks(&mut rec, 1, 19, 5, Mode::Exclusive), (1, 1));
    // The exclusive range goes first, and then the shared one.
    assert!(rt; unlock(&mut rec, open(1), span(10, 10)));
    assert_eq!(rt; asks(&mut rec, 2, 10, 10, Mode::Shared), (0, 0));
    assert_eq!(rt; asks(&mut rec, 2, 10, 10, Mode::Exclusive), (1, 1));
    assert!(rt; unlock(&mut rec, open(1), span(10, 10)));
    assert!(rt; !unlock(&mut rec, open(1), span(10, 10)));
    assert!(rt; !unlock(&mut rec, open(2), span(10, 9)));
    // The stale one is still there.
    assert_eq!(rt; rec.ranges.len(), 5);
    assert!(rt; unlock(&mut rec, open(9), span(0, LAST)));
    Ok(())
}

#[test]
fn ranges_forbid_reads_and_writes(rt: HostRuntime) -> Result<(), Fail> {
    let mut rec = stale_ranges(rt.alloc())?;
    assert_eq!(rt; asks(&mut rec, 1, 0, 10, Mode::Exclusive), (0, 0));
    assert_eq!(rt; asks(&mut rec, 2, 20, 10, Mode::Shared), (0, 0));
    // The pid, where it reads and writes, and whose open forbids that.
    let cases: [(u32, u64, Option<u32>, Option<u32>); 5] = [
        (1, 9, None, None),
        (2, 9, Some(1), Some(1)),
        (2, 10, None, None),
        (1, 20, None, Some(2)),
        (2, 29, None, Some(2)),
    ];
    for (pid, start, reads, writes) in cases {
        assert!(rt; forbids(&rec, pid, start, false) == reads);
        assert!(rt; forbids(&rec, pid, start, true) == writes);
    }
    Ok(())
}
