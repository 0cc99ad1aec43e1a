use record_codec::{
    GLockRec, Hold, LeaseRec, LeaseRef, MailRec, OpenRec, Packed, RangeItem, RangeRec, RegisterRec,
    ShareEntry, ShareEntryRow, ShareRec, SmallText, Token, UnmarkedEntryRow, Unpack, WatchRec,
    list_at, packed_and_unpacked,
};
use sid_core::{
    Access, Items, LeaseName, LeaseState, Letter, Mode, OpenId, OutOfMemory, Share, Sid, Spot,
};
use std::alloc::Global;
use std::process::Abort;
use std::test::Fail;

// The bytes are no record, for that reason.
fn is_refused<T: Packed, R: Abort>(rt: &R, alloc: Global, bytes: &[u8], fault: Unpack) {
    match T::unpack(alloc, bytes) {
        Ok(_) => assert!(rt; false, "no {fault:?}"),
        Err(e) => assert_eq!(rt; e, fault),
    }
}

// Cut at any length the bytes are short, one byte more is trailing, and with the byte at that place changed to that value
// the fault is that.
fn has_faults<T: Packed, R: Abort>(
    rt: &R,
    alloc: Global,
    bytes: &[u8],
    changes: &[(usize, u8, Unpack)],
) -> Result<(), Unpack> {
    for len in 0..bytes.len() {
        is_refused::<T, R>(rt, alloc, &bytes[..len], Unpack::Short);
    }
    let mut longer = Vec::from_slice(alloc, bytes)?;
    longer.push(0)?;
    is_refused::<T, R>(rt, alloc, longer.as_slice(), Unpack::Trailing);
    for (place, byte, fault) in changes {
        let mut changed = Vec::from_slice(alloc, bytes)?;
        assert!(rt; *place < changed.len());
        changed[*place] = *byte;
        is_refused::<T, R>(rt, alloc, changed.as_slice(), *fault);
    }
    Ok(())
}

// The bytes are a record and its spelling, packed with one allocation, also of the record that is packed and unpacked
// once more, and they have those faults.
fn refuses<T: Packed, R: Abort>(
    rt: &R,
    alloc: Global,
    bytes: &[u8],
    changes: &[(usize, u8, Unpack)],
) -> Result<(), Unpack> {
    let value = T::unpack(alloc, bytes)?;
    let packed = value.pack(alloc)?;
    assert_eq!(rt; packed.as_slice(), bytes);
    // A vector that had to grow has more room than that.
    assert_eq!(rt; packed.capacity(), bytes.len());
    let again = packed_and_unpacked(alloc, &value)?;
    let mut block = Vec::with_capacity(alloc, again.packed_size())?;
    again.pack_onto(&mut block);
    assert_eq!(rt; block.as_slice(), bytes);
    has_faults::<T, R>(rt, alloc, bytes, changes)
}

// The bytes are a share mode record and its spelling in version 1, packed with one allocation, also of the record that
// is packed in version 2 and unpacked again, and they have those faults.
fn refuses_old<R: Abort>(
    rt: &R,
    alloc: Global,
    bytes: &[u8],
    changes: &[(usize, u8, Unpack)],
) -> Result<(), Unpack> {
    let value = ShareRec::unpack(alloc, bytes)?;
    let again = packed_and_unpacked(alloc, &value)?;
    assert!(rt; value.has_no_mark() && again.has_no_mark());
    let packed = value.pack_old(alloc)?;
    assert_eq!(rt; packed.as_slice(), bytes);
    assert_eq!(rt; packed.capacity(), bytes.len());
    let mut block = Vec::with_capacity(alloc, again.packed_old_size())?;
    again.pack_old_onto(&mut block);
    assert_eq!(rt; block.as_slice(), bytes);
    has_faults::<ShareRec, R>(rt, alloc, bytes, changes)
}

const OPEN: [u8; 18] = [79, 80, 69, 78, 1, 0, 101, 0, 0, 0, 7, 0, 0, 0, 2, 0, 0, 0];

const OPEN_FAULTS: [(usize, u8, Unpack); 4] = [
    (0, 72, Unpack::Magic),
    (3, 0, Unpack::Magic),
    (4, 2, Unpack::Version),
    (5, 1, Unpack::Version),
];

const LOCK: [u8; 23] = [
    0x47, 0x4C, 0x43, 0x4B, 1, 0, 1, 0, 0, 0, 0x65, 0, 0, 0, 1, 0, 0, 0, 0, 0, 0, 0, 0,
];

const LOCK_FAULTS: [(usize, u8, Unpack); 3] = [
    (0, 0x48, Unpack::Magic),
    (4, 2, Unpack::Version),
    (18, 2, Unpack::BadField(6)),
];

const GLOCK: [u8; 45] = [
    71, 76, 67, 75, 1, 0, 2, 0, 0, 0, 101, 0, 0, 0, 1, 0, 0, 0, 0, 102, 0, 0, 0, 3, 0, 0, 0, 1, 1,
    0, 0, 0, 103, 0, 0, 0, 4, 0, 0, 0, 9, 0, 0, 0, 1,
];

const GLOCK_FAULTS: [(usize, u8, Unpack); 3] = [
    (4, 0, Unpack::Version),
    (27, 255, Unpack::BadField(6)),
    (44, 2, Unpack::BadField(11)),
];

// In version 1, without fields for the pending flag and the marks.
const OLD_SHARE: [u8; 145] = [
    83, 72, 65, 82, 1, 0, 8, 0, 0, 0, 2, 0, 47, 100, 1, 0, 97, 2, 0, 0, 0, 101, 0, 0, 0, 2, 0, 0,
    0, 102, 0, 0, 0, 3, 0, 0, 0, 4, 0, 0, 0, 3, 0, 0, 0, 7, 0, 0, 0, 0, 0, 0, 0, 0, 0, 0, 0, 0, 0,
    0, 0, 0, 0, 0, 0, 0, 0, 100, 0, 0, 0, 0, 0, 0, 0, 103, 0, 0, 0, 5, 0, 0, 0, 104, 0, 0, 0, 6, 0,
    0, 0, 9, 0, 0, 0, 1, 0, 1, 0, 5, 1, 11, 0, 0, 0, 0, 0, 0, 0, 12, 0, 0, 0, 0, 0, 0, 0, 60, 0, 0,
    0, 200, 0, 0, 0, 0, 0, 0, 0, 1, 0, 0, 0, 105, 0, 0, 0, 10, 0, 0, 0, 13, 0, 0, 0,
];

const OLD_SHARE_FAULTS: [(usize, u8, Unpack); 23] = [
    (0, 115, Unpack::Magic),
    (4, 3, Unpack::Version),
    (4, 0, Unpack::Version),
    (5, 1, Unpack::Version),
    (10, 0, Unpack::BadField(4)),
    (11, 1, Unpack::BadField(4)),
    (10, 255, Unpack::Short),
    (12, 32, Unpack::BadField(4)),
    (13, 127, Unpack::BadField(4)),
    (14, 0, Unpack::BadField(5)),
    (15, 1, Unpack::BadField(5)),
    (16, 32, Unpack::BadField(5)),
    (41, 0, Unpack::BadField(12)),
    (42, 2, Unpack::BadField(12)),
    (45, 8, Unpack::BadField(13)),
    (46, 2, Unpack::BadField(14)),
    (47, 1, Unpack::BadField(15)),
    (54, 1, Unpack::BadField(15)),
    (55, 1, Unpack::BadField(16)),
    (63, 1, Unpack::BadField(17)),
    (72, 1, Unpack::BadField(18)),
    (100, 0, Unpack::BadField(15)),
    (125, 3, Unpack::BadField(18)),
];

// In version 2: the file is pending, and the second open is marked.
const SHARE: [u8; 148] = [
    83, 72, 65, 82, 2, 0, 8, 0, 0, 0, 2, 0, 47, 100, 1, 0, 97, 1, 2, 0, 0, 0, 101, 0, 0, 0, 2, 0,
    0, 0, 102, 0, 0, 0, 3, 0, 0, 0, 4, 0, 0, 0, 3, 0, 0, 0, 7, 0, 0, 0, 0, 0, 0, 0, 0, 0, 0, 0, 0,
    0, 0, 0, 0, 0, 0, 0, 0, 0, 100, 0, 0, 0, 0, 0, 0, 0, 0, 103, 0, 0, 0, 5, 0, 0, 0, 104, 0, 0, 0,
    6, 0, 0, 0, 9, 0, 0, 0, 1, 0, 1, 0, 5, 1, 11, 0, 0, 0, 0, 0, 0, 0, 12, 0, 0, 0, 0, 0, 0, 0, 60,
    0, 0, 0, 200, 0, 0, 0, 0, 0, 0, 0, 1, 1, 0, 0, 0, 105, 0, 0, 0, 10, 0, 0, 0, 13, 0, 0, 0,
];

const SHARE_FAULTS: [(usize, u8, Unpack); 30] = [
    (0, 115, Unpack::Magic),
    (3, 83, Unpack::Magic),
    (4, 3, Unpack::Version),
    (4, 0, Unpack::Version),
    (5, 1, Unpack::Version),
    (10, 0, Unpack::BadField(4)),
    (11, 1, Unpack::BadField(4)),
    (10, 255, Unpack::Short),
    (12, 32, Unpack::BadField(4)),
    (13, 127, Unpack::BadField(4)),
    (14, 0, Unpack::BadField(5)),
    (15, 1, Unpack::BadField(5)),
    (16, 32, Unpack::BadField(5)),
    (16, 127, Unpack::BadField(5)),
    (17, 2, Unpack::BadField(6)),
    (42, 0, Unpack::BadField(13)),
    (43, 2, Unpack::BadField(13)),
    (46, 8, Unpack::BadField(14)),
    (47, 2, Unpack::BadField(15)),
    (48, 1, Unpack::BadField(16)),
    (55, 1, Unpack::BadField(16)),
    (56, 1, Unpack::BadField(17)),
    (64, 1, Unpack::BadField(18)),
    (73, 1, Unpack::BadField(19)),
    (76, 1, Unpack::BadField(20)),
    (76, 2, Unpack::BadField(20)),
    (99, 0, Unpack::BadField(20)),
    (102, 0, Unpack::BadField(16)),
    (127, 3, Unpack::BadField(19)),
    (131, 2, Unpack::BadField(20)),
];

// Broken at moment 0.
const LEASE: [u8; 46] = [
    76, 69, 65, 83, 2, 0, 4, 0, 0, 0, 7, 1, 3, 1, 35, 0, 0, 0, 0, 0, 0, 0, 1, 0, 0, 0, 101, 0, 0,
    0, 5, 0, 0, 0, 102, 0, 0, 0, 2, 0, 0, 0, 60, 0, 0, 0,
];

const LEASE_FAULTS: [(usize, u8, Unpack); 18] = [
    (1, 72, Unpack::Magic),
    (4, 1, Unpack::Version),
    (4, 3, Unpack::Version),
    (5, 1, Unpack::Version),
    (10, 2, Unpack::BadField(4)),
    (10, 8, Unpack::BadField(4)),
    (10, 3, Unpack::BadField(6)),
    (10, 1, Unpack::BadField(6)),
    (11, 2, Unpack::BadField(5)),
    (11, 0, Unpack::BadField(6)),
    (12, 7, Unpack::BadField(6)),
    (12, 2, Unpack::BadField(6)),
    (13, 5, Unpack::BadField(7)),
    (13, 2, Unpack::BadField(7)),
    (14, 34, Unpack::BadField(8)),
    (14, 0, Unpack::BadField(8)),
    (18, 3, Unpack::BadField(8)),
    (21, 1, Unpack::BadField(8)),
];

// Broken at the last moment.
const LAST_LEASE: [u8; 46] = [
    76, 69, 65, 83, 2, 0, 4, 0, 0, 0, 7, 1, 3, 1, 34, 228, 11, 84, 2, 0, 0, 0, 1, 0, 0, 0, 101, 0,
    0, 0, 5, 0, 0, 0, 102, 0, 0, 0, 2, 0, 0, 0, 60, 0, 0, 0,
];

const LAST_LEASE_FAULTS: [(usize, u8, Unpack); 2] = [
    (14, 35, Unpack::BadField(8)),
    (18, 3, Unpack::BadField(8)),
];

// Without a break.
const UNBROKEN_LEASE: [u8; 46] = [
    76, 69, 65, 83, 2, 0, 4, 0, 0, 0, 7, 0, 0, 0, 0, 0, 0, 0, 0, 0, 0, 0, 1, 0, 0, 0, 101, 0, 0, 0,
    5, 0, 0, 0, 102, 0, 0, 0, 2, 0, 0, 0, 60, 0, 0, 0,
];

const UNBROKEN_LEASE_FAULTS: [(usize, u8, Unpack); 5] = [
    (11, 1, Unpack::BadField(8)),
    (12, 1, Unpack::BadField(6)),
    (13, 1, Unpack::BadField(7)),
    (14, 35, Unpack::BadField(8)),
    (21, 1, Unpack::BadField(8)),
];

const REGISTER: [u8; 51] = [
    82, 69, 71, 73, 1, 0, 5, 0, 0, 0, 1, 2, 0, 0, 0, 100, 0, 0, 0, 0, 0, 0, 0, 1, 0, 0, 0, 90, 0,
    0, 0, 0, 0, 0, 0, 1, 0, 0, 0, 102, 0, 0, 0, 3, 0, 0, 0, 4, 0, 0, 0,
];

const REGISTER_FAULTS: [(usize, u8, Unpack); 13] = [
    (2, 72, Unpack::Magic),
    (5, 2, Unpack::Version),
    (6, 0, Unpack::BadField(3)),
    (6, 65, Unpack::BadField(3)),
    (7, 1, Unpack::BadField(3)),
    (10, 2, Unpack::BadField(4)),
    (10, 0, Unpack::BadField(7)),
    (11, 0, Unpack::BadField(5)),
    (11, 3, Unpack::BadField(7)),
    (22, 1, Unpack::BadField(6)),
    (23, 2, Unpack::BadField(7)),
    (23, 0, Unpack::BadField(7)),
    (34, 1, Unpack::BadField(8)),
];

const RANGES: [u8; 55] = [
    66, 82, 76, 75, 1, 0, 3, 0, 0, 0, 1, 0, 0, 0, 101, 0, 0, 0, 6, 0, 0, 0, 2, 0, 0, 0, 0, 0, 0, 0,
    254, 255, 255, 255, 255, 255, 255, 255, 1, 1, 0, 0, 0, 102, 0, 0, 0, 5, 0, 0, 0, 4, 0, 0, 0,
];

const RANGES_FAULTS: [(usize, u8, Unpack); 5] = [
    (3, 72, Unpack::Magic),
    (4, 3, Unpack::Version),
    (22, 3, Unpack::BadField(8)),
    (30, 255, Unpack::BadField(8)),
    (38, 2, Unpack::BadField(9)),
];

const MAIL: [u8; 97] = [
    77, 65, 73, 76, 1, 0, 11, 0, 0, 0, 3, 0, 0, 0, 0, 2, 0, 0, 0, 0, 0, 0, 0, 5, 0, 0, 0, 1, 3, 0,
    0, 0, 0, 0, 0, 0, 6, 0, 0, 0, 2, 0, 0, 0, 0, 0, 1, 0, 0, 8, 0, 0, 0, 2, 0, 0, 0, 0, 4, 0, 0, 0,
    0, 0, 0, 0, 0, 0, 0, 0, 0, 0, 0, 0, 0, 0, 0, 1, 0, 0, 0, 0, 3, 0, 0, 0, 9, 0, 0, 0, 0, 0, 0, 0,
    7, 5, 1,
];

const MAIL_FAULTS: [(usize, u8, Unpack); 22] = [
    (0, 109, Unpack::Magic),
    (4, 2, Unpack::Version),
    (14, 3, Unpack::BadField(5)),
    (19, 1, Unpack::BadField(6)),
    (32, 1, Unpack::BadField(6)),
    (40, 0, Unpack::BadField(6)),
    (57, 2, Unpack::BadField(9)),
    (57, 1, Unpack::BadField(10)),
    (62, 1, Unpack::BadField(11)),
    (66, 1, Unpack::BadField(12)),
    (74, 1, Unpack::BadField(13)),
    (74, 2, Unpack::BadField(13)),
    (75, 1, Unpack::BadField(14)),
    (76, 1, Unpack::BadField(15)),
    (76, 2, Unpack::BadField(15)),
    (77, 0, Unpack::BadField(11)),
    (78, 1, Unpack::BadField(10)),
    (94, 2, Unpack::BadField(13)),
    (94, 5, Unpack::BadField(14)),
    (95, 7, Unpack::BadField(14)),
    (95, 2, Unpack::BadField(14)),
    (96, 2, Unpack::BadField(15)),
];

// Each record whole, cut at each length, with one byte more, and with each field outside its set.
#[test]
fn each_record_and_its_faults(rt: HostRuntime) -> Result<(), Fail> {
    refuses::<OpenRec, _>(&rt, rt.alloc(), &OPEN, &OPEN_FAULTS)?;
    refuses::<GLockRec, _>(&rt, rt.alloc(), &LOCK, &LOCK_FAULTS)?;
    refuses::<GLockRec, _>(&rt, rt.alloc(), &GLOCK, &GLOCK_FAULTS)?;
    refuses::<ShareRec, _>(&rt, rt.alloc(), &SHARE, &SHARE_FAULTS)?;
    refuses_old(&rt, rt.alloc(), &OLD_SHARE, &OLD_SHARE_FAULTS)?;
    refuses::<LeaseRec, _>(&rt, rt.alloc(), &LEASE, &LEASE_FAULTS)?;
    refuses::<LeaseRec, _>(&rt, rt.alloc(), &LAST_LEASE, &LAST_LEASE_FAULTS)?;
    refuses::<LeaseRec, _>(&rt, rt.alloc(), &UNBROKEN_LEASE, &UNBROKEN_LEASE_FAULTS)?;
    refuses::<RegisterRec, _>(&rt, rt.alloc(), &REGISTER, &REGISTER_FAULTS)?;
    refuses::<RangeRec, _>(&rt, rt.alloc(), &RANGES, &RANGES_FAULTS)?;
    refuses::<MailRec, _>(&rt, rt.alloc(), &MAIL, &MAIL_FAULTS)?;
    Ok(())
}

fn open_by_hand(alloc: Global) -> Result<Vec<u8>, OutOfMemory> {
    let record = OpenRec {
        id: OpenId { pid: 101, call: 7 },
        file: 2,
    };
    record.pack(alloc)
}

fn lock_by_hand(alloc: Global) -> Result<Vec<u8>, OutOfMemory> {
    let mut holds = Items::new(alloc);
    holds.push(Hold {
        sid: Sid {
            pid: 101,
            session: 1,
        },
        mode: Mode::Shared,
    })?;
    let watchers = Items::new(alloc);
    GLockRec { holds, watchers }.pack(alloc)
}

fn glock_by_hand(alloc: Global) -> Result<Vec<u8>, OutOfMemory> {
    let mut holds = Items::new(alloc);
    holds.push(Hold {
        sid: Sid {
            pid: 101,
            session: 1,
        },
        mode: Mode::Shared,
    })?;
    holds.push(Hold {
        sid: Sid {
            pid: 102,
            session: 3,
        },
        mode: Mode::Exclusive,
    })?;
    let mut watchers = Items::new(alloc);
    watchers.push(WatchRec {
        sid: Sid {
            pid: 103,
            session: 4,
        },
        call: 9,
        upgrade: true,
    })?;
    GLockRec { holds, watchers }.pack(alloc)
}

fn shares_by_hand(alloc: Global) -> Result<Vec<u8>, OutOfMemory> {
    let path = SmallText::from_slice(alloc, b"/d")?;
    let name = SmallText::from_slice(alloc, b"a")?;
    let mut entries = Items::new(alloc);
    entries.push(ShareEntry {
        id: OpenId { pid: 101, call: 2 },
        owner: Sid {
            pid: 102,
            session: 3,
        },
        handle: 4,
        access: Access(3),
        share: Share(7),
        lease: None,
        durable: 0,
        opened: 100,
        marked: false,
    })?;
    entries.push(ShareEntry {
        id: OpenId { pid: 103, call: 5 },
        owner: Sid {
            pid: 104,
            session: 6,
        },
        handle: 9,
        access: Access(0x10001),
        share: Share(5),
        lease: Some(LeaseName { guid: 11, key: 12 }),
        durable: 60,
        opened: 200,
        marked: true,
    })?;
    let mut watchers = Items::new(alloc);
    watchers.push(WatchRec {
        sid: Sid {
            pid: 105,
            session: 10,
        },
        call: 13,
        upgrade: false,
    })?;
    let record = ShareRec {
        file: 8,
        path,
        name,
        pending: true,
        entries,
        watchers,
    };
    record.pack(alloc)
}

fn lease_by_hand(alloc: Global) -> Result<Vec<u8>, OutOfMemory> {
    let mut refs = Items::new(alloc);
    refs.push(LeaseRef {
        id: OpenId { pid: 101, call: 5 },
        owner: Sid {
            pid: 102,
            session: 2,
        },
        durable: 60,
    })?;
    let record = LeaseRec {
        file: 4,
        held: LeaseState(7),
        breaking: true,
        asked: LeaseState(3),
        needed: LeaseState(1),
        until: 35,
        refs,
    };
    record.pack(alloc)
}

fn register_by_hand(alloc: Global) -> Result<Vec<u8>, OutOfMemory> {
    let mut ended = Items::new(alloc);
    ended.push(90)?;
    let mut watchers = Items::new(alloc);
    watchers.push(WatchRec {
        sid: Sid {
            pid: 102,
            session: 3,
        },
        call: 4,
        upgrade: false,
    })?;
    let record = RegisterRec {
        worker: 5,
        alive: true,
        session: 2,
        connected: 100,
        ended,
        watchers,
    };
    record.pack(alloc)
}

fn ranges_by_hand(alloc: Global) -> Result<Vec<u8>, OutOfMemory> {
    let mut ranges = Items::new(alloc);
    ranges.push(RangeItem {
        id: OpenId { pid: 101, call: 6 },
        start: 2,
        length: 0xFFFF_FFFF_FFFF_FFFE,
        mode: Mode::Exclusive,
    })?;
    let mut watchers = Items::new(alloc);
    watchers.push(WatchRec {
        sid: Sid {
            pid: 102,
            session: 5,
        },
        call: 4,
        upgrade: false,
    })?;
    let record = RangeRec {
        file: 3,
        ranges,
        watchers,
    };
    record.pack(alloc)
}

fn mail_by_hand(alloc: Global) -> Result<Vec<u8>, OutOfMemory> {
    let mut tokens = Items::new(alloc);
    tokens.push(Token {
        spot: Spot::OpenOf(2),
        call: 5,
    })?;
    tokens.push(Token {
        spot: Spot::RangesOf(3),
        call: 6,
    })?;
    tokens.push(Token {
        spot: Spot::LockOf(0x100_0000_0000),
        call: 8,
    })?;
    let mut letters = Items::new(alloc);
    letters.push(Letter::Wake { call: 4 })?;
    letters.push(Letter::Break {
        file: 3,
        key: 9,
        from: LeaseState(7),
        to: LeaseState(5),
        ack: true,
    })?;
    let record = MailRec {
        session: 11,
        tokens,
        letters,
    };
    record.pack(alloc)
}

// Each record built by hand, with a value of its own in each field of an item, has the bytes written by hand.
#[test]
fn each_record_has_its_bytes(rt: HostRuntime) -> Result<(), Fail> {
    let alloc = rt.alloc();
    assert_eq!(rt; open_by_hand(alloc)?.as_slice(), OPEN.as_slice());
    assert_eq!(rt; lock_by_hand(alloc)?.as_slice(), LOCK.as_slice());
    assert_eq!(rt; glock_by_hand(alloc)?.as_slice(), GLOCK.as_slice());
    assert_eq!(rt; shares_by_hand(alloc)?.as_slice(), SHARE.as_slice());
    assert_eq!(rt; lease_by_hand(alloc)?.as_slice(), LEASE.as_slice());
    assert_eq!(rt; register_by_hand(alloc)?.as_slice(), REGISTER.as_slice());
    assert_eq!(rt; ranges_by_hand(alloc)?.as_slice(), RANGES.as_slice());
    assert_eq!(rt; mail_by_hand(alloc)?.as_slice(), MAIL.as_slice());
    Ok(())
}

// The open of pid 101 at moment 0, in version 1.
const ONE_OPEN: [u8; 90] = [
    83, 72, 65, 82, 1, 0, 1, 0, 0, 0, 9, 0, 47, 115, 114, 118, 47, 100, 97, 116, 97, 5, 0, 97, 46,
    116, 120, 116, 1, 0, 0, 0, 101, 0, 0, 0, 1, 0, 0, 0, 101, 0, 0, 0, 1, 0, 0, 0, 1, 0, 0, 0, 1,
    0, 0, 0, 7, 0, 0, 0, 0, 0, 0, 0, 0, 0, 0, 0, 0, 0, 0, 0, 0, 0, 0, 0, 0, 0, 0, 0, 0, 0, 0, 0, 0,
    0, 0, 0, 0, 0,
];

// That open, and the one of pid 102 at moment 1, in version 2.
const TWO_OPENS: [u8; 147] = [
    83, 72, 65, 82, 2, 0, 1, 0, 0, 0, 9, 0, 47, 115, 114, 118, 47, 100, 97, 116, 97, 5, 0, 97, 46,
    116, 120, 116, 0, 2, 0, 0, 0, 101, 0, 0, 0, 1, 0, 0, 0, 101, 0, 0, 0, 1, 0, 0, 0, 1, 0, 0, 0,
    1, 0, 0, 0, 7, 0, 0, 0, 0, 0, 0, 0, 0, 0, 0, 0, 0, 0, 0, 0, 0, 0, 0, 0, 0, 0, 0, 0, 0, 0, 0, 0,
    0, 0, 0, 102, 0, 0, 0, 1, 0, 0, 0, 102, 0, 0, 0, 1, 0, 0, 0, 1, 0, 0, 0, 1, 0, 0, 0, 7, 0, 0,
    0, 0, 0, 0, 0, 0, 0, 0, 0, 0, 0, 0, 0, 0, 0, 0, 0, 0, 0, 1, 0, 0, 0, 0, 0, 0, 0, 0, 0, 0, 0, 0,
];

fn one_open(alloc: Global) -> Result<Vec<u8>, OutOfMemory> {
    let path = SmallText::from_slice(alloc, b"/srv/data")?;
    let name = SmallText::from_slice(alloc, b"a.txt")?;
    let mut entries = Items::new(alloc);
    entries.push(ShareEntry {
        id: OpenId { pid: 101, call: 1 },
        owner: Sid {
            pid: 101,
            session: 1,
        },
        handle: 1,
        access: Access(1),
        share: Share(7),
        lease: None,
        durable: 0,
        opened: 0,
        marked: false,
    })?;
    let watchers = Items::new(alloc);
    let record = ShareRec {
        file: 1,
        path,
        name,
        pending: false,
        entries,
        watchers,
    };
    record.pack_old(alloc)
}

fn two_opens(alloc: Global) -> Result<Vec<u8>, OutOfMemory> {
    let path = SmallText::from_slice(alloc, b"/srv/data")?;
    let name = SmallText::from_slice(alloc, b"a.txt")?;
    let mut entries = Items::new(alloc);
    entries.push(ShareEntry {
        id: OpenId { pid: 101, call: 1 },
        owner: Sid {
            pid: 101,
            session: 1,
        },
        handle: 1,
        access: Access(1),
        share: Share(7),
        lease: None,
        durable: 0,
        opened: 0,
        marked: false,
    })?;
    entries.push(ShareEntry {
        id: OpenId { pid: 102, call: 1 },
        owner: Sid {
            pid: 102,
            session: 1,
        },
        handle: 1,
        access: Access(1),
        share: Share(7),
        lease: None,
        durable: 0,
        opened: 1,
        marked: false,
    })?;
    let watchers = Items::new(alloc);
    let record = ShareRec {
        file: 1,
        path,
        name,
        pending: false,
        entries,
        watchers,
    };
    record.pack(alloc)
}

// One open of `/srv/data`, `a.txt` has 90 bytes in version 1, and two have 147 in version 2.
#[test]
fn both_versions_have_their_bytes(rt: HostRuntime) -> Result<(), Fail> {
    let alloc = rt.alloc();
    assert_eq!(rt; one_open(alloc)?.as_slice(), ONE_OPEN.as_slice());
    assert_eq!(rt; two_opens(alloc)?.as_slice(), TWO_OPENS.as_slice());
    Ok(())
}

// The same record with a path of 31 bytes.
fn with_long_path(alloc: Global) -> Result<Vec<u8>, OutOfMemory> {
    let mut bytes = Vec::from_slice(alloc, &SHARE[..10])?;
    bytes.extend_from_slice(b"\x1f\x00/srv/data/departments/marketing")?;
    bytes.extend_from_slice(&SHARE[14..])?;
    Ok(bytes)
}

// Each long text and each list of a record has room for exactly its items, so each was one allocation.
#[test]
fn parts_have_exact_room(rt: HostRuntime) -> Result<(), Fail> {
    let alloc = rt.alloc();
    let bytes = with_long_path(alloc)?;
    let record = ShareRec::unpack(alloc, bytes.as_slice())?;
    assert_eq!(rt; record.pack(alloc)?.as_slice(), bytes.as_slice());
    let ShareRec {
        path,
        name,
        entries,
        watchers,
        ..
    } = record;
    assert_eq!(rt; path.into_vec(alloc)?.capacity(), 31);
    assert_eq!(rt; name.into_vec(alloc)?.capacity(), 1);
    assert_eq!(rt; entries.into_vec().capacity(), 2);
    assert_eq!(rt; watchers.into_vec().capacity(), 1);
    Ok(())
}

// A text has its bytes, whether they stand in it or take memory.
#[test]
fn texts_have_their_bytes(rt: HostRuntime) -> Result<(), Fail> {
    let alloc = rt.alloc();
    let letters = b"abcdefghijklmnopqrstuvwxyzABCDEFGHIJ";
    for len in 0..=letters.len() {
        let bytes = &letters[..len];
        let text = SmallText::from_slice(alloc, bytes)?;
        assert_eq!(rt; text.bytes(), bytes);
        assert_eq!(rt; text.into_vec(alloc)?.as_slice(), bytes);
        let text = SmallText::from_vec(Vec::from_slice(alloc, bytes)?);
        assert_eq!(rt; text.bytes(), bytes);
        assert_eq!(rt; text.into_vec(alloc)?.as_slice(), bytes);
    }
    Ok(())
}

// The first bytes of a record up to a list, whose count is then 2^32 - 1, have that fault.
fn claims_many<T: Packed, R: Abort>(
    rt: &R,
    alloc: Global,
    front: &[u8],
    fault: Unpack,
) -> Result<(), Unpack> {
    let mut bytes = Vec::from_slice(alloc, front)?;
    bytes.extend_from_slice(&[255; 4])?;
    is_refused::<T, R>(rt, alloc, bytes.as_slice(), fault);
    Ok(())
}

// A list that claims more items than bytes are left is short, and no room is asked for: so many items of the smallest
// kind would be 32 GiB. A register record knows how many ends of sessions it has.
#[test]
fn false_counts_reserve_nothing(rt: HostRuntime) -> Result<(), Fail> {
    let alloc = rt.alloc();
    claims_many::<GLockRec, _>(&rt, alloc, &GLOCK[..6], Unpack::Short)?;
    claims_many::<GLockRec, _>(&rt, alloc, &GLOCK[..28], Unpack::Short)?;
    claims_many::<ShareRec, _>(&rt, alloc, &SHARE[..18], Unpack::Short)?;
    claims_many::<ShareRec, _>(&rt, alloc, &SHARE[..132], Unpack::Short)?;
    claims_many::<ShareRec, _>(&rt, alloc, &OLD_SHARE[..17], Unpack::Short)?;
    claims_many::<ShareRec, _>(&rt, alloc, &OLD_SHARE[..129], Unpack::Short)?;
    claims_many::<LeaseRec, _>(&rt, alloc, &LEASE[..22], Unpack::Short)?;
    claims_many::<RegisterRec, _>(&rt, alloc, &REGISTER[..23], Unpack::BadField(7))?;
    claims_many::<RangeRec, _>(&rt, alloc, &RANGES[..10], Unpack::Short)?;
    claims_many::<MailRec, _>(&rt, alloc, &MAIL[..10], Unpack::Short)?;
    claims_many::<MailRec, _>(&rt, alloc, &MAIL[..53], Unpack::Short)?;
    Ok(())
}

// The entries of a record, read in place, twice.
#[test]
fn entries_in_place(rt: HostRuntime) -> Result<(), Fail> {
    let (entries, rest) = list_at::<ShareEntry, ShareEntryRow>(&SHARE[18..])?;
    let mut handles = Vec::new(rt.alloc());
    for entry in entries.copy() {
        handles.push((entry.handle, entry.marked))?;
    }
    for entry in entries {
        handles.push((entry.handle, entry.marked))?;
    }
    let twice = [(4, false), (9, true), (4, false), (9, true)];
    assert_eq!(rt; handles.as_slice(), twice.as_slice());
    assert_eq!(rt; rest.len(), 16);
    Ok(())
}

// The same in version 1, where no entry is marked.
#[test]
fn unmarked_entries_in_place(rt: HostRuntime) -> Result<(), Fail> {
    let (entries, rest) = list_at::<ShareEntry, UnmarkedEntryRow>(&OLD_SHARE[17..])?;
    let mut handles = Vec::new(rt.alloc());
    for entry in entries {
        handles.push((entry.handle, entry.marked))?;
    }
    assert_eq!(rt; handles.as_slice(), [(4, false), (9, false)].as_slice());
    assert_eq!(rt; rest.len(), 16);
    Ok(())
}

// The text of each fault.
#[test]
fn faults_have_texts(rt: HostRuntime) -> Result<(), Fail> {
    let alloc = rt.alloc();
    for (fault, text) in [
        (Unpack::Magic, "no record of this kind"),
        (Unpack::Version, "unknown version"),
        (Unpack::Short, "too few bytes"),
        (Unpack::Trailing, "bytes after the last field"),
        (Unpack::BadField(12), "field 12 is outside its set"),
        (Unpack::OutOfMemory, "out of memory"),
    ] {
        let said = format!(in alloc; "{fault}")?;
        assert_eq!(rt; said.as_str(), text);
    }
    Ok(())
}
