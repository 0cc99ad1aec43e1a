//! Tests of opendb_run: its input and output, and whole runs.
use opendb_run::{
    Bytes, Command, InputError, Open, Page, RealSink, RealSource, Status, complain, read_all, run,
    write_all,
};
use sid_core::{Gate, MAX_SCRIPT, Sink, StepKind, Tables};
use std::alloc::Global;
use std::cell::Cell;
use std::test::Fail;

#[test]
fn an_input_is_read_within_its_limit(rt: HostRuntime) -> Result<(), Fail> {
    for (count, wanted) in [
        (0, Ok(0)),
        (1, Ok(1)),
        (MAX_SCRIPT, Ok(MAX_SCRIPT)),
        (MAX_SCRIPT + 1, Err(InputError::TooLarge)),
        (MAX_SCRIPT + 9, Err(InputError::TooLarge)),
    ] {
        let mut source = Bytes::new(
            vec![in rt.alloc(); b','; count]?,
            65_536,
            Vec::new(rt.alloc()),
        );
        let read = read_all(rt.alloc(), &mut source).map(|bytes| bytes.len());
        assert_eq!(rt; read, wanted, "of {count} bytes");
    }
    Ok(())
}

#[test]
fn a_read_that_fails_ends_the_reading(rt: HostRuntime) -> Result<(), Fail> {
    for (failing, wanted) in [
        (1, Err(InputError::ReadFault)),
        (2, Err(InputError::ReadFault)),
        // The third read gives the last bytes, the fourth finds the end, and there is no fifth.
        (3, Err(InputError::ReadFault)),
        (4, Err(InputError::ReadFault)),
        (5, Ok(40)),
    ] {
        let mut source = Bytes::new(
            vec![in rt.alloc(); b','; 40]?,
            16,
            vec![in rt.alloc(); failing]?,
        );
        let read = read_all(rt.alloc(), &mut source).map(|bytes| bytes.len());
        assert_eq!(rt; read, wanted, "where read {failing} fails");
    }
    Ok(())
}

#[test]
fn a_write_that_fails_leaves_a_prefix(rt: HostRuntime) -> Result<(), Fail> {
    for (room, most, failing, wanted) in [
        (9, 1, 3, "ab"),
        (9, 2, 2, "ab"),
        (9, 9, 1, ""),
        (4, 9, 9, "abcd"),
        (0, 9, 9, ""),
        (5, 1, 6, "abcde"),
    ] {
        let mut page = Page::new(rt.alloc(), room, most, vec![in rt.alloc(); failing]?)?;
        let written = write_all(&mut page, b"abcde");
        assert_eq!(rt; written.is_ok(), wanted.len() == 5, "of {wanted}");
        assert_eq!(rt; page.bytes(), wanted.as_bytes());
    }
    Ok(())
}

#[test]
fn each_status_has_its_number_and_text(rt: HostRuntime) -> Result<(), Fail> {
    for (status, code, line, text) in [
        (Status::Done, 0, 7, ""),
        (
            Status::Usage,
            1,
            7,
            "opendb: usage: run, smbstatus or stress\n",
        ),
        (Status::BadScript, 2, 7, "opendb: line 7: reason 22\n"),
        (Status::TooLarge, 3, 7, "opendb: script too large\n"),
        (Status::ReadFault, 4, 7, "opendb: read fault\n"),
        (Status::WriteFault, 5, 7, "opendb: write fault\n"),
        (Status::OutOfMemory, 6, 7, "opendb: no memory\n"),
        (
            Status::BadScript,
            2,
            4_194_304,
            "opendb: line 4194304: reason 22\n",
        ),
    ] {
        let mut page = Page::new(rt.alloc(), 99, 5, Vec::new(rt.alloc()))?;
        complain(&mut page, status, line, 22);
        assert_eq!(rt; status.code(), code, "of {status:?}");
        assert_eq!(rt; page.bytes(), text.as_bytes());
    }
    Ok(())
}

/// What is asked by words that name tables.
fn shows(shares: bool, files: bool, ranges: bool, chains: u32) -> Option<Command> {
    let tables = Tables {
        shares,
        files,
        ranges,
    };
    Some(Command::SmbStatus { tables, chains })
}

// Which words are a command, and what they ask for.
#[test]
fn words_ask_for_a_run_or_for_tables(rt: HostRuntime) -> Result<(), Fail> {
    let run = |chains| Some(Command::Run { chains });
    for (line, wanted) in [
        ("run", run(8)),
        ("run --chains 1", run(1)),
        ("run --chains=64", run(64)),
        ("run --chains=00008", run(8)),
        ("run --chains 000008", None),
        ("run --chains 0", None),
        ("run --chains 65", None),
        ("run --chains=", None),
        ("run --chains", None),
        ("run --chains +8", None),
        ("run --chain=8", None),
        ("run --chains 8 --chains=8", None),
        ("run -S", None),
        ("run run", None),
        ("RUN", None),
        ("ru", None),
        ("runs", None),
        ("--help", None),
        ("stress 0", None),
        ("smbstatus", shows(true, true, false, 8)),
        ("smbstatus -S", shows(true, false, false, 8)),
        ("smbstatus -L", shows(false, true, false, 8)),
        ("smbstatus -B", shows(true, true, true, 8)),
        ("smbstatus -B -S", shows(true, false, false, 8)),
        ("smbstatus -L --chains 3 -B", shows(false, true, true, 3)),
        ("smbstatus -S -L", None),
        ("smbstatus -S -S", None),
        ("smbstatus -SL", None),
        ("smbstatus --", None),
        ("smbstatus --chains -S", None),
    ] {
        let mut words = Vec::new(rt.alloc());
        for word in line.split(' ') {
            words.push(String::from_str(rt.alloc(), word)?)?;
        }
        assert_eq!(rt; Command::from_words(words.as_slice()), wanted, "of {line}");
    }
    assert_eq!(rt; Command::from_words(&[]), None);
    Ok(())
}

#[test]
fn the_system_is_read_and_written(rt: HostRuntime) -> Result<(), Fail> {
    let mut source = RealSource::new(b"worker".as_slice());
    let bytes = read_all(rt.alloc(), &mut source)?;
    assert_eq!(rt; bytes.as_slice(), b"worker".as_slice());
    let mut room = [0; 4];
    let mut sink = RealSink::new(room.as_mut_slice());
    assert!(rt; sink.write(b"worker")? == 4);
    // Nothing is taken where no room is left, and that is a fault.
    assert!(rt; sink.write(b"er").is_err());
    Ok(())
}

const DECLARED: &[u8] =
    b"worker 1 101 1000 1 hostA data\nworker 2 102 1001 2 hostB data\nfile 1 1 11 /srv/data a.txt\nfile 2 1 12 /srv/data b.txt\n";

fn said<G: Gate>(
    alloc: Global,
    words: &[&str],
    parts: &[&[u8]],
    failing: Vec<u64>,
    gate: &G,
) -> Result<(Status, Page, Page), Fail> {
    let mut owned = Vec::new(alloc);
    for word in words {
        owned.push(String::from_str(alloc, word)?)?;
    }
    let mut bytes = Vec::new(alloc);
    for part in parts {
        bytes.extend_from_slice(part)?;
    }
    let mut source = Bytes::new(bytes, 16, failing);
    let mut out = Page::new(alloc, 4096, 7, Vec::new(alloc))?;
    let mut err = Page::new(alloc, 256, 256, Vec::new(alloc))?;
    let status = run(
        alloc,
        owned.as_slice(),
        &mut source,
        &mut out,
        &mut err,
        gate,
    );
    Ok((status, out, err))
}

// What each script prints, with its status and what standard error has.
#[test]
fn runs_scripts(rt: HostRuntime) -> Result<(), Fail> {
    let cases: [(&[u8], Status, &[u8], &[u8]); 9] = [
        (b"", Status::Done, b"", b""),
        (
            b"phase 0\n1 open 1 0x3 rwd\n1 close 1\n1 close 1",
            Status::Done,
            b"1.1 open GRANTED\n1.2 close OK\n1.3 close FILE_CLOSED\n",
            b"",
        ),
        (
            b"phase 0\n1 open 1 0x2 r\nphase 1\n1 open 1 0x1 r\n1 open 2 0x1 rwd\nphase 2\n1 open 2 0x2 rwd\n",
            Status::Done,
            b"1.1 open GRANTED\n1.2 open SHARING_VIOLATION\n1.3 open GRANTED\n1.4 open GRANTED\n",
            b"",
        ),
        (
            b"phase 0\n1 open 1 0x3 rwd\n1 close 1\n1 close 1\n1 recv\n",
            Status::Done,
            b"1.1 open GRANTED\n1.2 close OK\n1.3 close FILE_CLOSED\n1.4 recv EMPTY\n",
            b"",
        ),
        (b"\0", Status::BadScript, b"", b"opendb: line 5: reason 1\n"),
        (
            b"phase 000000000000000000000\n",
            Status::BadScript,
            b"",
            b"opendb: line 5: reason 4\n",
        ),
        (
            b"phase 0\n2 open 1 0x3 rwd\n",
            Status::Done,
            b"2.1 open GRANTED\n",
            b"",
        ),
        (
            b"phase 0\n1 open 1 0x3 rwd !take\n",
            Status::Done,
            b"1 died\n",
            b"",
        ),
        (b"# no phase, and no line end", Status::Done, b"", b""),
    ];
    for (script, status, printed, complained) in cases {
        let (ended, out, err) = said(
            rt.alloc(),
            &["run"],
            &[DECLARED, script],
            Vec::new(rt.alloc()),
            &Open,
        )?;
        assert_eq!(rt; ended, status);
        assert_eq!(rt; out.bytes(), printed);
        assert_eq!(rt; err.bytes(), complained);
    }
    Ok(())
}

#[test]
fn tells_why_a_script_was_not_run(rt: HostRuntime) -> Result<(), Fail> {
    let second = vec![in rt.alloc(); 2]?;
    let (ended, out, err) = said(rt.alloc(), &["run"], &[DECLARED], second, &Open)?;
    assert_eq!(rt; ended, Status::ReadFault);
    assert_eq!(rt; out.bytes(), b"".as_slice());
    assert_eq!(rt; err.bytes(), b"opendb: read fault\n".as_slice());
    let cases: [&[&str]; 5] = [
        &[],
        &["run", "run"],
        &["--help"],
        &["stress", "0"],
        &["Run"],
    ];
    for words in cases {
        let (ended, out, err) = said(rt.alloc(), words, &[DECLARED], Vec::new(rt.alloc()), &Open)?;
        assert_eq!(rt; ended, Status::Usage);
        assert_eq!(rt; out.bytes(), b"".as_slice());
        assert_eq!(rt;
            err.bytes(),
            b"opendb: usage: run, smbstatus or stress\n".as_slice()
        );
    }
    Ok(())
}

/// A gate that counts what it is told: the answers of worker 1 that come in the order of its calls, and all else.
#[derive(Drop)]
struct Counting {
    answered: Cell<u32>,
    others: Cell<u32>,
}

impl Gate for Counting {
    fn at(&self, worker: u32, number: u32, step: StepKind) {
        let next = self.answered.get().saturating_add(1);
        if worker == 1 && number == next && step == StepKind::Answered {
            self.answered.set(next);
        } else {
            self.others.set(self.others.get().saturating_add(1));
        }
    }
}

// The gate is told of each answer, once and in order, and of nothing else.
#[test]
fn the_gate_is_told_of_each_answer(rt: HostRuntime) -> Result<(), Fail> {
    let cases: [(&[u8], Status, u32); 4] = [
        (
            b"phase 0\n1 open 1 0x3 rwd\n1 close 1\n1 close 1\n",
            Status::Done,
            3,
        ),
        (
            b"phase 0\n1 open 1 0x3 rwd\nphase 1\n1 close 1\n",
            Status::Done,
            2,
        ),
        (b"phase 0\n", Status::Done, 0),
        (b"phase 0\n1 open 1 0x3 rwd\n1 recv\n", Status::Done, 2),
    ];
    for (script, status, wanted) in cases {
        let gate = Counting {
            answered: Cell::new(0),
            others: Cell::new(0),
        };
        let (ended, _out, _err) = said(
            rt.alloc(),
            &["run"],
            &[DECLARED, script],
            Vec::new(rt.alloc()),
            &gate,
        )?;
        assert_eq!(rt; ended, status);
        assert_eq!(rt; gate.answered.get(), wanted);
        assert_eq!(rt; gate.others.get(), 0);
    }
    Ok(())
}
