//! Tests of sid_core.
use sid_core::{CallWord, Items, LeaseState, Mode, OutOfMemory, Share, Text};
use std::test::Fail;

#[test]
fn lists_and_texts_grow_at_the_end(rt: HostRuntime) -> Result<(), Fail> {
    let mut items = Items::new(rt.alloc());
    assert!(rt; items.is_empty());
    items.push(7u32)?;
    items.push(8u32)?;
    let copy = items.copy()?;
    assert_eq!(rt; copy.len(), 2);
    assert_eq!(rt; copy.as_slice(), [7, 8].as_slice());
    let again = Items::from_vec(items.into_vec());
    assert_eq!(rt; again.as_slice(), copy.as_slice());
    let mut text = Text::new(rt.alloc());
    text.push(b"/srv")?;
    text.push(b"/data")?;
    assert_eq!(rt; text.bytes(), b"/srv/data".as_slice());
    Ok(())
}

#[test]
fn want_of_memory_has_its_text(rt: HostRuntime) -> Result<(), Fail> {
    let said = format!(in rt.alloc(); "{OutOfMemory}")?;
    assert_eq!(rt; said.as_str(), "out of memory");
    Ok(())
}

#[test]
fn words_are_read_back(rt: HostRuntime) {
    for word in [
        "open",
        "close",
        "delete",
        "ack",
        "lock",
        "unlock",
        "read",
        "write",
        "glock",
        "gunlock",
        "recv",
        "disconnect",
        "reconnect",
        "scavenge",
        "tidy",
        "status",
    ] {
        let read = CallWord::read(word.as_bytes()).map(|word| word.text());
        assert_eq!(rt; read, Some(word));
    }
    for other in ["", "Open", "opens", "ope", "reconnects", "disconnec"] {
        assert!(rt; CallWord::read(other.as_bytes()).is_none(), "of {other}");
    }
    for (bits, text) in [(0, "-"), (1, "R"), (3, "RH"), (5, "RW"), (7, "RWH")] {
        assert_eq!(rt; LeaseState(bits).text(), text);
        assert_eq!(rt; LeaseState::read(text.as_bytes()), Some(LeaseState(bits)));
    }
    for other in ["", "W", "HR", "RHW", "r"] {
        assert_eq!(rt; LeaseState::read(other.as_bytes()), None, "of {other}");
    }
    for (bits, text) in [
        (0, "-"),
        (1, "r"),
        (2, "w"),
        (3, "rw"),
        (4, "d"),
        (5, "rd"),
        (6, "wd"),
        (7, "rwd"),
    ] {
        assert_eq!(rt; Share::read(text.as_bytes()), Some(Share(bits)));
    }
    assert_eq!(rt; Share::read(b"wr"), None);
    for (text, lock, glock) in [
        ("s", Some(Mode::Shared), None),
        ("x", Some(Mode::Exclusive), None),
        ("r", None, Some(Mode::Shared)),
        ("w", None, Some(Mode::Exclusive)),
        ("", None, None),
    ] {
        assert_eq!(rt; Mode::read_lock(text.as_bytes()), lock, "of {text}");
        assert_eq!(rt; Mode::read_glock(text.as_bytes()), glock, "of {text}");
    }
    assert_eq!(rt; Mode::Shared.lock_text(), "s");
    assert_eq!(rt; Mode::Exclusive.lock_text(), "x");
}
