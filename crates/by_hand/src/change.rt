ghost use Rattle.std.specs.Prelude.{◌≡◌, Some, None};
ghost use Rattle.by_hand.specs.Steps.{plain};

use chain_map::Db;
use sid_core::Event;

/// What becomes of the record under a key: it gets the value, or goes.
#[derive(Clone, Copy)]
pub struct Change<'a> {
    pub db: Db,
    pub key: &'a [u8],
    pub value: Option<&'a [u8]>,
}

impl<'a> Change<'a> {
    pub fn put(db: Db, key: &'a [u8], value: &'a [u8]) -> Change<'a>
        ensures { plain result ≡ (db, key.now, Some value.now) }
    {
        Change {
            db,
            key,
            value: Some(value),
        }
    }

    pub fn remove(db: Db, key: &'a [u8]) -> Change<'a>
        ensures { plain result ≡ (db, key.now, None) }
    {
        Change {
            db,
            key,
            value: None,
        }
    }
}

/// What is decided for one outcome of what was fetched: what becomes of records, and the entry's event.
#[derive(Clone, Copy)]
pub struct Choice<'a> {
    pub changes: &'a [Change<'a>],
    pub event: Event,
}

/// An entry as it is decided by hand.
#[derive(Clone, Copy)]
pub struct Decision<'a> {
    /// The chains that are held, by rising numbers.
    pub footprint: &'a [u32],
    /// The record that is fetched: its database and its key.
    pub db: Db,
    pub key: &'a [u8],
    pub found: Choice<'a>,
    pub missing: Choice<'a>,
}
