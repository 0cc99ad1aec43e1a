ghost use Rattle.std.specs.Prelude.{◌≡◌, ◌≤◌, IfOk, length};

use sid_core::OutOfMemory;
use std::alloc::Global;
use std::marker::Model;

// A short text has its bytes in itself, and a long one memory of its own.
#[derive(Drop)]
enum Kept {
    Inline { bytes: [u8; 30], len: u8 },
    Owned(Vec<u8>),
}

/// Bytes, of which up to 30 take no memory. Contracts see the list of them.
#[derive(Drop)]
pub struct SmallText {
    kept: Kept,
}

impl Model for SmallText {
    ghost use Rattle.std.specs.Prelude.{ℕ, List};
    ghost use Rattle.record_codec.specs.SmallText.{kept_bytes, HasInlineLength};

    ghost Value = { List ℕ };

    ghost view = { λ t. kept_bytes t.kept };

    ghost invariant = { λ t. HasInlineLength t.kept };
}

fn inline(text: &[u8]) -> SmallText
    requires { length text.now ≤ 30 }
    ensures { result ≡ text.now }
{
    let len = text.len() as u8;
    let mut bytes = [0; 30];
    let (front, _rest) = bytes.split_at_mut(text.len());
    front.copy_from_slice(text);
    SmallText {
        kept: Kept::Inline { bytes, len },
    }
}

impl SmallText {
    /// Takes memory once, for exactly these bytes, where there are more than 30, and else none.
    pub fn from_slice(alloc: Global, bytes: &[u8]) -> Result<SmallText, OutOfMemory>
        ensures { IfOk result (λ text. text ≡ bytes.now) }
    {
        if bytes.len() <= 30 {
            return Ok(inline(bytes));
        }
        Ok(SmallText::from_vec(Vec::from_slice(alloc, bytes)?))
    }

    /// Takes no memory.
    pub fn from_vec(bytes: Vec<u8>) -> SmallText
        ensures { result ≡ bytes.items }
    {
        SmallText {
            kept: Kept::Owned(bytes),
        }
    }

    /// Takes memory only where the bytes have none of their own.
    pub fn into_vec(self, alloc: Global) -> Result<Vec<u8>, OutOfMemory>
        ensures { IfOk result (λ bytes. bytes.items ≡ self) }
    {
        let SmallText { kept } = self;
        match kept {
            Kept::Inline { bytes, len } => Ok(Vec::from_slice(alloc, &bytes[..len as usize])?),
            Kept::Owned(bytes) => Ok(bytes),
        }
    }

    pub fn bytes(&self) -> &[u8]
        ensures { result.now ≡ self.now }
    {
        match &self.kept {
            Kept::Inline { bytes, len } => &bytes[..*len as usize],
            Kept::Owned(bytes) => bytes.as_slice(),
        }
    }
}
