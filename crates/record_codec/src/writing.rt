ghost use Rattle.std.specs.Prelude.{◌≡◌, ◌+◌, ◌++◌, ◌<◌, ◌≤◌, ◌^◌, length, vec_len, vec_capacity};
ghost use Rattle.byteorder.specs.Endian.{little_bytes, little_number};
ghost use Rattle.record_codec.specs.Fields.{open_id, text as text_codec, state, truth as truth_codec, mode as mode_codec, sid as sid_codec};

use sid_core::{LeaseState, Mode, OpenId, Sid};

// Room is there, so no memory is taken.
pub(crate) fn put_bytes(out: &mut Vec<u8>, bytes: &[u8])
    requires { vec_len out.old + length bytes.now ≤ vec_capacity out.old }
    ensures items { out.new.items ≡ out.old.items ++ bytes.now }
    ensures len { vec_len out.new ≡ vec_len out.old + length bytes.now }
    ensures room { vec_capacity out.old ≤ vec_capacity out.new }
{
    let _ = out.extend_from_slice(bytes);
}

pub(crate) fn put_u8(out: &mut Vec<u8>, number: u8)
    requires { vec_len out.old + 1 ≤ vec_capacity out.old }
    ensures items { out.new.items ≡ out.old.items ++ little_bytes 1 number }
    ensures len { vec_len out.new ≡ vec_len out.old + 1 }
    ensures room { vec_capacity out.old ≤ vec_capacity out.new }
{
    put_bytes(out, &number.to_le_bytes());
}

pub(crate) fn put_u16(out: &mut Vec<u8>, number: u16)
    requires { vec_len out.old + 2 ≤ vec_capacity out.old }
    ensures items { out.new.items ≡ out.old.items ++ little_bytes 2 number }
    ensures len { vec_len out.new ≡ vec_len out.old + 2 }
    ensures room { vec_capacity out.old ≤ vec_capacity out.new }
{
    put_bytes(out, &number.to_le_bytes());
}

pub(crate) fn put_u32(out: &mut Vec<u8>, number: u32)
    requires { vec_len out.old + 4 ≤ vec_capacity out.old }
    ensures items { out.new.items ≡ out.old.items ++ little_bytes 4 number }
    ensures len { vec_len out.new ≡ vec_len out.old + 4 }
    ensures room { vec_capacity out.old ≤ vec_capacity out.new }
{
    put_bytes(out, &number.to_le_bytes());
}

pub(crate) fn put_u64(out: &mut Vec<u8>, number: u64)
    requires { vec_len out.old + 8 ≤ vec_capacity out.old }
    ensures items { out.new.items ≡ out.old.items ++ little_bytes 8 number }
    ensures len { vec_len out.new ≡ vec_len out.old + 8 }
    ensures room { vec_capacity out.old ≤ vec_capacity out.new }
{
    put_bytes(out, &number.to_le_bytes());
}

pub(crate) fn put_header(out: &mut Vec<u8>, magic: [u8; 4], version: u16)
    requires { vec_len out.old + 6 ≤ vec_capacity out.old }
    ensures items { out.new.items ≡ out.old.items ++ (little_bytes 4 (little_number 4 magic) ++ little_bytes 2 version) }
    ensures len { vec_len out.new ≡ vec_len out.old + 6 }
    ensures room { vec_capacity out.old ≤ vec_capacity out.new }
{
    put_u32(out, u32::from_le_bytes(magic));
    put_u16(out, version);
}

pub(crate) fn put_truth(out: &mut Vec<u8>, truth: bool)
    requires { vec_len out.old + 1 ≤ vec_capacity out.old }
    ensures items { out.new.items ≡ out.old.items ++ (truth_codec 0).spell truth }
    ensures len { vec_len out.new ≡ vec_len out.old + 1 }
    ensures room { vec_capacity out.old ≤ vec_capacity out.new }
{
    put_u8(out, truth as u8);
}

pub(crate) fn put_mode(out: &mut Vec<u8>, mode: Mode)
    requires { vec_len out.old + 1 ≤ vec_capacity out.old }
    ensures items { out.new.items ≡ out.old.items ++ (mode_codec 0).spell mode }
    ensures len { vec_len out.new ≡ vec_len out.old + 1 }
    ensures room { vec_capacity out.old ≤ vec_capacity out.new }
{
    match mode {
        Mode::Shared => put_u8(out, 0),
        Mode::Exclusive => put_u8(out, 1),
    }
}

pub(crate) fn put_sid(out: &mut Vec<u8>, sid: Sid)
    requires { vec_len out.old + 8 ≤ vec_capacity out.old }
    ensures items { out.new.items ≡ out.old.items ++ (sid_codec 0 0).spell sid }
    ensures len { vec_len out.new ≡ vec_len out.old + 8 }
    ensures room { vec_capacity out.old ≤ vec_capacity out.new }
{
    put_u32(out, sid.pid);
    put_u32(out, sid.session);
}

pub(crate) fn put_open_id(out: &mut Vec<u8>, id: OpenId)
    requires { vec_len out.old + 8 ≤ vec_capacity out.old }
    ensures items { out.new.items ≡ out.old.items ++ (open_id 0 0).spell id }
    ensures len { vec_len out.new ≡ vec_len out.old + 8 }
    ensures room { vec_capacity out.old ≤ vec_capacity out.new }
{
    put_u32(out, id.pid);
    put_u32(out, id.call);
}

pub(crate) fn put_state(out: &mut Vec<u8>, held: LeaseState)
    requires { vec_len out.old + 1 ≤ vec_capacity out.old }
    ensures items { out.new.items ≡ out.old.items ++ (state 0).spell held }
    ensures len { vec_len out.new ≡ vec_len out.old + 1 }
    ensures room { vec_capacity out.old ≤ vec_capacity out.new }
{
    put_u8(out, held.0);
}

pub(crate) fn put_text(out: &mut Vec<u8>, text: &[u8])
    requires short { length text.now < 2 ^ 16 }
    requires room { vec_len out.old + (2 + length text.now) ≤ vec_capacity out.old }
    ensures items { out.new.items ≡ out.old.items ++ (text_codec 0).spell text.now }
    ensures len { vec_len out.new ≡ vec_len out.old + (2 + length text.now) }
    ensures room { vec_capacity out.old ≤ vec_capacity out.new }
{
    put_u16(out, text.len() as u16);
    put_bytes(out, text);
}
