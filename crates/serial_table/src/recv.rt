ghost use Rattle.std.specs.Prelude.{◌≡◌, ◌∷◌, [], find, IfOk};
ghost use Rattle.serial_table.specs.View.{view, is_to};
ghost use Rattle.serial_table.specs.Recv.{recv_first, recv};

use crate::change::Change;
use crate::decision::{self, Caller, Decision};
use crate::table::Table;
use crate::view;
use sid_core::{Items, OutOfMemory, Post, Reply, Sid};
use std::alloc::Global;

fn first_letter(table: &Table, to: Sid) -> Option<Post>
    ensures { result ≡ find (is_to to) table.now.letters }
{
    table
        .letters
        .as_slice()
        .iter()
        .copied()
        .find(|post| view::is_to(to, post))
}

fn take_letter(alloc: Global, caller: &Caller, post: &Post) -> Result<Decision, OutOfMemory>
    ensures { IfOk result (λ decision. decision ≡ recv_first caller.now (post.now ∷ [])) }
{
    let taken = Change::TakeLetter { to: caller.sid };
    Ok(Decision {
        changes: Items::from_vec(vec![in alloc; taken]?),
        ..decision::only_reply(alloc, Reply::Message(post.letter))
    })
}

/// What a `recv` decides.
pub(crate) fn recv(table: &Table, caller: &Caller) -> Result<Decision, OutOfMemory>
    ensures { IfOk result (λ decision. decision ≡ recv (view table.now) caller.now) }
{
    let alloc = table.letters.allocator();
    match first_letter(table, caller.sid) {
        Some(post) => take_letter(alloc, caller, &post),
        None => Ok(decision::only_reply(alloc, Reply::NoMessage)),
    }
}
