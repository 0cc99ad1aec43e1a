ghost use Rattle.std.specs.Prelude.{◌≡◌, ◌&&◌, ◌==◌, not, OnOk, IsSomeAnd, IsSome, filter, drop, slice_get, [], ◌∷◌};
ghost use Rattle.std.specs.List.{list_any};
ghost use Rattle.std.specs.FinMap as map;
ghost use Rattle.sid_core.specs.Ids.{same_spot};
ghost use Rattle.serial_table.specs.View.{is_to};
ghost use Rattle.record_watch.specs.Mails.{receiver, with_letter, without_spot, without_first, ChangesEach};

use record_codec::{MailRec, Token};
use server_ids::ByPid;
use sid_core::{Items, Letter, OutOfMemory, Post, Sid, Spot};
use std::mem;

/// The mailboxes, by pid.
pub type Mails = ByPid<MailRec>;

pub(crate) fn take<T>(list: &mut Items<T>) -> Vec<T>
    ensures taken { result.items ≡ list.old }
    ensures emptied { list.new ≡ [] }
{
    let alloc = list.allocator();
    mem::replace(list, Items::new(alloc)).into_vec()
}

// ---- tokens

fn is_at(spot: Spot, token: &Token) -> bool
    ensures { result ≡ same_spot token.now.spot spot }
{
    token.spot == spot
}

fn waits_at(tokens: &[Token], spot: Spot) -> bool
    ensures { result ≡ list_any (λ token. same_spot token.spot spot) tokens.now }
{
    tokens.iter().any(|token| is_at(spot, token))
}

fn drop_spot(tokens: &mut Vec<Token>, spot: Spot)
    ensures { tokens.new.items ≡ filter (λ token. not (same_spot token.spot spot)) tokens.old.items }
{
    tokens.retain(|token| !is_at(spot, token));
}

/// Nothing waits at the spot any more. True where something did.
pub fn cancel(mail: &mut MailRec, spot: Spot) -> bool
    ensures waited { result ≡ list_any (λ token. same_spot token.spot spot) mail.old.tokens }
    ensures mail { mail.new ≡ without_spot spot mail.old }
{
    let waited = waits_at(mail.tokens.as_slice(), spot);
    let mut tokens = take(&mut mail.tokens);
    drop_spot(&mut tokens, spot);
    mail.tokens = Items::from_vec(tokens);
    waited
}

// ---- letters

fn is_to(mail: &MailRec, to: Sid) -> bool
    ensures { result ≡ (mail.now.session == to.session) }
{
    mail.session == to.session
}

fn add_letter(mail: &mut MailRec, post: Post) -> Result<(), OutOfMemory>
    ensures { OnOk result (mail.new ≡ with_letter post post.to.pid mail.old) }
{
    if is_to(mail, post.to) {
        mail.letters.push(post.letter)
    } else {
        Ok(())
    }
}

/// The letter comes into the receiver's mailbox.
pub fn post(mails: &mut Mails, post: Post) -> Result<(), OutOfMemory>
    requires { IsSomeAnd (map.get mails.old post.to.pid) (λ mail. mail.session ≡ post.to.session) }
    ensures { OnOk result (ChangesEach (with_letter post) mails.old mails.new) }
{
    match mails.get_mut(post.to.pid) {
        Some(mail) => add_letter(mail, post),
        None => Ok(()),
    }
}

fn take_first(letters: &mut Vec<Letter>) -> Option<Letter>
    ensures first { result ≡ slice_get letters.old.items 0 }
    ensures rest { letters.new.items ≡ drop 1 letters.old.items }
{
    if letters.is_empty() {
        None
    } else {
        Some(letters.remove(0))
    }
}

/// Takes the first letter out.
pub fn next_message(mail: &mut MailRec) -> Option<Letter>
    ensures first { result ≡ slice_get mail.old.letters 0 }
    ensures mail { mail.new ≡ without_first mail.old }
{
    let mut letters = take(&mut mail.letters);
    let first = take_first(&mut letters);
    mail.letters = Items::from_vec(letters);
    first
}
