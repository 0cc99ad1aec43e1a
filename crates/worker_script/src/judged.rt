ghost use Rattle.std.specs.Prelude.{◌≡◌};
ghost use Rattle.worker_script.specs.Lines.{is_declared};
ghost use Rattle.worker_script.specs.Operands.{finished, or_wrong_option, judged_call};
ghost use Rattle.worker_script.specs.Reader.{draft_of};

use crate::access::access;
use crate::line::Line;
use crate::numbered::Numbered;
use crate::options::{asked_in, flags_in, tables_of};
use crate::reader::Reader;
use crate::reason::Reason;
use crate::word::{on_of, wait_of};
use sid_core::{Access, Call, LeaseState, Mode, Share, Span};

fn lock_call(handle: u32, span: Span, count: usize, line: &Line<'_>) -> Result<Call, Reason>
    ensures { result ≡ or_wrong_option (finished (Numbered.Lock handle span) count line.now) }
{
    let Some(mode) = Mode::read_lock(line.token(5)) else {
        return Err(Reason::WrongOption);
    };
    let Some(wait) = wait_of(line.token(6)) else {
        return Err(Reason::WrongOption);
    };
    Ok(Call::Lock {
        handle,
        span,
        mode,
        wait,
    })
}

fn glock_call(key: u64, count: usize, line: &Line<'_>) -> Result<Call, Reason>
    ensures { result ≡ or_wrong_option (finished (Numbered.GLock key) count line.now) }
{
    let Some(mode) = Mode::read_glock(line.token(3)) else {
        return Err(Reason::WrongOption);
    };
    let Some(wait) = wait_of(line.token(4)) else {
        return Err(Reason::WrongOption);
    };
    Ok(Call::GLock { key, mode, wait })
}

fn ack_call(key: u64, count: usize, line: &Line<'_>) -> Result<Call, Reason>
    ensures { result ≡ or_wrong_option (finished (Numbered.Ack key) count line.now) }
{
    match LeaseState::read(line.token(3)) {
        Some(state) => Ok(Call::Ack { key, state }),
        None => Err(Reason::WrongOption),
    }
}

fn delete_call(handle: u32, count: usize, line: &Line<'_>) -> Result<Call, Reason>
    ensures { result ≡ or_wrong_option (finished (Numbered.Delete handle) count line.now) }
{
    match on_of(line.token(3)) {
        Some(on) => Ok(Call::Delete { handle, on }),
        None => Err(Reason::WrongOption),
    }
}

fn status_call(count: usize, line: &Line<'_>) -> Result<Call, Reason>
    ensures { result ≡ or_wrong_option (finished Numbered.Status count line.now) }
{
    match flags_in(count, line) {
        Some(flags) => Ok(Call::Status {
            tables: tables_of(flags),
        }),
        None => Err(Reason::WrongOption),
    }
}

impl Reader {
    fn has_file(&self, file: u32) -> bool
        ensures { result ≡ is_declared self.now.files file }
    {
        1 <= file && file as usize <= self.files.len()
    }

    fn open_call(&self, file: u32, count: usize, line: &Line<'_>) -> Result<Call, Reason>
        ensures { result ≡ judged_call (draft_of self.now) (Numbered.Open file) count line.now }
    {
        if !self.has_file(file) {
            return Err(Reason::UnknownFile);
        }
        let Some(access) = access(line.token(3)) else {
            return Err(Reason::WrongAccess);
        };
        let Some(share) = Share::read(line.token(4)) else {
            return Err(Reason::WrongShare);
        };
        let Some(asked) = asked_in(count, line) else {
            return Err(Reason::WrongOption);
        };
        Ok(Call::OpenFile {
            file,
            access: Access(access),
            share,
            lease: asked.lease,
            durable: asked.durable,
            overwrite: asked.overwrite,
            delete: asked.delete,
        })
    }

    /// The call that a line with these numbers and so many tokens spells, or what makes it bad in what stands behind them.
    pub fn judged_call(
        &self,
        numbered: Numbered,
        count: usize,
        line: &Line<'_>,
    ) -> Result<Call, Reason>
        ensures { result ≡ judged_call (draft_of self.now) numbered count line.now }
    {
        match numbered {
            Numbered::Open { file } => self.open_call(file, count, line),
            Numbered::Close { handle } => Ok(Call::Close { handle }),
            Numbered::Delete { handle } => delete_call(handle, count, line),
            Numbered::Ack { key } => ack_call(key, count, line),
            Numbered::Lock { handle, span } => lock_call(handle, span, count, line),
            Numbered::Unlock { handle, span } => Ok(Call::Unlock { handle, span }),
            Numbered::Read { handle, span } => Ok(Call::Read { handle, span }),
            Numbered::Write { handle, span } => Ok(Call::Write { handle, span }),
            Numbered::GLock { key } => glock_call(key, count, line),
            Numbered::GUnlock { key } => Ok(Call::GUnlock { key }),
            Numbered::Recv => Ok(Call::Recv),
            Numbered::Disconnect => Ok(Call::Disconnect),
            Numbered::Reconnect { worker, call, key } => {
                Ok(Call::Reconnect { worker, call, key })
            }
            Numbered::Scavenge => Ok(Call::Scavenge),
            Numbered::Tidy => Ok(Call::Tidy),
            Numbered::Status => status_call(count, line),
        }
    }
}
