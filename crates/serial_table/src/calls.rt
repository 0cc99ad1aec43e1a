ghost use Rattle.std.specs.Prelude.{◌≡◌, ◌↔◌, ◌<◌, ◌+◌, ◌^◌, IsTrue, IsSome, IfOk, IfErr, IfSome, OnOk, OnErr, true};
ghost use Rattle.serial_table.specs.View.{view, lives};
ghost use Rattle.serial_table.specs.Settle.{settle};
ghost use Rattle.serial_table.specs.Change.{perform_all};
ghost use Rattle.serial_table.specs.Decision.{settling, conclude};
ghost use Rattle.std.specs.List.{list_all};
ghost use Rattle.serial_table.specs.Decide.{decide, outcome};
ghost use Rattle.serial_table.specs.Step.{caller_of, caller_if_alive};
ghost use Rattle.serial_table.specs.Apply.{HasNext, Accepts, DiffersFrom, Refuses};
ghost use Rattle.serial_table.specs.InPlace.{AreEnough, is_made, scope_of};

use crate::apply::Apply;
use crate::by_number::declared_worker;
use crate::decide::{decide, scope_of};
use crate::decision::{Caller, Decision};
use crate::lists::Scope;
use crate::rows::WorkerRow;
use crate::session::end_of_session;
use crate::table::Table;
use crate::view::worker_of;
use sid_core::{
    Call, Entry, Event, Items, Moment, OutOfMemory, Post, Reply, Setup, Sid, WorkerInfo,
};

fn is_same_reply(a: Reply, b: Reply) -> bool
    ensures { IsTrue result ↔ (a ≡ b) }
{
    a == b
}

fn caller_if_alive(info: &WorkerInfo, number: u32, moment: Moment, row: WorkerRow) -> Option<Caller>
    ensures { result ≡ caller_if_alive info.now number moment row }
{
    if !row.alive {
        return None;
    }
    Some(Caller {
        sid: Sid {
            pid: row.pid,
            session: row.session,
        },
        guid: info.guid,
        number,
        moment,
    })
}

impl Table {
    #[tactic(auto, unfolding(crate::specs::Step::caller_of))]
    fn find_caller(&self, setup: &Setup, worker: u32, number: u32, moment: Moment) -> Option<Caller>
        ensures { result ≡ caller_of setup.now (view self.now) worker number moment }
    {
        let info = declared_worker(setup, worker)?;
        let row = worker_of(self.workers.as_slice(), info.pid)?;
        caller_if_alive(info, number, moment, row)
    }

    /// The caller that a worker's call with this number at this moment has: none where the worker isn't declared or is dead.
    pub fn caller(&self, setup: &Setup, worker: u32, number: u32, moment: Moment) -> Option<Caller>
        ensures caller { result ≡ caller_of setup.now (view self.now) worker number moment }
        ensures lives { IfSome result (λ caller. lives (view self.now) caller.sid ≡ true) }
    {
        self.find_caller(setup, worker, number, moment)
    }

    /// Settles all files: a table whose rows were made by hand is then fit for calls. Takes no memory.
    pub fn settle(&mut self)
        ensures settle { self.new ≡ settle self.old }
        ensures settled { settle self.new ≡ self.new }
    {
        let mut lists = self.take_lists();
        lists.settle(Scope::All);
        *self = lists.into_table();
    }

    /// Concludes a decision in place. A refusal changes nothing.
    fn conclude(&mut self, scope: Scope, decision: &Decision) -> Result<Vec<Post>, OutOfMemory>
        requires made { IsTrue (list_all is_made decision.now.changes) }
        requires enough { AreEnough scope (settling decision.now) self.old }
        ensures table { OnOk result (self.new ≡ perform_all (conclude (view self.old) decision.now).changes self.old) }
        ensures posts { IfOk result (λ posts. posts.items ≡ (conclude (view self.old) decision.now).posts) }
        ensures err { OnErr result (self.new ≡ self.old) }
    {
        let mut lists = self.take_lists();
        let concluded = lists.conclude(scope, decision);
        *self = lists.into_table();
        concluded
    }

    /// Concludes what a call of a caller who lives has decided.
    fn conclude_call(&mut self, call: &Call, decision: &Decision) -> Result<Vec<Post>, OutOfMemory>
        requires made { IsTrue (list_all is_made decision.now.changes) }
        requires enough { AreEnough (scope_of call.now decision.now.changes) (settling decision.now) self.old }
        ensures table { OnOk result (self.new ≡ perform_all (conclude (view self.old) decision.now).changes self.old) }
        ensures posts { IfOk result (λ posts. posts.items ≡ (conclude (view self.old) decision.now).posts) }
        ensures err { OnErr result (self.new ≡ self.old) }
    {
        self.conclude(scope_of(call, decision.changes.as_slice()), decision)
    }

    /// Carries out a call of a caller who lives, in place, behind what expires before it. A refusal changes nothing.
    fn call_behind(
        &mut self,
        setup: &Setup,
        caller: &Caller,
        call: Call,
    ) -> Result<(Reply, Items<Post>), OutOfMemory>
        requires settled { settle self.old ≡ self.old }
        requires next { caller.now.sid.session + 1 < 2 ^ 32 }
        requires lives { lives (view self.old) caller.now.sid ≡ true }
        ensures changed { OnOk result (self.new ≡ perform_all (conclude (view self.old) (decide setup.now (view self.old) caller.now call)).changes self.old) }
        ensures reply { IfOk result (λ answer. answer.0 ≡ (decide setup.now (view self.old) caller.now call).reply) }
        ensures posts { IfOk result (λ answer. answer.1 ≡ (conclude (view self.old) (decide setup.now (view self.old) caller.now call)).posts) }
        ensures err { OnErr result (self.new ≡ self.old) }
    {
        let decision = decide(setup, self, caller, call)?;
        let posts = self.conclude_call(&call, &decision)?;
        Ok((decision.reply, Items::from_vec(posts)))
    }

    /// Carries out a call of a caller who lives, in place, and gives the reply and the letters that it posts. It costs a few scans of
    /// the table's lists; `scavenge` costs a sort of the expired opens besides. Only where a break expires at which the call looks does it
    /// work on a copy of the table. A refusal changes nothing.
    pub fn call(
        &mut self,
        setup: &Setup,
        caller: &Caller,
        call: Call,
    ) -> Result<(Reply, Items<Post>), OutOfMemory>
        requires settled { settle self.old ≡ self.old }
        requires next { caller.now.sid.session + 1 < 2 ^ 32 }
        requires lives { lives (view self.old) caller.now.sid ≡ true }
        ensures changed { OnOk result (self.new ≡ perform_all (outcome setup.now (view self.old) caller.now call).changes self.old) }
        ensures reply { IfOk result (λ answer. answer.0 ≡ (outcome setup.now (view self.old) caller.now call).reply) }
        ensures posts { IfOk result (λ answer. answer.1 ≡ (outcome setup.now (view self.old) caller.now call).posts) }
        ensures settled { settle self.new ≡ self.new }
        ensures err { OnErr result (self.new ≡ self.old) }
    {
        match self.expired(setup, caller, &call)? {
            Some(mut behind) => {
                let answer = behind.call_behind(setup, caller, call)?;
                *self = behind;
                Ok(answer)
            }
            None => self.call_behind(setup, caller, call),
        }
    }

    /// Carries out a call of a caller who lives where its reply is this one, in place, behind what expires before it.
    fn apply_behind(
        &mut self,
        setup: &Setup,
        caller: &Caller,
        call: Call,
        reply: Reply,
    ) -> Result<Vec<Post>, Apply>
        requires settled { settle self.old ≡ self.old }
        requires next { caller.now.sid.session + 1 < 2 ^ 32 }
        requires lives { lives (view self.old) caller.now.sid ≡ true }
        ensures changed { OnOk result (self.new ≡ perform_all (conclude (view self.old) (decide setup.now (view self.old) caller.now call)).changes self.old) }
        ensures reply { OnOk result ((decide setup.now (view self.old) caller.now call).reply ≡ reply) }
        ensures posts { IfOk result (λ posts. posts.items ≡ (conclude (view self.old) (decide setup.now (view self.old) caller.now call)).posts) }
        ensures cause { IfErr result (DiffersFrom reply (decide setup.now (view self.old) caller.now call).reply) }
        ensures same { OnErr result (self.new ≡ self.old) }
    {
        let decision = decide(setup, self, caller, call)?;
        if !is_same_reply(decision.reply, reply) {
            return Err(Apply::Differs(decision.reply));
        }
        Ok(self.conclude_call(&call, &decision)?)
    }

    /// Carries out a call of a caller who lives where its reply is this one.
    fn apply_of(
        &mut self,
        setup: &Setup,
        caller: &Caller,
        call: Call,
        reply: Reply,
    ) -> Result<Vec<Post>, Apply>
        requires settled { settle self.old ≡ self.old }
        requires next { caller.now.sid.session + 1 < 2 ^ 32 }
        requires lives { lives (view self.old) caller.now.sid ≡ true }
        ensures changed { OnOk result (self.new ≡ perform_all (outcome setup.now (view self.old) caller.now call).changes self.old) }
        ensures reply { OnOk result ((outcome setup.now (view self.old) caller.now call).reply ≡ reply) }
        ensures posts { IfOk result (λ posts. posts.items ≡ (outcome setup.now (view self.old) caller.now call).posts) }
        ensures cause { IfErr result (DiffersFrom reply (outcome setup.now (view self.old) caller.now call).reply) }
        ensures same { OnErr result (self.new ≡ self.old) }
    {
        match self.expired(setup, caller, &call)? {
            Some(mut behind) => match behind.apply_behind(setup, caller, call, reply) {
                Ok(posts) => {
                    *self = behind;
                    Ok(posts)
                }
                Err(refusal) => Err(refusal),
            },
            None => self.apply_behind(setup, caller, call, reply),
        }
    }

    fn apply_call(
        &mut self,
        setup: &Setup,
        worker: u32,
        number: u32,
        moment: Moment,
        call: Call,
        reply: Reply,
    ) -> Result<Vec<Post>, Apply>
        requires next { HasNext setup.now self.old worker (Event.Called number moment call reply) }
        requires settled { settle self.old ≡ self.old }
        ensures taken { IfOk result (λ posts. Accepts setup.now worker (Event.Called number moment call reply) self.old self.new posts.items) }
        ensures cause { IfErr result (Refuses setup.now worker (Event.Called number moment call reply) self.old) }
        ensures same { OnErr result (self.new ≡ self.old) }
    {
        let Some(caller) = self.caller(setup, worker, number, moment) else {
            return Err(Apply::NotAlive(worker));
        };
        self.apply_of(setup, &caller, call, reply)
    }

    fn apply_death(
        &mut self,
        setup: &Setup,
        by: u32,
        worker: u32,
        moment: Moment,
    ) -> Result<Vec<Post>, Apply>
        ensures taken { IfOk result (λ posts. Accepts setup.now by (Event.Died worker moment) self.old self.new posts.items) }
        ensures cause { IfErr result (Refuses setup.now by (Event.Died worker moment) self.old) }
        ensures same { OnErr result (self.new ≡ self.old) }
    {
        let Some(caller) = self.caller(setup, worker, 0, moment) else {
            return Err(Apply::NotAlive(worker));
        };
        let decision = end_of_session(self, caller.sid, moment, &[])?;
        Ok(self.conclude(Scope::All, &decision)?)
    }

    /// Takes an entry of a history: of a call, checks that its worker lives and that its reply is the table's; of a death, that the
    /// worker lives. Then it makes the changes in place, and gives the letters that they post. A tidied chain is always taken, and
    /// changes nothing. After a refusal the table is as it was.
    pub fn apply(&mut self, setup: &Setup, entry: &Entry) -> Result<Vec<Post>, Apply>
        requires next { HasNext setup.now self.old entry.now.by entry.now.what }
        requires settled { settle self.old ≡ self.old }
        ensures taken { IfOk result (λ posts. Accepts setup.now entry.now.by entry.now.what self.old self.new posts.items) }
        ensures cause { IfErr result (Refuses setup.now entry.now.by entry.now.what self.old) }
        ensures same { OnErr result (self.new ≡ self.old) }
        ensures settled { settle self.new ≡ self.new }
    {
        match entry.what {
            Event::Called {
                number,
                moment,
                call,
                reply,
            } => self.apply_call(setup, entry.by, number, moment, call, reply),
            Event::Died { worker, moment } => self.apply_death(setup, entry.by, worker, moment),
            Event::Tidied { .. } => Ok(Vec::new(self.letters.allocator())),
        }
    }
}
