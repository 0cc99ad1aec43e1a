ghost use Rattle.std.specs.Prelude.{◌≡◌, ℕ, IsTrue, ◌+◌, ◌≤◌, ◌<◌, ◌^◌, ◌&&◌, ◌||◌, not, ◌∷◌, ◌++◌, [], filter, map, vec_len, vec_capacity};
ghost use Rattle.std.specs.List.{list_any, position};
ghost use Rattle.sid_core.specs.Ids.{same_id, same_sid};
ghost use Rattle.serial_table.specs.View.{is_of_handle, is_of_file, is_to, names_file};
ghost use Rattle.serial_table.specs.Lists.{drop_first};
ghost use Rattle.serial_table.specs.InPlace.{table_of, HasRoom, KeepsRoom, IsEnough, is_made, is_of_files, is_elsewhere};
ghost use Rattle.serial_table.specs.Change.{perform, is_open, is_other_open, is_other_range, is_other_wait, is_lease, set_lease, new_owner, same_mode, same_range, is_hold, set_hold, with_pending, outlives, end_session, begin_session};

use crate::change::Change;
use crate::lists::{Lists, Scope};
use crate::rows::{Breaking, EndedRow, HoldRow, LeaseRow, OpenRow, RangeRow, WaiterRow, WorkerRow};
use crate::view;
use sid_core::{LeaseName, LeaseState, Mode, Moment, OpenId, Post, Sid};

// ---- tests and changes of one row

pub(crate) fn is_open(file: u32, id: OpenId, row: &OpenRow) -> bool
    ensures { result ≡ is_open file id row.now }
{
    row.file == file && row.id == id
}

fn is_range_of_open(file: u32, id: OpenId, range: &RangeRow) -> bool
    ensures { result ≡ not (is_other_range file id range.now) }
{
    range.file == file && range.id == id
}

fn is_other_wait(sid: Sid, call: u32, waiter: &WaiterRow) -> bool
    ensures { result ≡ is_other_wait sid call waiter.now.sid waiter.now.call }
{
    !(waiter.sid == sid && waiter.call == call)
}

#[tactic(auto, unfolding(crate::specs::Change::new_owner))]
fn give_owner(file: u32, id: OpenId, owner: Sid, handle: u32, row: OpenRow) -> OpenRow
    ensures { result ≡ new_owner file id owner handle row }
{
    if is_open(file, id, &row) {
        OpenRow {
            owner,
            handle,
            ..row
        }
    } else {
        row
    }
}

fn is_lease(file: u32, name: LeaseName, lease: &LeaseRow) -> bool
    ensures { result ≡ is_lease file name lease.now }
{
    lease.file == file && lease.name == name
}

#[tactic(auto, unfolding(crate::specs::Change::set_lease))]
fn set_lease(
    file: u32,
    name: LeaseName,
    held: LeaseState,
    breaking: Option<Breaking>,
    lease: &mut LeaseRow,
)
    ensures { lease.new ≡ set_lease file name held breaking lease.old }
{
    if is_lease(file, name, lease) {
        lease.held = held;
        lease.breaking = breaking;
    }
}

pub(crate) fn is_same_mode(a: Mode, b: Mode) -> bool
    ensures { result ≡ same_mode a b }
{
    match (a, b) {
        (Mode::Shared, Mode::Shared) => true,
        (Mode::Exclusive, Mode::Exclusive) => true,
        (Mode::Shared, Mode::Exclusive) => false,
        (Mode::Exclusive, Mode::Shared) => false,
    }
}

pub(crate) fn is_same_range(a: &RangeRow, b: &RangeRow) -> bool
    ensures { result ≡ same_range a.now b.now }
{
    b.file == a.file
        && (b.id == a.id
            && (b.span.start == a.span.start
                && (b.span.length == a.span.length && is_same_mode(b.mode, a.mode))))
}

pub(crate) fn is_hold(key: u64, owner: Sid, hold: &HoldRow) -> bool
    ensures { result ≡ is_hold key owner hold.now }
{
    hold.key == key && hold.owner == owner
}

#[tactic(auto, unfolding(crate::specs::Change::set_hold))]
fn set_hold(key: u64, owner: Sid, mode: Mode, hold: HoldRow) -> HoldRow
    ensures { result ≡ set_hold key owner mode hold }
{
    if is_hold(key, owner, &hold) {
        HoldRow { mode, ..hold }
    } else {
        hold
    }
}

fn outlives(sid: Sid, row: &OpenRow) -> bool
    ensures { result ≡ outlives sid row.now }
{
    row.owner != sid || row.durable != 0
}

#[tactic(auto, unfolding(crate::specs::Change::end_session))]
fn end_session(sid: Sid, worker: WorkerRow) -> WorkerRow
    ensures { result ≡ end_session sid worker }
{
    if worker.pid == sid.pid && worker.session == sid.session {
        WorkerRow {
            alive: false,
            ..worker
        }
    } else {
        worker
    }
}

#[tactic(auto, unfolding(crate::specs::Change::begin_session))]
fn begin_session(sid: Sid, moment: Moment, worker: WorkerRow) -> WorkerRow
    requires { sid.session + 1 < 2 ^ 32 }
    ensures { result ≡ begin_session sid moment worker }
{
    if worker.pid == sid.pid && worker.session == sid.session {
        WorkerRow {
            alive: true,
            session: sid.session + 1,
            connected: moment,
            ..worker
        }
    } else {
        worker
    }
}

// ---- changes of one list

fn drop_open(opens: &mut Vec<OpenRow>, file: u32, id: OpenId)
    ensures items { opens.new.items ≡ filter (is_other_open file id) opens.old.items }
    ensures len { vec_len opens.new ≤ vec_len opens.old }
    ensures room { vec_capacity opens.new ≡ vec_capacity opens.old }
{
    opens.retain(|row| !is_open(file, id, row));
}

fn drop_ranges(ranges: &mut Vec<RangeRow>, file: u32, id: OpenId)
    ensures items { ranges.new.items ≡ filter (is_other_range file id) ranges.old.items }
    ensures len { vec_len ranges.new ≤ vec_len ranges.old }
    ensures room { vec_capacity ranges.new ≡ vec_capacity ranges.old }
{
    ranges.retain(|range| !is_range_of_open(file, id, range));
}

fn give_owners(opens: &mut Vec<OpenRow>, file: u32, id: OpenId, owner: Sid, handle: u32)
    ensures items { opens.new.items ≡ map (new_owner file id owner handle) opens.old.items }
    ensures len { vec_len opens.new ≡ vec_len opens.old }
    ensures room { vec_capacity opens.new ≡ vec_capacity opens.old }
{
    for row in opens.iter_mut() {
        *row = give_owner(file, id, owner, handle, *row);
    }
}

pub(crate) fn set_leases(
    leases: &mut Vec<LeaseRow>,
    file: u32,
    name: LeaseName,
    held: LeaseState,
    breaking: Option<Breaking>,
)
    ensures items { leases.new.items ≡ map (set_lease file name held breaking) leases.old.items }
    ensures len { vec_len leases.new ≡ vec_len leases.old }
    ensures room { vec_capacity leases.new ≡ vec_capacity leases.old }
{
    for lease in leases.iter_mut() {
        set_lease(file, name, held, breaking, lease);
    }
}

fn place_of_range(ranges: &[RangeRow], range: &RangeRow) -> Option<usize>
    ensures { result ≡ position (same_range range.now) ranges.now }
{
    ranges.iter().position(|held| is_same_range(range, held))
}

fn drop_range(ranges: &mut Vec<RangeRow>, range: &RangeRow)
    ensures items { ranges.new.items ≡ drop_first (same_range range.now) ranges.old.items }
    ensures len { vec_len ranges.new ≤ vec_len ranges.old }
    ensures room { vec_capacity ranges.new ≡ vec_capacity ranges.old }
{
    if let Some(place) = place_of_range(ranges.as_slice(), range) {
        ranges.remove(place);
    }
}

pub(crate) fn is_pending(files: &[u32], file: u32) -> bool
    ensures { result ≡ list_any (names_file file) files.now }
{
    files.iter().any(|pending| *pending == file)
}

#[tactic(auto, unfolding(crate::specs::Change::with_pending))]
fn add_pending(files: &mut Vec<u32>, file: u32)
    requires room { vec_len files.old + 1 ≤ vec_capacity files.old }
    ensures items { files.new.items ≡ with_pending file files.old.items }
    ensures len { vec_len files.new ≤ vec_len files.old + 1 }
    ensures room { vec_capacity files.new ≡ vec_capacity files.old }
{
    if !is_pending(files.as_slice(), file) {
        files.push_reserved(file);
    }
}

fn drop_pending(files: &mut Vec<u32>, file: u32)
    ensures items { files.new.items ≡ filter (λ pending. not (names_file file pending)) files.old.items }
    ensures len { vec_len files.new ≤ vec_len files.old }
    ensures room { vec_capacity files.new ≡ vec_capacity files.old }
{
    files.retain(|pending| *pending != file);
}

fn set_holds(holds: &mut Vec<HoldRow>, key: u64, owner: Sid, mode: Mode)
    ensures items { holds.new.items ≡ map (set_hold key owner mode) holds.old.items }
    ensures len { vec_len holds.new ≡ vec_len holds.old }
    ensures room { vec_capacity holds.new ≡ vec_capacity holds.old }
{
    for hold in holds.iter_mut() {
        *hold = set_hold(key, owner, mode, *hold);
    }
}

fn drop_holds(holds: &mut Vec<HoldRow>, key: u64, owner: Sid)
    ensures items { holds.new.items ≡ filter (λ hold. not (is_hold key owner hold)) holds.old.items }
    ensures len { vec_len holds.new ≤ vec_len holds.old }
    ensures room { vec_capacity holds.new ≡ vec_capacity holds.old }
{
    holds.retain(|hold| !is_hold(key, owner, hold));
}

fn drop_waiter(waiters: &mut Vec<WaiterRow>, sid: Sid, call: u32)
    ensures items { waiters.new.items ≡ filter (λ waiter. is_other_wait sid call waiter.sid waiter.call) waiters.old.items }
    ensures len { vec_len waiters.new ≤ vec_len waiters.old }
    ensures room { vec_capacity waiters.new ≡ vec_capacity waiters.old }
{
    waiters.retain(|waiter| is_other_wait(sid, call, waiter));
}

fn place_of_letter(letters: &[Post], to: Sid) -> Option<usize>
    ensures { result ≡ position (is_to to) letters.now }
{
    letters.iter().position(|post| view::is_to(to, post))
}

fn drop_letter(letters: &mut Vec<Post>, to: Sid)
    ensures items { letters.new.items ≡ drop_first (is_to to) letters.old.items }
    ensures len { vec_len letters.new ≤ vec_len letters.old }
    ensures room { vec_capacity letters.new ≡ vec_capacity letters.old }
{
    if let Some(place) = place_of_letter(letters.as_slice(), to) {
        letters.remove(place);
    }
}

// ---- changes of the list at the end of a session

fn drop_plain_opens(opens: &mut Vec<OpenRow>, sid: Sid)
    ensures items { opens.new.items ≡ filter (outlives sid) opens.old.items }
    ensures len { vec_len opens.new ≤ vec_len opens.old }
    ensures room { vec_capacity opens.new ≡ vec_capacity opens.old }
{
    opens.retain(|row| outlives(sid, row));
}

fn goes_with(sid: Sid, id: OpenId, row: &OpenRow) -> bool
    ensures { result ≡ (same_id row.now.id id && not (outlives sid row.now)) }
{
    row.id == id && !outlives(sid, row)
}

fn range_goes(opens: &[OpenRow], sid: Sid, range: &RangeRow) -> bool
    ensures { result ≡ list_any (λ row. same_id row.id range.now.id && not (outlives sid row)) (filter (is_of_file range.now.file) opens.now) }
{
    opens
        .iter()
        .filter(|row| view::is_of_file(range.file, row))
        .any(|row| goes_with(sid, range.id, row))
}

fn drop_plain_ranges(opens: &[OpenRow], ranges: &mut Vec<RangeRow>, sid: Sid)
    ensures items { ranges.new.items ≡ filter (λ range. not (list_any (λ row. same_id row.id range.id && not (outlives sid row)) (filter (is_of_file range.file) opens.now))) ranges.old.items }
    ensures len { vec_len ranges.new ≤ vec_len ranges.old }
    ensures room { vec_capacity ranges.new ≡ vec_capacity ranges.old }
{
    ranges.retain(|range| !range_goes(opens, sid, range));
}

fn drop_all_holds(holds: &mut Vec<HoldRow>, sid: Sid)
    ensures items { holds.new.items ≡ filter (λ hold. not (same_sid hold.owner sid)) holds.old.items }
    ensures len { vec_len holds.new ≤ vec_len holds.old }
    ensures room { vec_capacity holds.new ≡ vec_capacity holds.old }
{
    holds.retain(|hold| hold.owner != sid);
}

fn drop_all_waiters(waiters: &mut Vec<WaiterRow>, sid: Sid)
    ensures items { waiters.new.items ≡ filter (λ waiter. not (same_sid waiter.sid sid)) waiters.old.items }
    ensures len { vec_len waiters.new ≤ vec_len waiters.old }
    ensures room { vec_capacity waiters.new ≡ vec_capacity waiters.old }
{
    waiters.retain(|waiter| waiter.sid != sid);
}

fn drop_all_letters(letters: &mut Vec<Post>, sid: Sid)
    ensures items { letters.new.items ≡ filter (λ post. not (is_to sid post)) letters.old.items }
    ensures len { vec_len letters.new ≤ vec_len letters.old }
    ensures room { vec_capacity letters.new ≡ vec_capacity letters.old }
{
    letters.retain(|post| !view::is_to(sid, post));
}

fn end_sessions(workers: &mut Vec<WorkerRow>, sid: Sid)
    ensures items { workers.new.items ≡ map (end_session sid) workers.old.items }
{
    for worker in workers.iter_mut() {
        *worker = end_session(sid, *worker);
    }
}

fn begin_sessions(workers: &mut Vec<WorkerRow>, sid: Sid, moment: Moment)
    requires { sid.session + 1 < 2 ^ 32 }
    ensures items { workers.new.items ≡ map (begin_session sid moment) workers.old.items }
{
    for worker in workers.iter_mut() {
        *worker = begin_session(sid, moment, *worker);
    }
}

// ---- one change of the table

impl Lists {
    fn drop_open(&mut self, file: u32, id: OpenId)
        ensures table { table_of self.new ≡ perform (Change.DropOpen file id) (table_of self.old) }
        ensures room { KeepsRoom self.old self.new }
    {
        drop_open(&mut self.opens, file, id);
        drop_ranges(&mut self.ranges, file, id);
    }

    /// The waiters alone change, and no list takes room.
    pub(crate) fn drop_wait(&mut self, sid: Sid, call: u32)
        ensures table { table_of self.new ≡ perform (Change.DropWaiter sid call) (table_of self.old) }
        ensures room { (more : ℕ) → HasRoom self.old more → HasRoom self.new more }
    {
        drop_waiter(&mut self.waiters, sid, call);
    }

    pub(crate) fn send(&mut self, post: Post)
        requires room { vec_len self.old.letters < vec_capacity self.old.letters }
        ensures table { table_of self.new ≡ perform (Change.Send post) (table_of self.old) }
        ensures len { vec_len self.new.letters ≡ vec_len self.old.letters + 1 }
        ensures room { vec_capacity self.new.letters ≡ vec_capacity self.old.letters }
    {
        self.letters.push_reserved(post);
    }

    fn has_handle(&self, owner: Sid, handle: u32) -> bool
        ensures { result ≡ list_any (is_of_handle owner handle) self.now.opens.items }
    {
        self.opens
            .as_slice()
            .iter()
            .any(|row| view::is_of_handle(owner, handle, row))
    }

    fn take_over(&mut self, file: u32, id: OpenId, owner: Sid, handle: u32)
        ensures table { table_of self.new ≡ perform (Change.TakeOver file id owner handle) (table_of self.old) }
        ensures room { KeepsRoom self.old self.new }
    {
        if !self.has_handle(owner, handle) {
            give_owners(&mut self.opens, file, id, owner, handle);
        }
    }

    fn end_session(&mut self, sid: Sid, moment: Moment)
        requires room { HasRoom self.old 1 }
        ensures table { table_of self.new ≡ perform (Change.EndSession sid moment) (table_of self.old) }
        ensures room { KeepsRoom self.old self.new }
    {
        drop_plain_ranges(self.opens.as_slice(), &mut self.ranges, sid);
        drop_plain_opens(&mut self.opens, sid);
        drop_all_holds(&mut self.holds, sid);
        drop_all_waiters(&mut self.waiters, sid);
        drop_all_letters(&mut self.letters, sid);
        end_sessions(&mut self.workers, sid);
        self.ended.push_reserved(EndedRow { sid, moment });
    }

    fn perform_on_files(&mut self, change: Change)
        requires here { IsTrue (is_of_files change) }
        requires room { HasRoom self.old 1 }
        ensures table { table_of self.new ≡ perform change (table_of self.old) }
        ensures room { KeepsRoom self.old self.new }
    {
        match change {
            Change::AddOpen(row) => self.opens.push_reserved(row),
            Change::DropOpen { file, id } => self.drop_open(file, id),
            Change::TakeOver {
                file,
                id,
                owner,
                handle,
            } => self.take_over(file, id, owner, handle),
            Change::AddLease(lease) => self.leases.push_reserved(lease),
            Change::SetLease {
                file,
                name,
                held,
                breaking,
            } => set_leases(&mut self.leases, file, name, held, breaking),
            Change::Acknowledge { file, name, state } => {
                set_leases(&mut self.leases, file, name, state, None)
            }
            Change::AddRange(range) => self.ranges.push_reserved(range),
            Change::DropRange(range) => drop_range(&mut self.ranges, &range),
            Change::AddPending { file } => add_pending(&mut self.pending, file),
            Change::DropPending { file } => drop_pending(&mut self.pending, file),
            _ => unreachable!(),
        }
    }

    fn perform_elsewhere(&mut self, change: Change)
        requires here { IsTrue (is_elsewhere change) }
        requires room { HasRoom self.old 1 }
        ensures table { table_of self.new ≡ perform change (table_of self.old) }
        ensures room { KeepsRoom self.old self.new }
    {
        match change {
            Change::AddHold(hold) => self.holds.push_reserved(hold),
            Change::SetHold { key, owner, mode } => set_holds(&mut self.holds, key, owner, mode),
            Change::DropHold { key, owner } => drop_holds(&mut self.holds, key, owner),
            Change::AddWaiter(waiter) => self.waiters.push_reserved(waiter),
            Change::DropWaiter { sid, call } => drop_waiter(&mut self.waiters, sid, call),
            Change::Send(post) => self.letters.push_reserved(post),
            Change::TakeLetter { to } => drop_letter(&mut self.letters, to),
            Change::EndSession { sid, moment } => self.end_session(sid, moment),
            Change::NextSession { sid, moment } => begin_sessions(&mut self.workers, sid, moment),
            _ => unreachable!(),
        }
    }

    /// Makes one change. To settle, it settles the files of the scope.
    pub(crate) fn perform(&mut self, change: Change, scope: Scope)
        requires made { IsTrue (is_made change) }
        requires room { HasRoom self.old 1 }
        requires enough { IsEnough scope change (table_of self.old) }
        ensures table { table_of self.new ≡ perform change (table_of self.old) }
        ensures room { KeepsRoom self.old self.new }
    {
        match change {
            Change::Settle => self.settle(scope),
            Change::AddOpen(_)
            | Change::DropOpen { .. }
            | Change::TakeOver { .. }
            | Change::AddLease(_)
            | Change::SetLease { .. }
            | Change::Acknowledge { .. }
            | Change::AddRange(_)
            | Change::DropRange(_)
            | Change::AddPending { .. }
            | Change::DropPending { .. } => self.perform_on_files(change),
            _ => self.perform_elsewhere(change),
        }
    }
}
