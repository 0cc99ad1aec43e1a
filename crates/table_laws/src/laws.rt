//! Laws of entries and of what they leave alone: each function does nothing, and its clause is the law.

ghost use Rattle.std.specs.Prelude.{◌≡◌, ℕ, ◌≤◌, false, Bool, List, [], ◌∷◌, ◌++◌, Option, Some};
ghost use Rattle.sid_core.specs.declared.bits.Access.{Access};
ghost use Rattle.sid_core.specs.declared.bits.LeaseState.{LeaseState};
ghost use Rattle.sid_core.specs.declared.bits.Share.{Share};
ghost use Rattle.sid_core.specs.Setup.{IsSetup};
ghost use Rattle.sid_core.specs.declared.call.Call.{Call};
ghost use Rattle.sid_core.specs.declared.call.Call.TheVariants as call;
ghost use Rattle.sid_core.specs.declared.call.LeaseAsk.{LeaseAsk};
ghost use Rattle.sid_core.specs.declared.call.Mode.{Mode};
ghost use Rattle.sid_core.specs.declared.call.Span.{Span};
ghost use Rattle.sid_core.specs.declared.call.Tables.{Tables};
ghost use Rattle.sid_core.specs.declared.entry.Entry.{Entry};
ghost use Rattle.sid_core.specs.declared.entry.Event.TheVariants.{Died, Tidied};
ghost use Rattle.sid_core.specs.declared.ids.Moment.{Moment};
ghost use Rattle.sid_core.specs.declared.reply.Reply.{Reply};
ghost use Rattle.sid_core.specs.declared.setup.Setup.{Setup};
ghost use Rattle.serial_table.specs.History.{after, IsLegal};
ghost use Rattle.serial_table.specs.Step.{caller_of};
ghost use Rattle.serial_table.specs.View.{View, view};
ghost use Rattle.serial_table.specs.declared.decision.Caller.{Caller};
ghost use Rattle.stored_table.specs.Places.{Chains, Place, HasChains, among, value_at};
ghost use Rattle.stored_table.specs.Move.{move, places_written};
ghost use Rattle.stored_table.specs.Histories.{moved_by};
ghost use Rattle.table_laws.specs.ByFootprint.{IsLegalByFootprint, IsWrittenByFootprint};
ghost use Rattle.table_laws.specs.Reached.{ReachesUnchanged, SamePartsCount};
ghost use Rattle.table_laws.specs.Standing.{HistoryStands, LegalKeepsStanding, LegalKeepsStandingIfNew, LegalKeepsStandingIfUnnamed, NameNothingNew, NameTheirFiles, call_entry};

/// What counts of a record goes by the records that it reaches: where these are the same in two databases, and the record itself is, the
/// same parts of it count. So an entry that doesn't write a record, nor changes one that it reaches, leaves what counts of it, whatever the
/// table shows afterwards.
pub fn what_counts_elsewhere_stays()
    ensures alike { (setup : Setup) (n : ℕ) (k j : Chains) (p : Place) → value_at n k p ≡ value_at n j p → ReachesUnchanged setup n k j p
        → SamePartsCount setup n k j p }
    ensures moved { (setup : Setup) (n : ℕ) (k : Chains) (e : Entry) (v : View) (p : Place) → HasChains n k → among p (places_written setup n k e) ≡ false
        → ReachesUnchanged setup n k (move setup n k e v) p → SamePartsCount setup n k (move setup n k e v) p }
{}

/// What is written stands for the table afterwards: `close`, `delete`, `unlock`, `read` and `write`.
pub fn calls_by_handle_keep_standing()
    ensures close { (setup : Setup) (n : ℕ) (before : List Entry) (by seq number : ℕ) (moment : Moment) (handle : ℕ) (reply : Reply)
        → LegalKeepsStanding setup n before (call_entry by seq number moment (call.Close handle) reply) }
    ensures delete { (setup : Setup) (n : ℕ) (before : List Entry) (by seq number : ℕ) (moment : Moment) (handle : ℕ) (on : Bool) (reply : Reply)
        → LegalKeepsStanding setup n before (call_entry by seq number moment (call.Delete handle on) reply) }
    ensures unlock { (setup : Setup) (n : ℕ) (before : List Entry) (by seq number : ℕ) (moment : Moment) (handle : ℕ) (span : Span) (reply : Reply)
        → LegalKeepsStanding setup n before (call_entry by seq number moment (call.Unlock handle span) reply) }
    ensures read { (setup : Setup) (n : ℕ) (before : List Entry) (by seq number : ℕ) (moment : Moment) (handle : ℕ) (span : Span) (reply : Reply)
        → LegalKeepsStanding setup n before (call_entry by seq number moment (call.Read handle span) reply) }
    ensures write { (setup : Setup) (n : ℕ) (before : List Entry) (by seq number : ℕ) (moment : Moment) (handle : ℕ) (span : Span) (reply : Reply)
        → LegalKeepsStanding setup n before (call_entry by seq number moment (call.Write handle span) reply) }
{}

/// What is written stands for the table afterwards: `ack`.
pub fn acknowledgements_keep_standing()
    ensures { (setup : Setup) (n : ℕ) (before : List Entry) (by seq number : ℕ) (moment : Moment) (key : ℕ) (state : LeaseState) (reply : Reply)
        → LegalKeepsStanding setup n before (call_entry by seq number moment (call.Ack key state) reply) }
{}

/// What is written stands for the table afterwards: `recv`, `gunlock`, `tidy` and `status`.
pub fn calls_of_no_file_keep_standing()
    ensures recv { (setup : Setup) (n : ℕ) (before : List Entry) (by seq number : ℕ) (moment : Moment) (reply : Reply)
        → LegalKeepsStanding setup n before (call_entry by seq number moment call.Recv reply) }
    ensures gunlock { (setup : Setup) (n : ℕ) (before : List Entry) (by seq number : ℕ) (moment : Moment) (key : ℕ) (reply : Reply)
        → LegalKeepsStanding setup n before (call_entry by seq number moment (call.GUnlock key) reply) }
    ensures tidy { (setup : Setup) (n : ℕ) (before : List Entry) (by seq number : ℕ) (moment : Moment) (reply : Reply)
        → LegalKeepsStanding setup n before (call_entry by seq number moment call.Tidy reply) }
    ensures status { (setup : Setup) (n : ℕ) (before : List Entry) (by seq number : ℕ) (moment : Moment) (tables : Tables) (reply : Reply)
        → LegalKeepsStanding setup n before (call_entry by seq number moment (call.Status tables) reply) }
{}

/// What is written stands for the table afterwards, where no register record watches the call yet: `glock` and `lock`, which may wait.
pub fn calls_that_wait_keep_standing()
    ensures glock { (setup : Setup) (n : ℕ) (before : List Entry) (by seq number : ℕ) (moment : Moment) (key : ℕ) (mode : Mode) (wait : Bool) (reply : Reply)
        → LegalKeepsStandingIfNew setup n before by seq number moment (call.GLock key mode wait) reply }
    ensures lock { (setup : Setup) (n : ℕ) (before : List Entry) (by seq number : ℕ) (moment : Moment) (handle : ℕ) (span : Span) (mode : Mode) (wait : Bool) (reply : Reply)
        → LegalKeepsStandingIfNew setup n before by seq number moment (call.Lock handle span mode wait) reply }
{}

/// What is written stands for the table afterwards, where no register record watches the call yet: `open`, which may wait. A lease of
/// another file may expire before it: the opens that then go there count no longer in that file's records, which stay as they are.
pub fn opens_keep_standing()
    ensures { (setup : Setup) (n : ℕ) (before : List Entry) (by seq number : ℕ) (moment : Moment) (file : ℕ) (access : Access) (share : Share) (lease : Option LeaseAsk) (durable : ℕ) (overwrite delete : Bool) (reply : Reply)
        → LegalKeepsStandingIfNew setup n before by seq number moment (call.OpenFile file access share lease durable overwrite delete) reply }
{}

/// What is written stands for the table afterwards: a tidied chain.
pub fn tidied_chains_keep_standing()
    ensures { (setup : Setup) (n : ℕ) (before : List Entry) (by seq chain : ℕ)
        → LegalKeepsStanding setup n before (record { by = by; seq = seq; what = Tidied chain }) }
{}

/// What is written stands for the table afterwards: a death.
pub fn deaths_keep_standing()
    ensures { (setup : Setup) (n : ℕ) (before : List Entry) (by seq worker : ℕ) (moment : Moment)
        → LegalKeepsStanding setup n before (record { by = by; seq = seq; what = Died worker moment }) }
{}

/// What is written stands for the table afterwards, where no record names the session that begins: `disconnect`.
pub fn disconnects_keep_standing()
    ensures { (setup : Setup) (n : ℕ) (before : List Entry) (by seq number : ℕ) (moment : Moment) (reply : Reply)
        → LegalKeepsStandingIfUnnamed setup n before by seq number moment call.Disconnect reply }
{}

/// What is written stands for the table afterwards: `scavenge`.
pub fn scavenges_keep_standing()
    ensures { (setup : Setup) (n : ℕ) (before : List Entry) (by seq number : ℕ) (moment : Moment) (reply : Reply)
        → LegalKeepsStanding setup n before (call_entry by seq number moment call.Scavenge reply) }
{}

/// What is written stands for the table afterwards: `reconnect`.
pub fn reconnects_keep_standing()
    ensures { (setup : Setup) (n : ℕ) (before : List Entry) (by seq number : ℕ) (moment : Moment) (worker made key : ℕ) (reply : Reply)
        → LegalKeepsStanding setup n before (call_entry by seq number moment (call.Reconnect worker made key) reply) }
{}

/// Behind a legal history that goes on with a call, the chains that the history makes name nothing that is yet to come: no register record
/// watches that call, and no record has a part of the session that follows its caller's. So `open`, `glock`, `lock` and `disconnect` need no
/// premise behind a history.
pub fn records_name_nothing_new()
    ensures { (setup : Setup) (n : ℕ) (before : List Entry) (by seq number : ℕ) (moment : Moment) (which : Call) (reply : Reply) → IsSetup setup → 1 ≤ n
        → IsLegal setup (before ++ call_entry by seq number moment which reply ∷ []) → (caller : Caller) → caller_of setup (view (after setup before)) by number moment ≡ Some caller
        → NameNothingNew setup n before caller }
{}

/// Behind a legal history each open record of the chains that the history makes of the first ones names its open's file: where an open has the
/// record's id, it is of the file that the record names.
pub fn open_records_name_the_files_of_their_opens()
    ensures { (setup : Setup) (n : ℕ) (history : List Entry) → IsSetup setup → 1 ≤ n → IsLegal setup history
        → NameTheirFiles n (moved_by setup n history) (view (after setup history)) }
{}

/// What a legal history makes of the first chains, with whatever number of chains per database, stands for the table after it.
pub fn histories_stand()
    ensures { (setup : Setup) (n : ℕ) (history : List Entry) → IsSetup setup → 1 ≤ n → IsLegal setup history → HistoryStands setup n history }
{}

/// What is legal goes by the footprint alone: where two databases stand for the tables behind legal histories and agree on the footprint of
/// a call by a handle, the same answer is legal at both.
pub fn calls_by_handle_go_by_the_footprint()
    ensures close { (setup : Setup) (n by seq number : ℕ) (moment : Moment) (handle : ℕ) (reply : Reply)
        → IsLegalByFootprint setup n (call_entry by seq number moment (call.Close handle) reply) }
    ensures delete { (setup : Setup) (n by seq number : ℕ) (moment : Moment) (handle : ℕ) (on : Bool) (reply : Reply)
        → IsLegalByFootprint setup n (call_entry by seq number moment (call.Delete handle on) reply) }
    ensures lock { (setup : Setup) (n by seq number : ℕ) (moment : Moment) (handle : ℕ) (span : Span) (mode : Mode) (wait : Bool) (reply : Reply)
        → IsLegalByFootprint setup n (call_entry by seq number moment (call.Lock handle span mode wait) reply) }
    ensures unlock { (setup : Setup) (n by seq number : ℕ) (moment : Moment) (handle : ℕ) (span : Span) (reply : Reply)
        → IsLegalByFootprint setup n (call_entry by seq number moment (call.Unlock handle span) reply) }
    ensures read { (setup : Setup) (n by seq number : ℕ) (moment : Moment) (handle : ℕ) (span : Span) (reply : Reply)
        → IsLegalByFootprint setup n (call_entry by seq number moment (call.Read handle span) reply) }
    ensures write { (setup : Setup) (n by seq number : ℕ) (moment : Moment) (handle : ℕ) (span : Span) (reply : Reply)
        → IsLegalByFootprint setup n (call_entry by seq number moment (call.Write handle span) reply) }
{}

/// What is legal goes by the footprint alone: the same of `ack`.
pub fn acknowledgements_go_by_the_footprint()
    ensures { (setup : Setup) (n by seq number : ℕ) (moment : Moment) (key : ℕ) (state : LeaseState) (reply : Reply)
        → IsLegalByFootprint setup n (call_entry by seq number moment (call.Ack key state) reply) }
{}

/// What is legal goes by the footprint alone: the same of `open`.
pub fn opens_go_by_the_footprint()
    ensures { (setup : Setup) (n by seq number : ℕ) (moment : Moment) (file : ℕ) (access : Access) (share : Share) (lease : Option LeaseAsk) (durable : ℕ) (overwrite delete : Bool) (reply : Reply)
        → IsLegalByFootprint setup n (call_entry by seq number moment (call.OpenFile file access share lease durable overwrite delete) reply) }
{}

/// What is legal goes by the footprint alone: the same of `reconnect`.
pub fn reconnects_go_by_the_footprint()
    ensures { (setup : Setup) (n by seq number : ℕ) (moment : Moment) (worker made key : ℕ) (reply : Reply)
        → IsLegalByFootprint setup n (call_entry by seq number moment (call.Reconnect worker made key) reply) }
{}

/// What is legal goes by the footprint alone: the same of `scavenge`.
pub fn scavenges_go_by_the_footprint()
    ensures { (setup : Setup) (n by seq number : ℕ) (moment : Moment) (reply : Reply)
        → IsLegalByFootprint setup n (call_entry by seq number moment call.Scavenge reply) }
{}

/// What is legal goes by the footprint alone: the same of `glock`, `gunlock`, `recv`, `disconnect`, `tidy` and `status`.
pub fn calls_of_no_file_go_by_the_footprint()
    ensures glock { (setup : Setup) (n by seq number : ℕ) (moment : Moment) (key : ℕ) (mode : Mode) (wait : Bool) (reply : Reply)
        → IsLegalByFootprint setup n (call_entry by seq number moment (call.GLock key mode wait) reply) }
    ensures gunlock { (setup : Setup) (n by seq number : ℕ) (moment : Moment) (key : ℕ) (reply : Reply)
        → IsLegalByFootprint setup n (call_entry by seq number moment (call.GUnlock key) reply) }
    ensures recv { (setup : Setup) (n by seq number : ℕ) (moment : Moment) (reply : Reply)
        → IsLegalByFootprint setup n (call_entry by seq number moment call.Recv reply) }
    ensures disconnect { (setup : Setup) (n by seq number : ℕ) (moment : Moment) (reply : Reply)
        → IsLegalByFootprint setup n (call_entry by seq number moment call.Disconnect reply) }
    ensures tidy { (setup : Setup) (n by seq number : ℕ) (moment : Moment) (reply : Reply)
        → IsLegalByFootprint setup n (call_entry by seq number moment call.Tidy reply) }
    ensures status { (setup : Setup) (n by seq number : ℕ) (moment : Moment) (tables : Tables) (reply : Reply)
        → IsLegalByFootprint setup n (call_entry by seq number moment (call.Status tables) reply) }
{}

/// What is legal goes by the footprint alone: the same of a death, and of a tidied chain, which always is legal.
pub fn deaths_go_by_the_footprint()
    ensures died { (setup : Setup) (n by seq worker : ℕ) (moment : Moment)
        → IsLegalByFootprint setup n (record { by = by; seq = seq; what = Died worker moment }) }
    ensures tidied { (setup : Setup) (n by seq chain : ℕ) → IsLegalByFootprint setup n (record { by = by; seq = seq; what = Tidied chain }) }
{}

/// What is written goes by the footprint alone: where what two legal histories make of the first chains agrees on the footprint of an entry
/// that is legal behind both, what the entry makes of both agrees on it too: of every call, of a death, and of a tidied chain.
pub fn entries_write_by_the_footprint()
    ensures { (setup : Setup) (n : ℕ) (e : Entry) → IsWrittenByFootprint setup n e }
{}
