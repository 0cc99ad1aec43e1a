//! Laws of the table's rules: each function does nothing, and its clause is the law.

ghost use Rattle.std.specs.Prelude.{◌≡◌, ◌==◌, ◌≤◌, ◌+◌, ℕ, Bool, true, false, Some, List, [], ◌∷◌, ◌++◌, map, nat_eq};
ghost use Rattle.std.specs.List.{IsDistinct};
ghost use Rattle.sid_core.specs.declared.call.Call.{Call};
ghost use Rattle.sid_core.specs.declared.reply.Reply.{Reply};
ghost use Rattle.sid_core.specs.declared.ids.LeaseName.{LeaseName};
ghost use Rattle.sid_core.specs.declared.ids.Moment.{Moment};
ghost use Rattle.sid_core.specs.declared.entry.Entry.{Entry};
ghost use Rattle.sid_core.specs.declared.entry.Event.{Event};
ghost use Rattle.sid_core.specs.declared.entry.Event.TheVariants.{Called, Died};
ghost use Rattle.sid_core.specs.declared.setup.Setup.{Setup};
ghost use Rattle.sid_core.specs.Setup.{IsDeclared};
ghost use Rattle.serial_table.specs.declared.decision.Decision.{Decision};
ghost use Rattle.serial_table.specs.declared.decision.Caller.{Caller};
ghost use Rattle.serial_table.specs.declared.table.Table.{Table};
ghost use Rattle.serial_table.specs.declared.change.Change.{Change};
ghost use Rattle.serial_table.specs.Local.{is_in, all_in, perform_in_file, perform_all_in_file, perform_all_beside};
ghost use Rattle.serial_table.specs.Share.{share_conflict};
ghost use Rattle.serial_table.specs.Decision.{conclude};
ghost use Rattle.serial_table.specs.Step.{caller_of, view_after};
ghost use Rattle.serial_table.specs.History.{start, after_event, after_entry, after_all, IsLegalEvent, IsLegalEntry, AreLegal, IsLegal};
ghost use Rattle.serial_table.specs.File.{FileView, file_view};
ghost use Rattle.serial_table.specs.Settle.{settle, settle_where, settle_file};
ghost use Rattle.serial_table.specs.View.{View, view, lives};
ghost use Rattle.serial_table.specs.Expire.{expire};
ghost use Rattle.serial_table.specs.Alive.{is_alive, SessionsUpTo};
ghost use Rattle.serial_table.specs.Change.{perform, perform_all, perform_by_key, perform_all_by_key};

/// Each change of the lists is the same change of what stands under each key.
pub fn changes_go_by_key()
    ensures one { (change : Change) (t : Table) → view (perform change t) ≡ perform_by_key change (view t) }
    ensures all { (changes : List Change) (t : Table) → view (perform_all changes t) ≡ perform_all_by_key changes (view t) }
{}

/// A change of one file is the same change of what that file shows.
pub fn changes_of_a_file_are_local()
    ensures one { (file : ℕ) (change : Change) (t : Table) → is_in (lives (view t)) file change ≡ true → file_view file (view (perform change t)) ≡ perform_in_file change (file_view file (view t)) }
    ensures all { (file : ℕ) (changes : List Change) (t : Table) → all_in (lives (view t)) file changes ≡ true → file_view file (view (perform_all changes t)) ≡ perform_all_in_file changes (file_view file (view t)) }
{}

/// To settle twice is to settle once, of a table and of what a file shows.
pub fn settled_stays_settled()
    ensures table { (t : Table) → settle (settle t) ≡ settle t }
    ensures file { (f : FileView) → settle_file (settle_file f) ≡ settle_file f }
{}

/// To let leases expire twice at one moment is to let them expire once.
pub fn expired_stays_expired()
    ensures { (names : List LeaseName) (now : Moment) (t : Table) → expire names now (expire names now t) ≡ expire names now t }
{}

/// Changes of one file take from another file that is settled no more than waiters, and it stays settled.
pub fn other_files_stay()
    ensures shown { (f g : ℕ) (changes : List Change) (t : Table) → (f == g) ≡ false → all_in (lives (view t)) f changes ≡ true → settle_file (file_view g (view t)) ≡ file_view g (view t)
        → file_view g (view (perform_all changes t)) ≡ perform_all_beside changes (file_view g (view t)) }
    ensures settled { (f g : ℕ) (changes : List Change) (t : Table) → (f == g) ≡ false → all_in (lives (view t)) f changes ≡ true → settle_file (file_view g (view t)) ≡ file_view g (view t)
        → settle_file (file_view g (view (perform_all changes t))) ≡ file_view g (view (perform_all changes t)) }
{}

/// Where all other files are settled, it is enough to settle the files that pass a test. A table is settled exactly where each file is.
pub fn settling_is_local()
    ensures only_here { (here : ℕ → Bool) (t : Table) → ((file : ℕ) → here file ≡ false → settle_file (file_view file (view t)) ≡ file_view file (view t)) → settle t ≡ settle_where here t }
    ensures by_files { (t : Table) → ((file : ℕ) → settle_file (file_view file (view t)) ≡ file_view file (view t)) → settle t ≡ t }
    ensures each_file { (t : Table) → settle t ≡ t → (file : ℕ) → settle_file (file_view file (view t)) ≡ file_view file (view t) }
{}

/// What an event does to the table is what it does to what the table shows.
pub fn what_happens_shows()
    ensures { (setup : Setup) (t : Table) (by : ℕ) (event : Event) → view (after_event setup t by event) ≡ view_after setup (view t) by event }
{}

/// What a decision comes to leaves the table settled.
pub fn concluded_tables_are_settled()
    ensures { (decision : Decision) (t : Table) → settle (perform_all (conclude (view t) decision).changes t) ≡ perform_all (conclude (view t) decision).changes t }
{}

/// Tables that show the same show the same after each event, and what is legal at one is legal at the other. Answers and posts are functions of what a table shows.
pub fn alike_tables_step_alike()
    ensures shown { (setup : Setup) (t u : Table) (by : ℕ) (event : Event) → view t ≡ view u → view (after_event setup t by event) ≡ view (after_event setup u by event) }
    ensures legal { (setup : Setup) (t u : Table) (by : ℕ) (event : Event) → view t ≡ view u → IsLegalEvent setup t by event → IsLegalEvent setup u by event }
{}

/// The table after one entry more, and that a legal entry more is legal where it stands.
pub fn histories_go_on()
    ensures table { (setup : Setup) (t : Table) (history : List Entry) (entry : Entry) → after_all setup t (history ++ entry ∷ []) ≡ after_entry setup (after_all setup t history) entry }
    ensures legal { (setup : Setup) (t : Table) (history : List Entry) (entry : Entry) → AreLegal setup t history → IsLegalEntry setup (after_all setup t history) entry → AreLegal setup t (history ++ entry ∷ []) }
{}

/// That a history is legal has one proof: a legal call is an equation on its answer.
pub fn legality_has_one_proof()
    ensures { (setup : Setup) (history : List Entry) (a b : IsLegal setup history) → a ≡ b }
{}

/// Whether two opens conflict doesn't depend on which came first.
pub fn sharing_is_symmetric()
    ensures { (a s b t : ℕ) → share_conflict a s b t ≡ share_conflict b t a s }
{}

/// A declared worker that is alive can call, and can die.
pub fn the_living_call()
    ensures { (setup : Setup) (v : View) (worker number : ℕ) (moment : Moment) → is_alive setup v worker ≡ true
        → (caller : Caller) × (caller_of setup v worker number moment ≡ Some caller) }
{}

/// At the start each declared worker is alive. A call changes nobody's standing, and a death that of its own worker alone.
pub fn the_living_stay()
    ensures start { (setup : Setup) (worker : ℕ) → IsDeclared setup.workers worker → is_alive setup (view (start setup)) worker ≡ true }
    ensures call { (setup : Setup) (t : Table) (by number : ℕ) (moment : Moment) (call : Call) (reply : Reply) (worker : ℕ)
        → is_alive setup (view (after_event setup t by (Called number moment call reply))) worker ≡ is_alive setup (view t) worker }
    ensures death { (setup : Setup) (t : Table) (by dead : ℕ) (moment : Moment) (worker : ℕ) → IsDistinct nat_eq (map (λ w. w.pid) setup.workers) → (dead == worker) ≡ false
        → is_alive setup (view (after_event setup t by (Died dead moment))) worker ≡ is_alive setup (view t) worker }
{}

/// At the start each session has the number 1, and an event raises no number by more than one. No caller's session is above them.
pub fn sessions_rise_by_one()
    ensures start { (setup : Setup) → SessionsUpTo 1 (start setup) }
    ensures event { (setup : Setup) (t : Table) (by : ℕ) (event : Event) (n : ℕ) → SessionsUpTo n t → SessionsUpTo (n + 1) (after_event setup t by event) }
    ensures caller { (setup : Setup) (t : Table) (worker number : ℕ) (moment : Moment) (caller : Caller) (n : ℕ) → SessionsUpTo n t
        → caller_of setup (view t) worker number moment ≡ Some caller → caller.sid.session ≤ n }
{}
