//! Laws of the definitions. These functions do nothing: their clauses are the laws.
ghost use Rattle.std.specs.Prelude.{◌≡◌, ℕ, List, Some, IfSome};
ghost use Rattle.sid_core.specs.declared.call.Mode.{Mode};
ghost use Rattle.sid_core.specs.declared.words.CallWord.{CallWord};
ghost use Rattle.sid_core.specs.Values.{IsState, IsShare};
ghost use Rattle.sid_core.specs.Words.{word_text, read_word, state_text, lease_state, read_state, share_text, share_bits, read_share, lock_text, read_lock_mode, glock_text, read_glock_mode};

/// Whatever is written as a word is read back.
pub fn words_are_read_back()
    ensures calls { (word : CallWord) → read_word (word_text word) ≡ Some word }
    ensures states { (bits : ℕ) → IsState bits → read_state (state_text bits) ≡ Some (lease_state bits) }
    ensures shares { (bits : ℕ) → IsShare bits → read_share (share_text bits) ≡ Some (share_bits bits) }
    ensures lock_modes { (mode : Mode) → read_lock_mode (lock_text mode) ≡ Some mode }
    ensures glock_modes { (mode : Mode) → read_glock_mode (glock_text mode) ≡ Some mode }
{}

/// A word has one spelling: a token that is read as it is what is written for it. What is read lies in its set.
pub fn words_have_one_spelling()
    ensures calls { (token : List ℕ) → IfSome (read_word token) (λ word. token ≡ word_text word) }
    ensures states { (token : List ℕ) → IfSome (read_state token) (λ state. (token ≡ state_text state.0) × IsState state.0) }
    ensures shares { (token : List ℕ) → IfSome (read_share token) (λ share. (token ≡ share_text share.0) × IsShare share.0) }
    ensures lock_modes { (token : List ℕ) → IfSome (read_lock_mode token) (λ mode. token ≡ lock_text mode) }
    ensures glock_modes { (token : List ℕ) → IfSome (read_glock_mode token) (λ mode. token ≡ glock_text mode) }
{}
