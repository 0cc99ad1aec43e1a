//! Laws of the definitions. These functions do nothing: their clauses are the laws.
ghost use Rattle.std.specs.Prelude.{◌≡◌, ℕ, List, Ok};
ghost use Rattle.worker_script.specs.declared.script.Script.{Script};
ghost use Rattle.worker_script.specs.Reading.{script};
ghost use Rattle.worker_script.specs.Script.{IsScript};
ghost use Rattle.worker_script.specs.Spelling.{script_text};

/// The scripts that keep the limits and the rules are those that some text spells: each is read back from the text that is written for it.
pub fn scripts_are_read_back()
    ensures all { (s : Script) → IsScript s → script (script_text s) ≡ Ok s }
    ensures only { (bytes : List ℕ) (s : Script) → script bytes ≡ Ok s → IsScript s }
{}
