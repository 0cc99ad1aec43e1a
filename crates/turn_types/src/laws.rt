//! What the law of a rule says of whole journals, and what calls in a row leave.
ghost use Rattle.std.specs.Prelude.{◌≡◌, ℕ, false, List, [], ◌∷◌, ◌++◌, length, fold, Option, IfSome};
ghost use lib.ListN.{get_elem?};
ghost use Rattle.sid_core.specs.declared.entry.Entry.{Entry};
ghost use Rattle.turn_types.specs.Shown.{Shown};
ghost use Rattle.turn_types.specs.Beside.{Beside, WhereTold, Leaves, Tells};
ghost use Rattle.turn_types.specs.Journal.{Chains, Legal, Agree, has, of_pass, IsUntouched};

use crate::replay::Replay;

/// Journals of a rule, from chains with which a table may start: what stands before a place of a legal one is legal; an
/// entry that is legal behind it makes it longer; the number of chains stays; so does a chain that none of some entries
/// names. An entry that is legal behind one legal journal, and follows the entries of its pass there and in another, is legal
/// behind the other where that leaves the chains which it names the same, and makes the same of these.
pub fn journals_of_a_rule<R: Replay>()
    ensures front { (rule : R) (k : Chains) (before behind : List Entry) → Legal (R.step rule) (R.legal rule) (R.follows rule) k (before ++ behind) →
        Legal (R.step rule) (R.legal rule) (R.follows rule) k before }
    ensures longer { (rule : R) (k : Chains) (journal : List Entry) (entry : Entry) → Legal (R.step rule) (R.legal rule) (R.follows rule) k journal →
        R.legal rule (fold (R.step rule) k journal) entry → R.follows rule (of_pass entry.by journal) entry →
        Legal (R.step rule) (R.legal rule) (R.follows rule) k (journal ++ entry ∷ []) }
    ensures as_many { (rule : R) (k : Chains) (journal : List Entry) → R.first rule k → Legal (R.step rule) (R.legal rule) (R.follows rule) k journal →
        length (fold (R.step rule) k journal) ≡ length k }
    ensures untouched { (rule : R) (k : Chains) (before behind : List Entry) (c : ℕ) → R.first rule k → Legal (R.step rule) (R.legal rule) (R.follows rule) k (before ++ behind) →
        IsUntouched (R.step rule) (R.names rule) c (fold (R.step rule) k before) behind →
        get_elem? (fold (R.step rule) k (before ++ behind)) c ≡ get_elem? (fold (R.step rule) k before) c }
    ensures moved { (rule : R) (k : Chains) (one other : List Entry) (entry : Entry) → R.first rule k →
        Legal (R.step rule) (R.legal rule) (R.follows rule) k one → Legal (R.step rule) (R.legal rule) (R.follows rule) k other →
        R.follows rule (of_pass entry.by one) entry → R.follows rule (of_pass entry.by other) entry →
        R.legal rule (fold (R.step rule) k one) entry →
        Agree (R.names rule (fold (R.step rule) k one) entry) (fold (R.step rule) k one) (fold (R.step rule) k other) →
        (R.legal rule (fold (R.step rule) k other) entry)
        × Agree (R.names rule (fold (R.step rule) k one) entry) (fold (R.step rule) k (one ++ entry ∷ [])) (fold (R.step rule) k (other ++ entry ∷ [])) }
{}

/// What no call leaves of other passes and of the journal, and what a call and then another of the same pass leave, which
/// is what the two leave together.
pub fn calls_in_a_row<R: Replay>()
    ensures none { (shown : Shown R) (b : Option (Beside R)) → IfSome b (Tells shown) → WhereTold (Leaves shown shown) b b }
    ensures two { (before between after : Shown R) (b d e : Option (Beside R)) → between.number ≡ before.number →
        WhereTold (Leaves before between) b d → WhereTold (Leaves between after) d e → WhereTold (Leaves before after) b e }
{}
