//! Which words are read, and which are refused.

ghost use Rattle.std.specs.Prelude.{ℕ, List, [], ◌∷◌, ◌≡◌, ◌<◌, length, Some, None, codes};
ghost use Rattle.ob_word_forms.specs.Forms.{Choice, AreChoices, AreOfFormat, ArePlain, IsPlain, IsNoName, lanes_in, mirror_in, reads_in, writes_in, trace_in, turns_in, words_of};
ghost use Rattle.ob_words.specs.Reading.{asked_by, shares_asked, format_asked, run_asked, audit_asked, drill_asked};

/// Each form is read, as what it says: a command's name, its operands, and behind them any of its
/// options, in any order, each once. (At the call it may be refused for want of memory alone.)
pub fn forms_are_read()
    ensures format { (store keys n l z s r br bw e t : List ℕ) (options : List Choice)
        → ArePlain (store ∷ keys ∷ n ∷ l ∷ z ∷ s ∷ r ∷ br ∷ bw ∷ e ∷ t ∷ [])
        → AreChoices options → AreOfFormat options
        → asked_by (codes "format" ∷ store ∷ keys ∷ n ∷ l ∷ z ∷ s ∷ r ∷ br ∷ bw ∷ e ∷ t
        ∷ words_of options)
        ≡ Some (format_asked store keys (n ∷ l ∷ z ∷ s ∷ r ∷ br ∷ bw ∷ e ∷ t ∷ [])
        (trace_in options)) }
    ensures run { (store keys : List ℕ) (options : List Choice) → IsPlain store → IsPlain keys
        → AreChoices options → asked_by (codes "run" ∷ store ∷ keys ∷ words_of options)
        ≡ Some (run_asked store keys (lanes_in options) (turns_in options) (trace_in options)
        (mirror_in options) (shares_asked (reads_in options) (writes_in options))) }
    ensures audit { asked_by (codes "audit" ∷ []) ≡ Some audit_asked }
    ensures drill { (count : List ℕ) → IsPlain count
        → asked_by (codes "drill" ∷ count ∷ []) ≡ Some (drill_asked count) }
{}

/// Words that name no command, or that are fewer than a command's name and its operands, are
/// refused, whatever they are; so is a plain word behind `audit`, and a second one behind `drill`.
pub fn others_are_refused()
    ensures none { asked_by [] ≡ None }
    ensures name { (word : List ℕ) (rest : List (List ℕ)) → IsNoName word
        → asked_by (word ∷ rest) ≡ None }
    ensures format { (rest : List (List ℕ)) → length rest < 11
        → asked_by (codes "format" ∷ rest) ≡ None }
    ensures run { (rest : List (List ℕ)) → length rest < 2 → asked_by (codes "run" ∷ rest) ≡ None }
    ensures audit { (word : List ℕ) (rest : List (List ℕ)) → IsPlain word
        → asked_by (codes "audit" ∷ word ∷ rest) ≡ None }
    ensures no_count { asked_by (codes "drill" ∷ []) ≡ None }
    ensures drill { (count word : List ℕ) (rest : List (List ℕ)) → IsPlain count → IsPlain word
        → asked_by (codes "drill" ∷ count ∷ word ∷ rest) ≡ None }
{}
