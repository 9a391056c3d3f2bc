//! Laws of what a script and a run are.
ghost use Rattle.std.specs.Prelude.{◌≡◌, ℕ, List};
ghost use Rattle.board_items.specs.declared.history.Call.{Call};
ghost use Rattle.board_rules.specs.declared.design.Design.{Design};
ghost use Rattle.session_wire.specs.declared.steps.ScriptStep.{ScriptStep};
ghost use Rattle.script_replay.specs.Scripts.{IsScript, IsBad, Event};
ghost use Rattle.script_replay.specs.Replays.{Serves};
ghost use Rattle.script_replay.specs.declared.master.Answered.{Answered};

/// A text is one script at most.
pub fn one_script()
    ensures { (text : List ℕ) (a : List ScriptStep) (b : List ScriptStep) → IsScript text a → IsScript text b → a ≡ b }
{}

/// Events have one run at most, from any history on.
pub fn one_run()
    ensures { (d : Design) (old : List Call) (events : List Event) (a : List Answered) (b : List Answered) (m : List Call) (n : List Call) → Serves d old events a m → Serves d old events b n → (a ≡ b) × (m ≡ n) }
{}

/// A script has no bad line.
pub fn a_script_is_not_bad()
    ensures { (text : List ℕ) (steps : List ScriptStep) (k : ℕ) → IsScript text steps → IsBad text k → ⊥ }
{}

/// A text that is no script has one bad line at most.
pub fn one_bad_line()
    ensures { (text : List ℕ) (j : ℕ) (k : ℕ) → IsBad text j → IsBad text k → j ≡ k }
{}

/// No text is neither a script nor one with a bad line.
pub fn a_text_is_a_script_or_bad()
    ensures { (text : List ℕ) → ((steps : List ScriptStep) → IsScript text steps → ⊥) → ((k : ℕ) → IsBad text k → ⊥) → ⊥ }
{}
