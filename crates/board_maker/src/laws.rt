//! What every made script is.
ghost use Rattle.std.specs.Prelude.{◌≤◌, ℕ, length};
ghost use Rattle.std.specs.List.{AllByRecursion};
ghost use Rattle.row_lists.specs.Limits.{text_limit_bytes};
ghost use Rattle.session_wire.specs.Steps.{IsStep};
ghost use Rattle.board_maker.specs.Scripts.{made_net_limit, made_steps, script_text};

/// Each line of a made script asks for a change whose counts and numbers are in range.
pub fn each_made_step_is_formed()
    ensures { (nets : ℕ) (number : ℕ) → nets ≤ made_net_limit → AllByRecursion IsStep (made_steps nets number) }
{}

/// A made script is no longer than a script may be.
pub fn a_made_script_is_short()
    ensures { (nets : ℕ) (number : ℕ) → nets ≤ made_net_limit → length (script_text nets number) ≤ text_limit_bytes }
{}
