//! What holds of each text: it states one design, or it has one first fault.
ghost use Rattle.std.specs.Prelude.{◌≡◌, List, ℕ};
ghost use Rattle.board_rules.specs.declared.design.Design.{Design};
ghost use Rattle.dsn_lists.specs.declared.faults.DesignFault.{DesignFault};
ghost use Rattle.dsn_reader.specs.Design.{IsDesign, IsFirstFault, StatesOrFails};

/// A text states at most one design.
pub fn one_design()
    ensures { (text : List ℕ) (d : Design) (e : Design) → IsDesign text d → IsDesign text e → d ≡ e }
{}

/// A text has at most one first fault.
pub fn one_first_fault()
    ensures { (text : List ℕ) (d : DesignFault) (e : DesignFault) → IsFirstFault text d → IsFirstFault text e → d ≡ e }
{}

/// A text that states a design has no fault.
pub fn a_design_has_no_fault()
    ensures { (text : List ℕ) (d : Design) (e : DesignFault) → IsDesign text d → IsFirstFault text e → ⊥ }
{}

/// Each text states a design or has a first fault.
pub fn a_design_or_a_fault()
    ensures { (text : List ℕ) → StatesOrFails text }
{}
