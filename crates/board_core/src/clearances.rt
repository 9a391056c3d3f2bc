//! Changes of a class's clearance.
ghost use Rattle.std.specs.Prelude.{◌≡◌, ◌+◌, ◌<◌, ◌≤◌, length};
ghost use Rattle.row_lists.specs.Limits.{width_limit_nm};
ghost use Rattle.board_rules.specs.Rules.{with_rule};
ghost use Rattle.board_core.specs.Boards.{IsBoardOf};
ghost use Rattle.board_core.specs.Clearances.{IsUncleanReason};
ghost use Rattle.board_core.specs.Costs.{pairs_of_rule};

use crate::board::Board;
use crate::pairs::least_pair;
use board_items::Why;
use board_rules::{Design, Rules, RulesView};
use seg_geometry::Steps;
use std::sync::ledger::Ledger;

/// Sets the clearance of a class in nm, where the class is there.
pub fn change(rules: &mut Rules, class: u32, clearance: u32)
    requires { clearance ≤ width_limit_nm }
    ensures { rules.new ≡ with_rule class clearance rules.old }
{
    if !rules.has(class) {
        return;
    }
    rules.set(class, clearance);
}

/// What a change of the clearance of a class that is there is answered, by testing each two live items.
pub fn unclean_why<L: Ledger>(
    design: &Design,
    board: &Board,
    class: u32,
    clearance: u32,
    steps: &mut Steps<L>,
) -> Option<Why>
    requires board { IsBoardOf design.now.parts board.now }
    requires there { class < length design.now.parts.classes }
    requires fits { clearance ≤ width_limit_nm }
    ensures reason { IsUncleanReason design.now.parts (with_rule class clearance board.now.rules) board.now.live result }
    ensures cost { steps.new ≤ steps.old + pairs_of_rule design.now.parts board.now result }
{
    let rules = RulesView {
        rules: board.rules(),
        change: Some((class, clearance)),
    };
    let (a, b) = least_pair(design, rules, board.live_items(), steps)?;
    Some(Why::Unclean { a, b })
}
