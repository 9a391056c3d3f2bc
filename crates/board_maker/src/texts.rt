//! Both texts.
ghost use Rattle.std.specs.Prelude.{◌≡◌, ◌<◌, ◌≤◌, IfOk};
ghost use Rattle.board_maker.specs.Designs.{design_text};
ghost use Rattle.board_maker.specs.Scripts.{made_net_limit, script_text};

use crate::design::made_design;
use crate::script::made_script;
use layout_io::Bytes;
use std::alloc::{AllocError, Global};

/// The nets for which something is made, at most.
pub const MADE_NET_LIMIT: u32 = 2_000;

/// A design with so many nets, 1 to 2,000, and a script of four lines for each, whose places, kinds and layers are drawn
/// from a number. Its one error is want of memory.
pub fn make(alloc: Global, nets: u32, number: u32) -> Result<(Bytes, Bytes), AllocError>
    requires some { 0 < nets }
    requires few { nets ≤ made_net_limit }
    ensures design { IfOk result (λ made. made.0 ≡ design_text nets) }
    ensures script { IfOk result (λ made. made.1 ≡ script_text nets number) }
{
    let design = made_design(alloc, nets)?;
    let script = made_script(alloc, nets, number)?;
    Ok((design, script))
}
