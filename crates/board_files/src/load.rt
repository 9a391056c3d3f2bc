//! The design of a file is read, and its loaded items are tested.
ghost use Rattle.std.specs.Prelude.{◌∷◌, [], IfOk, OnOk, IfErr, IfSome};
ghost use Rattle.dsn_reader.specs.Design.{IsDesign};
ghost use Rattle.whole_files.specs.Outside.{OnlyRead};
ghost use Rattle.board_files.specs.Inputs.{HasDesign, HasClean, IsClean};
ghost use Rattle.board_files.specs.Loads.{DesignCause, CleanCause, DesignStop};

use board_rules::Design;
use check_core::first_pair;
use dsn_reader::{ReadWhy, read_design};
use grid_index::Grid;
use layout_io::{Bytes, Files};
use row_lists::TEXT_LIMIT_BYTES;
use std::alloc::Global;
use whole_files::{Stop, read_file};

// The design that bytes state.
fn design_of(alloc: Global, bytes: &Bytes) -> Result<Design, Stop>
    ensures ok { IfOk result (IsDesign bytes.now) }
    ensures cause { IfErr result (DesignCause bytes.now) }
{
    match read_design(alloc, bytes.as_slice()) {
        Ok(design) => Ok(design),
        Err(ReadWhy::Fault(fault)) => Err(Stop::Design(fault)),
        Err(ReadWhy::Memory) => Err(Stop::Memory),
    }
}

/// The design of the file under the name.
#[tactic(auto, using(crate::proofs::Loads::found_design, crate::proofs::Loads::design_stop, crate::proofs::Loads::design_unread))]
pub fn load_design<F: Files>(alloc: Global, files: &mut F, name: &str) -> Result<Design, Stop>
    ensures ok { IfOk result (λ design. IfSome (F.told files.old).disk (HasDesign name.now design)) }
    ensures only { OnOk result (OnlyRead (name.now ∷ []) (F.told files.old) (F.told files.new)) }
    ensures err { IfErr result (DesignStop name.now (F.told files.old) (F.told files.new)) }
{
    let bytes = read_file(alloc, files, name, TEXT_LIMIT_BYTES)?;
    design_of(alloc, &bytes)
}

// Stops where two loaded items are too near, or where there is no memory for the index by which they are found.
fn test_clean(alloc: Global, design: &Design) -> Result<(), Stop>
    ensures ok { OnOk result (IsClean design.now) }
    ensures cause { IfErr result (CleanCause design.now) }
{
    let Ok(grid) = Grid::new(alloc) else {
        return Err(Stop::Memory);
    };
    match first_pair(design, grid) {
        Err(_) => Err(Stop::Memory),
        Ok(None) => Ok(()),
        Ok(Some((a, b))) => Err(Stop::Unclean { a, b }),
    }
}

/// The design of the file under the name, where no two of its loaded items are too near.
#[tactic(auto, using(crate::proofs::Loads::clean_found, crate::proofs::Loads::unclean_stop))]
pub fn load_clean<F: Files>(alloc: Global, files: &mut F, name: &str) -> Result<Design, Stop>
    ensures ok { IfOk result (λ design. IfSome (F.told files.old).disk (HasClean name.now design)) }
    ensures clean { IfOk result IsClean }
    ensures only { OnOk result (OnlyRead (name.now ∷ []) (F.told files.old) (F.told files.new)) }
    ensures err { IfErr result (DesignStop name.now (F.told files.old) (F.told files.new)) }
{
    let design = load_design(alloc, files, name)?;
    test_clean(alloc, &design)?;
    Ok(design)
}
