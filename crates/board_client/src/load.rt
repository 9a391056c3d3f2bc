//! The design and the file of lines are read.
ghost use Rattle.std.specs.Prelude.{◌∷◌, [], IfOk, OnOk, IfErr, IfSome};
ghost use Rattle.whole_files.specs.Outside.{OnlyRead, ReadStop};
ghost use Rattle.dsn_reader.specs.Design.{IsDesign};
ghost use Rattle.board_files.specs.Inputs.{HasDesign};
ghost use Rattle.board_files.specs.Loads.{DesignCause};
ghost use Rattle.board_client.specs.Loads.{PlanStop, HasText, HasInputs, LoadStop};

use board_rules::Design;
use dsn_reader::{ReadWhy, read_design};
use layout_io::{Bytes, Files};
use row_lists::TEXT_LIMIT_BYTES;
use std::alloc::Global;
use whole_files::{Stop, read_file};

/// The design and the text of the lines.
#[derive(Debug, Drop)]
pub(crate) struct Loaded {
    pub(crate) design: Design,
    pub(crate) text: Bytes,
}

// The design that bytes state.
fn plan_of(alloc: Global, bytes: &Bytes) -> Result<Design, Stop>
    ensures ok { IfOk result (IsDesign bytes.now) }
    ensures cause { IfErr result (DesignCause bytes.now) }
{
    match read_design(alloc, bytes.as_slice()) {
        Ok(design) => Ok(design),
        Err(ReadWhy::Fault(fault)) => Err(Stop::Design(fault)),
        Err(ReadWhy::Memory) => Err(Stop::Memory),
    }
}

// The design of the file under the name, which no pair of items is tested for.
#[tactic(auto, using(board_files::proofs::Loads::found_design, crate::proofs::Loads::plan_stop, crate::proofs::Loads::plan_unread))]
fn load_plan<F: Files>(alloc: Global, files: &mut F, name: &str) -> Result<Design, Stop>
    ensures ok { IfOk result (λ design. IfSome (F.told files.old).disk (HasDesign name.now design)) }
    ensures only { OnOk result (OnlyRead (name.now ∷ []) (F.told files.old) (F.told files.new)) }
    ensures err { IfErr result (PlanStop name.now (F.told files.old) (F.told files.new)) }
{
    let bytes = read_file(alloc, files, name, TEXT_LIMIT_BYTES)?;
    plan_of(alloc, &bytes)
}

// The text of the file under the name.
#[tactic(auto, using(crate::proofs::Loads::found_text))]
fn load_text<F: Files>(alloc: Global, files: &mut F, name: &str) -> Result<Bytes, Stop>
    ensures ok { IfOk result (λ text. IfSome (F.told files.old).disk (HasText name.now text)) }
    ensures only { OnOk result (OnlyRead (name.now ∷ []) (F.told files.old) (F.told files.new)) }
    ensures err { IfErr result (ReadStop (name.now ∷ []) (F.told files.old) (F.told files.new)) }
{
    let text = read_file(alloc, files, name, usize::MAX)?;
    let _fits = text.len();
    Ok(text)
}

/// Reads the design and the text of the lines.
#[tactic(auto, using(crate::proofs::Loads::both_inputs, crate::proofs::Loads::both_read, crate::proofs::Loads::text_behind, crate::proofs::Loads::design_first))]
pub(crate) fn load<F: Files>(
    alloc: Global,
    files: &mut F,
    design: &str,
    lines: &str,
) -> Result<Loaded, Stop>
    ensures inputs { IfOk result (λ l. IfSome (F.told files.old).disk (HasInputs design.now l.design lines.now l.text)) }
    ensures only { OnOk result (OnlyRead (design.now ∷ lines.now ∷ []) (F.told files.old) (F.told files.new)) }
    ensures err { IfErr result (LoadStop design.now lines.now (F.told files.old) (F.told files.new)) }
{
    let design = load_plan(alloc, files, design)?;
    let text = load_text(alloc, files, lines)?;
    Ok(Loaded { design, text })
}
