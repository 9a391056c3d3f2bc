//! The design and the script are read.
ghost use Rattle.std.specs.Prelude.{◌∷◌, [], List, ℕ, IfOk, OnOk, IfErr, IfSome};
ghost use Rattle.whole_files.specs.Outside.{OnlyRead};
ghost use Rattle.script_replay.specs.Scripts.{IsScript};
ghost use Rattle.board_files.specs.Inputs.{HasClean};
ghost use Rattle.layout_server.specs.Inputs.{HasSteps};
ghost use Rattle.layout_server.specs.Loads.{ScriptCause, ScriptStop, LoadStop, IsLoaded};

use board_files::load_clean;
use board_rules::Design;
use layout_io::{Bytes, Files};
use row_lists::TEXT_LIMIT_BYTES;
use script_replay::{ScriptFault, read_script};
use session_wire::ScriptSteps;
use std::alloc::Global;
use whole_files::{Stop, read_file};

/// The design and the script's steps.
#[derive(Debug, Drop)]
pub struct Loaded {
    pub design: Design,
    pub steps: ScriptSteps,
}

// The steps that bytes spell.
fn steps_of(alloc: Global, bytes: &Bytes) -> Result<ScriptSteps, Stop>
    ensures ok { IfOk result (IsScript bytes.now) }
    ensures cause { IfErr result (ScriptCause bytes.now) }
{
    match read_script(alloc, bytes.as_slice()) {
        Ok(steps) => Ok(steps),
        Err(ScriptFault::Line(line)) => Err(Stop::Script(line)),
        Err(ScriptFault::Memory) => Err(Stop::Memory),
    }
}

// The steps of the script under the name.
#[tactic(auto, using(crate::proofs::Loads::found_steps, crate::proofs::Loads::script_stop, crate::proofs::Loads::script_unread))]
fn load_script<F: Files>(alloc: Global, files: &mut F, name: &str) -> Result<ScriptSteps, Stop>
    ensures ok { IfOk result (λ steps. IfSome (F.told files.old).disk (HasSteps name.now steps)) }
    ensures script { IfOk result (λ steps. (text : List ℕ) × IsScript text steps) }
    ensures only { OnOk result (OnlyRead (name.now ∷ []) (F.told files.old) (F.told files.new)) }
    ensures err { IfErr result (ScriptStop name.now (F.told files.old) (F.told files.new)) }
{
    let bytes = read_file(alloc, files, name, TEXT_LIMIT_BYTES)?;
    steps_of(alloc, &bytes)
}

/// Reads the design and the script.
#[tactic(auto, using(crate::proofs::Loads::both_inputs, crate::proofs::Loads::both_read, crate::proofs::Loads::script_behind, crate::proofs::Loads::design_first))]
pub fn load<F: Files>(
    alloc: Global,
    files: &mut F,
    design: &str,
    script: &str,
) -> Result<Loaded, Stop>
    ensures inputs { IfOk result (λ l. IfSome (F.told files.old).disk (λ disk. HasClean design.now l.design disk × HasSteps script.now l.steps disk)) }
    ensures loaded { IfOk result IsLoaded }
    ensures only { OnOk result (OnlyRead (design.now ∷ script.now ∷ []) (F.told files.old) (F.told files.new)) }
    ensures err { IfErr result (LoadStop design.now script.now (F.told files.old) (F.told files.new)) }
{
    let design = load_clean(alloc, files, design)?;
    let steps = load_script(alloc, files, script)?;
    Ok(Loaded { design, steps })
}
