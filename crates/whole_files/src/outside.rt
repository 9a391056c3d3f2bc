//! Whole files and texts, by calls that take a part.
ghost use Rattle.std.specs.Prelude.{◌≡◌, ◌<◌, ◌++◌, ◌∷◌, [], Bool, List, ℕ, IfOk, OnOk, OnErr, IfErr, length, take, true, false};
ghost use Rattle.layout_io.specs.Causes.{HasCause};
ghost use Rattle.layout_io.specs.Told.{Disk, Told};
ghost use Rattle.whole_files.specs.Outside.{SameFiles, ReadRest, ReadTo, IsFound, OnlyRead, ReadStop, WroteFile, OnlyWrites, WriteStop};
ghost use Rattle.whole_files.specs.Puts.{IsPut, PutStop};

use crate::stop::Stop;
use layout_io::{Bytes, Files, IoFault, Row, Sink};
use std::alloc::Global;

// Reads on, and tells whether the file has ended.
fn read_some<F: Files>(files: &mut F, file: u32, bytes: &mut Bytes) -> Result<bool, IoFault>
    requires { F.reads files.old file }
    ensures more { IfOk result (λ ended. (piece : List ℕ) × (bytes.new ≡ bytes.old ++ piece) × Told (F.told files.old).disk (F.told files.new).disk (ReadRest file piece)) }
    ensures end { IfOk result (λ ended. ended ≡ true → Told (F.told files.old).disk (F.told files.new).disk (λ d e. e.left file ≡ [])) }
    ensures grows { IfOk result (λ ended. ended ≡ false → length bytes.old < length bytes.new) }
    ensures kept { Told (F.told files.old).disk (F.told files.new).disk SameFiles }
    ensures reads { F.reads files.new file }
    ensures asked { (F.told files.new).asked ≡ (F.told files.old).asked }
    ensures cause { HasCause (F.told files.old).read_faults (F.told files.new).read_faults result }
    ensures other_count { (F.told files.new).write_faults ≡ (F.told files.old).write_faults }
{
    let mut room = [0u8; 4096];
    let count = files.read(file, &mut room)?;
    bytes.append(&room[..count])?;
    Ok(count == 0)
}

// Reads what is left, or more than so many bytes of it.
fn read_rest<F: Files>(
    alloc: Global,
    files: &mut F,
    file: u32,
    most: usize,
) -> Result<Bytes, IoFault>
    requires { F.reads files.old file }
    ensures found { IfOk result (λ bytes. Told (F.told files.old).disk (F.told files.new).disk (ReadTo file most bytes)) }
    ensures kept { Told (F.told files.old).disk (F.told files.new).disk SameFiles }
    ensures asked { (F.told files.new).asked ≡ (F.told files.old).asked }
    ensures cause { HasCause (F.told files.old).read_faults (F.told files.new).read_faults result }
    ensures other_count { (F.told files.new).write_faults ≡ (F.told files.old).write_faults }
{
    let mut bytes = Row::new(alloc);
    while bytes.len() <= most {
        if read_some(files, file, &mut bytes)? {
            return Ok(bytes);
        }
    }
    Ok(bytes)
}

/// All bytes of a file, or, where they are more than so many, a front of them that is too long.
pub fn read_file<F: Files>(
    alloc: Global,
    files: &mut F,
    name: &str,
    most: usize,
) -> Result<Bytes, Stop>
    ensures found { IfOk result (λ bytes. Told (F.told files.old).disk (F.told files.new).disk (IsFound name.now most bytes)) }
    ensures only { OnOk result (OnlyRead (name.now ∷ []) (F.told files.old) (F.told files.new)) }
    ensures err { IfErr result (ReadStop (name.now ∷ []) (F.told files.old) (F.told files.new)) }
{
    let file = match files.open_read(name) {
        Ok(file) => file,
        Err(IoFault::Failed) => return Err(Stop::Read),
        Err(IoFault::Memory) => return Err(Stop::Memory),
    };
    match read_rest(alloc, files, file, most) {
        Ok(bytes) => Ok(bytes),
        Err(IoFault::Failed) => Err(Stop::Read),
        Err(IoFault::Memory) => Err(Stop::Memory),
    }
}

/// Writes all of a text to the sink. After an `Err` a front of it is written.
pub fn put_out<O: Sink>(out: &mut O, text: &[u8]) -> Result<(), Stop>
    ensures ok { OnOk result (IsPut text.now (O.told out.old) (O.told out.new)) }
    ensures err { IfErr result (PutStop text.now (O.told out.old) (O.told out.new)) }
{
    let mut rest = text;
    while !rest.is_empty() {
        match out.write(rest) {
            Ok(count) => {
                let (_, after) = rest.split_at(count);
                rest = after;
            }
            Err(IoFault::Failed) => return Err(Stop::Write),
            Err(IoFault::Memory) => return Err(Stop::Memory),
        }
    }
    Ok(())
}

/// Writes all of a text to the end of a created file. After an `Err` a front of it is written.
pub fn put_file<F: Files>(files: &mut F, file: u32, text: &[u8]) -> Result<(), Stop>
    requires { F.writes files.old file }
    ensures ok { OnOk result (Told (F.told files.old).disk (F.told files.new).disk (WroteFile file text.now)) }
    ensures ok_count { OnOk result ((F.told files.new).write_faults ≡ (F.told files.old).write_faults) }
    ensures writes { OnOk result (F.writes files.new file) }
    ensures only { OnlyWrites (F.told files.old) (F.told files.new) }
    ensures err { IfErr result (WriteStop file text.now (F.told files.old) (F.told files.new)) }
{
    let mut rest = text;
    while !rest.is_empty() {
        match files.write(file, rest) {
            Ok(count) => {
                let (_, after) = rest.split_at(count);
                rest = after;
            }
            Err(IoFault::Failed) => return Err(Stop::Write),
            Err(IoFault::Memory) => return Err(Stop::Memory),
        }
    }
    Ok(())
}
