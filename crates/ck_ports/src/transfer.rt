ghost use Rattle.std.specs.Prelude.{[], ◌≡◌, ◌<◌, ◌≤◌, Some, length, IsTrue, IfOk, OnOk, OnErr, IsErrOf, IsSomeAnd};
ghost use Rattle.ck_ports.specs.declared.files.Mode.TheVariants.{Closed, Reading, Writing};
ghost use Rattle.ck_ports.specs.Faults.{Rose, CountsAt, RisesAt};
ghost use Rattle.ck_ports.specs.Outside.{Outside, SameFiles, SameOtherFiles, HoldsPrefix, IsCutOff, rest_of};
ghost use Rattle.ck_ports.specs.Written.{Written, Writes, WritesPrefix};

use crate::{Files, PortEnd, ReadEnd, Sink};
use asm_core::Items;
use std::alloc::Global;

/// The largest file that `read_all` reads, in bytes: 16 MiB.
pub const MAX_FILE_BYTES: usize = 16_777_216;

// How many bytes `read_all` asks for at once.
const CHUNK_BYTES: usize = 8192;

/// The whole file of this name, which is closed again after every answer.
///
/// A file of more than `MAX_FILE_BYTES` bytes is `TooLarge`, unless it cannot be read or memory runs out.
pub fn read_all<F: Files>(alloc: Global, files: &mut F, name: &str) -> Result<Items<u8>, ReadEnd>
    requires { (F.outside files.old).mode ≡ Closed }

    ensures closed { (F.outside files.new).mode ≡ Closed }
    ensures whole { IfOk result (λ bytes. IsTrue (F.outside files.old).tells → (F.outside files.old).file name.now ≡ Some bytes) }
    ensures small { IfOk result (λ bytes. length bytes ≤ MAX_FILE_BYTES) }
    ensures too_large { IsErrOf result ReadEnd.TooLarge → IsTrue (F.outside files.old).tells
        → IsSomeAnd ((F.outside files.old).file name.now) (λ bytes. MAX_FILE_BYTES < length bytes) }
    ensures failed { IsErrOf result ReadEnd.Failed
        → RisesAt (F.outside files.old).tells name.now (F.outside files.old).reading (F.outside files.new).reading }

    ensures reading { CountsAt (F.outside files.old).tells name.now (F.outside files.old).reading (F.outside files.new).reading }
    ensures writing { (F.outside files.new).writing ≡ (F.outside files.old).writing }
    ensures files { SameFiles (F.outside files.old) (F.outside files.new) }
    ensures tells { (F.outside files.new).tells ≡ (F.outside files.old).tells }
{
    files.open_read(name)?;
    let read = read_to_end(alloc, files);
    let closed = files.close();
    let bytes = read?;
    closed?;
    Ok(bytes)
}

// What is left of the open file, which stays open.
fn read_to_end<F: Files>(alloc: Global, files: &mut F) -> Result<Items<u8>, ReadEnd>
    requires { (F.outside files.old).mode ≡ Reading }

    ensures mode { (F.outside files.new).mode ≡ Reading }
    ensures rest { IfOk result (λ bytes. IsTrue (F.outside files.old).tells → rest_of (F.outside files.old) ≡ bytes) }
    ensures small { IfOk result (λ bytes. length bytes ≤ MAX_FILE_BYTES) }
    ensures too_large { IsErrOf result ReadEnd.TooLarge → IsTrue (F.outside files.old).tells
        → MAX_FILE_BYTES < length (rest_of (F.outside files.old)) }
    ensures failed { IsErrOf result ReadEnd.Failed
        → RisesAt (F.outside files.old).tells (F.outside files.old).open_name (F.outside files.old).reading (F.outside files.new).reading }

    ensures reading { CountsAt (F.outside files.old).tells (F.outside files.old).open_name (F.outside files.old).reading (F.outside files.new).reading }
    ensures writing { (F.outside files.new).writing ≡ (F.outside files.old).writing }
    ensures open_name { (F.outside files.new).open_name ≡ (F.outside files.old).open_name }
    ensures files { SameFiles (F.outside files.old) (F.outside files.new) }
    ensures tells { (F.outside files.new).tells ≡ (F.outside files.old).tells }
{
    let mut bytes = Vec::new(alloc);
    let mut chunk = [0; CHUNK_BYTES];
    while bytes.len() <= MAX_FILE_BYTES {
        let count = files.read(&mut chunk)?;
        if count == 0 {
            return Ok(Items::from_vec(bytes));
        }
        bytes.extend_from_slice(&chunk[..count])?;
    }
    Err(ReadEnd::TooLarge)
}

/// Writes all the bytes. After an `Err` a prefix of them was written.
pub fn write_all<K: Sink>(out: &mut K, bytes: &[u8]) -> Result<(), PortEnd>
    ensures ok { OnOk result (IsTrue (K.written out.old).tells → Writes bytes.now (K.written out.old) (K.written out.new)) }
    ensures err { OnErr result (IsTrue (K.written out.old).tells → WritesPrefix bytes.now (K.written out.old) (K.written out.new)) }
    ensures failed { IsErrOf result PortEnd.Failed → Rose (K.written out.old).faults (K.written out.new).faults }
    ensures never_falls { (K.written out.old).faults ≤ (K.written out.new).faults }
    ensures tells { (K.written out.new).tells ≡ (K.written out.old).tells }
{
    let mut done = 0;
    while done < bytes.len() {
        done += out.write(&bytes[done..])?;
    }
    Ok(())
}

/// Makes the file of this name hold the bytes. It is closed again after every answer; after an `Err` it holds a prefix of the bytes,
/// or what it held.
pub fn write_file<F: Files>(files: &mut F, name: &str, bytes: &[u8]) -> Result<(), PortEnd>
    requires { (F.outside files.old).mode ≡ Closed }

    ensures closed { (F.outside files.new).mode ≡ Closed }
    ensures whole { OnOk result (IsTrue (F.outside files.old).tells → (F.outside files.new).file name.now ≡ Some bytes.now) }
    ensures err { OnErr result (IsTrue (F.outside files.old).tells → IsCutOff name.now bytes.now (F.outside files.old) (F.outside files.new)) }
    ensures failed { IsErrOf result PortEnd.Failed
        → RisesAt (F.outside files.old).tells name.now (F.outside files.old).writing (F.outside files.new).writing }

    ensures others { IsTrue (F.outside files.old).tells → SameOtherFiles name.now (F.outside files.old) (F.outside files.new) }
    ensures writing { CountsAt (F.outside files.old).tells name.now (F.outside files.old).writing (F.outside files.new).writing }
    ensures reading { (F.outside files.new).reading ≡ (F.outside files.old).reading }
    ensures tells { (F.outside files.new).tells ≡ (F.outside files.old).tells }
{
    files.open_write(name)?;
    let written = write_to_end(files, bytes);
    let closed = files.close();
    written?;
    closed
}

// Writes the bytes to the open file, which is empty and stays open.
fn write_to_end<F: Files>(files: &mut F, bytes: &[u8]) -> Result<(), PortEnd>
    requires mode { (F.outside files.old).mode ≡ Writing }
    requires empty { IsTrue (F.outside files.old).tells → (F.outside files.old).file (F.outside files.old).open_name ≡ Some [] }

    ensures mode { (F.outside files.new).mode ≡ Writing }
    ensures whole { OnOk result (IsTrue (F.outside files.old).tells
        → (F.outside files.new).file (F.outside files.old).open_name ≡ Some bytes.now) }
    ensures err { OnErr result (IsTrue (F.outside files.old).tells
        → HoldsPrefix (F.outside files.old).open_name bytes.now (F.outside files.new)) }
    ensures failed { IsErrOf result PortEnd.Failed
        → RisesAt (F.outside files.old).tells (F.outside files.old).open_name (F.outside files.old).writing (F.outside files.new).writing }

    ensures others { SameOtherFiles (F.outside files.old).open_name (F.outside files.old) (F.outside files.new) }
    ensures writing { CountsAt (F.outside files.old).tells (F.outside files.old).open_name (F.outside files.old).writing (F.outside files.new).writing }
    ensures open_name { (F.outside files.new).open_name ≡ (F.outside files.old).open_name }
    ensures reading { (F.outside files.new).reading ≡ (F.outside files.old).reading }
    ensures tells { (F.outside files.new).tells ≡ (F.outside files.old).tells }
{
    let mut done = 0;
    while done < bytes.len() {
        done += files.write(&bytes[done..])?;
    }
    Ok(())
}
