ghost use Rattle.std.specs.Prelude.{◌≡◌, IfOk, IfErr};
ghost use Rattle.sokopar.specs.Runs.{ReadsWhole, Stops};

use crate::fault::RunFault;
use crate::source::Source;
use std::alloc::Global;
use xsb::MAX_FILE;

/// The greatest number of bytes of one read.
const CHUNK: usize = 8192;

/// Reads a source to its end. It stops at the first read that fails, and once there are more than
/// [`MAX_FILE`](xsb::MAX_FILE) bytes.
#[tactic(auto, using(crate::proofs::Acts::pass_none, crate::proofs::Acts::consumes_none, crate::proofs::Acts::consumes_kept, crate::proofs::Acts::were_all))]
pub(crate) fn read_whole<S: Source>(alloc: Global, source: &mut S) -> Result<Vec<u8>, RunFault>
    ensures ok { IfOk result (λ bytes. ReadsWhole (S.seen source.old) (S.seen source.new) bytes.items) }
    ensures err { IfErr result (λ fault. Stops (S.seen source.old) (S.seen source.new) fault) }
{
    let mut bytes = Vec::new(alloc);
    let mut chunk = [0u8; CHUNK];
    while bytes.len() <= MAX_FILE {
        let room = CHUNK.min(MAX_FILE + 1 - bytes.len());
        let Ok(count) = source.read(&mut chunk[..room]) else {
            return Err(RunFault::Read);
        };
        if count == 0 {
            return Ok(bytes);
        }
        bytes.extend_from_slice(&chunk[..count])?;
    }
    Err(RunFault::TooLong)
}
