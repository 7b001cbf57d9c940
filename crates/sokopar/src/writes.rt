ghost use Rattle.std.specs.Prelude.{◌≡◌, OnOk, IfErr};
ghost use Rattle.sokopar.specs.Runs.{WritesWhole, WritesPart};

use crate::sink::Sink;
use crate::trail::Failed;

/// Writes a whole text. It stops at the first write that fails.
#[tactic(auto, using(crate::proofs::Writing::taken_none, crate::proofs::Writing::taken_all, crate::proofs::Writing::taken_part))]
pub(crate) fn write_whole<K: Sink>(sink: &mut K, text: &[u8]) -> Result<(), Failed>
    ensures ok { OnOk result (WritesWhole (K.seen sink.old) (K.seen sink.new) text.now) }
    ensures err { IfErr result (λ _. WritesPart (K.seen sink.old) (K.seen sink.new) text.now) }
{
    let mut rest = text;
    while !rest.is_empty() {
        let count = sink.write(rest)?;
        rest = &rest[count..];
    }
    Ok(())
}
