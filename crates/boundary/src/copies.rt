// A program file, written again with inputs over it.
ghost use Rattle.std.specs.Prelude.{◌≡◌, []};
ghost use Rattle.boundary.specs.Copies.{inputs_put, put_left, size_told, written};

use crate::answers::{DONE, Told, refusal_told, worded};
use inputs::Inputs;
use refusal::Refusal;
use rules::RuleSource;
use writer::write;

// Puts the atoms as inputs over a source, and writes the program that it then stands for.
pub(crate) fn write_over<S: RuleSource + Drop>(source: S, atoms: &[u16], out: &mut [u8]) -> Told
    ensures value { result ≡ (written (S.meaning source) out.old (inputs_put (S.meaning source) [] atoms.now)).answer }
    ensures after { out.new ≡ (written (S.meaning source) out.old (inputs_put (S.meaning source) [] atoms.now)).out }
{
    let mut layer = Inputs::over(source);
    match put_all(&mut layer, atoms) {
        Ok(()) => size_told(write(&layer, out)),
        Err(refusal) => refusal_told(refusal),
    }
}

// The size of what was written.
fn size_told(answer: Result<usize, Refusal>) -> Told
    ensures value { result ≡ size_told answer }
{
    match answer {
        Ok(size) => worded(DONE, size),
        Err(refusal) => refusal_told(refusal),
    }
}

// Puts the atoms as inputs, in turn; the first refusal ends it.
fn put_all<S: RuleSource>(layer: &mut Inputs<S>, atoms: &[u16]) -> Result<(), Refusal>
    ensures value { put_left result layer.new.inputs.items ≡ inputs_put (S.meaning layer.old.below) layer.old.inputs.items atoms.now }
    ensures below { layer.new.below ≡ layer.old.below }
{
    'atoms: for atom in atoms {
        layer.put(*atom)?;
    }
    Ok(())
}
