// The checked program file as a rule source.
#![tactic(auto)]

ghost use Rattle.std.specs.Prelude.{◌≡◌};
ghost use Rattle.program.specs.Reading.{program_in, atoms_read};

use crate::file::ProgramFile;
use refusal::Refusal;
use rules::RuleSource;

pub mod file;
mod stored;

// Checks a program file, and tells how many atoms its program has.
pub fn atoms_in(bytes: &[u8]) -> Result<u16, Refusal>
    ensures value { result ≡ atoms_read (program_in bytes.now) }
{
    let file = ProgramFile::read(bytes)?;
    Ok(file.atoms())
}
