// The checked program file as a rule source: each question costs a constant number of steps.
ghost use Rattle.std.specs.Prelude.{◌≡◌, ◌-◌, cond, length, None, Ok};
ghost use Rattle.std.specs.List.{slice_get};
ghost use Rattle.rules.specs.Program.{within};
ghost use Rattle.program.specs.Reading.{program_in};
ghost use Rattle.program.specs.Index.{indexed};
ghost use Rattle.program_file.specs.File.{program_of, program_read};
ghost use Rattle.program_file.specs.Lawful.{file_lawful};

use crate::file::ProgramFile;
use crate::stored::{head_at, negative_at, positive_at};
use program::reader::{Index, check};
use refusal::Refusal;
use rules::RuleSource;

impl<'a> ProgramFile<'a> {
    // The file over bytes that were checked, with the index that `check` answered for them.
    pub fn over(bytes: &'a [u8], index: Index) -> ProgramFile<'a>
        requires checked { indexed (program_in bytes.now) ≡ Ok index }
        ensures value { result.bytes.now ≡ bytes.now }
    {
        ProgramFile { bytes, index }
    }

    // The file over bytes, once they are checked.
    // Not inlined: the room that checking needs is free again when judging begins.
    #[inline(never)]
    pub fn read(bytes: &'a [u8]) -> Result<ProgramFile<'a>, Refusal>
        ensures value { program_read result ≡ program_in bytes.now }
    {
        let index = check(bytes)?;
        Ok(ProgramFile::over(bytes, index))
    }
}

impl<'a> RuleSource for ProgramFile<'a> {
    ghost meaning = { program_of };

    ghost lawful = { file_lawful };

    fn atoms(&self) -> u16 {
        self.index.atoms()
    }

    fn rules(&self) -> u16 {
        self.index.rules()
    }

    fn head(&self, rule: u16) -> Option<u16> {
        let start = self.index.start_of(rule)?;
        head_at(self.bytes, start)
    }

    fn positive(&self, rule: u16, position: u16) -> Option<u16> {
        let start = self.index.start_of(rule)?;
        positive_at(self.bytes, start, position)
    }

    fn negative(&self, rule: u16, position: u16) -> Option<u16> {
        let start = self.index.start_of(rule)?;
        negative_at(self.bytes, start, position)
    }
}
