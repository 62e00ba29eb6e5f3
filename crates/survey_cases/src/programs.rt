// The two small programs that most cases are tried on.
use program_file::file::ProgramFile;
use refusal::Refusal;

#[derive(Clone, Copy)]
pub struct Programs<'a> {
    pub with_entry: ProgramFile<'a>,
    pub alone: ProgramFile<'a>,
}

impl<'a> Programs<'a> {
    // The loop with an entry, and the loop alone, read from their files.
    pub fn read(with_entry: &'a [u8], alone: &'a [u8]) -> Result<Programs<'a>, Refusal> {
        Ok(Programs {
            with_entry: ProgramFile::read(with_entry)?,
            alone: ProgramFile::read(alone)?,
        })
    }
}
