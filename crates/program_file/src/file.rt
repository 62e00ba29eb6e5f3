// A checked program file.
ghost use Rattle.std.specs.Prelude.{◌≡◌, true, length, is_ok};
ghost use Rattle.program.specs.Reading.{program_in, read_or_empty};
ghost use Rattle.program.specs.Index.{index_of};

use program::reader::Index;

pub mod source;

// The bytes of a program file, read where they stand, with the index that checking them gave.
#[derive(Clone, Copy)]
pub struct ProgramFile<'a> {
    bytes: &'a [u8],
    index: Index,
    ghost checked: { is_ok (program_in bytes.now) ≡ true },
    ghost indexed: { index ≡ index_of (read_or_empty (program_in bytes.now)) },
}
