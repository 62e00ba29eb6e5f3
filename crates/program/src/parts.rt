// Walks over one part of a rule, as it stands in the file: two bytes for each atom.
ghost use Rattle.std.specs.Prelude.{◌≡◌, ◌&&◌};
ghost use Rattle.records.specs.Words.{words};
ghost use Rattle.rules.specs.Program.{within, ascending};
ghost use Rattle.rules.specs.Tests.{all};

use records::numbers::words_in;

// Is each atom one of 1 to n?
pub fn all_within(part: &[u8], n: u16) -> bool
    ensures value { result ≡ all (within n) (words part.now) }
{
    words_in(part).all(|atom| (1..=n).contains(&atom))
}

// Is each atom above the one before it, and one of 1 to n? One walk, since the last is the greatest.
pub fn ascends_within(part: &[u8], n: u16) -> bool
    ensures value { result ≡ (ascending (words part.now) && all (within n) (words part.now)) }
{
    let mut last = 0u16;
    'atoms: for atom in words_in(part) {
        if atom <= last {
            return false;
        }
        last = atom;
    }
    last <= n
}
