// The block in which a record is gathered before it is copied to the output.
ghost use Rattle.std.specs.Prelude.{◌≡◌, ◌+◌, ◌*◌, ◌≤◌, ◌++◌, length};
ghost use Rattle.records.specs.Words.{two_bytes, word_bytes};
ghost use Rattle.writer.specs.Writing.{laid_over};

use arrayvec::ArrayVec;

// The bytes of a record; no record of a program file has more than 518.
pub(crate) type Block = ArrayVec<u8, 518>;

// A block with the bytes of numbers.
pub(crate) fn block_of(numbers: &[u16]) -> Block
    requires room { 2 * length numbers.now ≤ 518 }
    ensures value { result.items ≡ word_bytes numbers.now }
{
    let mut block = ArrayVec::new();
    push_numbers(&mut block, numbers);
    block
}

// Puts the bytes of numbers after the others.
pub(crate) fn push_numbers(block: &mut Block, numbers: &[u16])
    requires room { length block.old.items + 2 * length numbers.now ≤ 518 }
    ensures after { block.new.items ≡ block.old.items ++ word_bytes numbers.now }
{
    for number in numbers {
        push_number(block, *number);
    }
}

// Puts the two bytes of a number after the others.
pub(crate) fn push_number(block: &mut Block, number: u16)
    requires room { length block.old.items + 2 ≤ 518 }
    ensures after { block.new.items ≡ block.old.items ++ two_bytes number }
{
    let [low, high] = number.to_le_bytes();
    block.push(low);
    block.push(high);
}

// Copies the bytes to the front of the output, and tells how many they are.
pub(crate) fn copy_to(block: &Block, out: &mut [u8]) -> usize
    requires room { length block.now.items ≤ length out.old }
    ensures value { result ≡ length block.now.items }
    ensures after { out.new ≡ laid_over block.now.items out.old }
{
    out[..block.len()].copy_from_slice(block.as_slice());
    block.len()
}
