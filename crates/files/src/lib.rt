// Reading a file of records from the disk.
#![tactic(auto)]

ghost use Rattle.std.specs.Prelude.{◌≤◌, IfOk, vec_len};

use records::MAX_BYTES;
use std::alloc::AllocError;
use std::fs::File;
use std::io::Read;

// One byte more than a file may have, so that a longer one is refused for its size and not read to its end.
const READ_LIMIT: usize = MAX_BYTES + 1;

// So many bytes are read at a time.
const STEP: usize = 8192;

// The first bytes of a file, at most as many as `READ_LIMIT`; a file that cannot be read has none.
// Memory is asked for once there are bytes, and no more is kept than they need.
pub fn read_front(rt: &HostRuntime, name: &str) -> Result<Vec<u8>, AllocError>
    ensures bound { IfOk result (λ bytes. vec_len bytes ≤ 65001) }
{
    let mut bytes = vec![in rt.alloc()]?;
    let Ok(mut file) = File::open(rt, name) else {
        return Ok(bytes);
    };
    read_into(&mut file, &mut bytes)?;
    bytes.shrink_to_fit();
    Ok(bytes)
}

// Reads until there are `READ_LIMIT` bytes or the file ends; where reading fails, no bytes are left.
// A loop over `read`: of an error of `read_to_end` for want of memory, it is not told whether a read failed or the vector could
// not grow.
fn read_into(file: &mut File, bytes: &mut Vec<u8>) -> Result<(), AllocError>
    requires room { vec_len bytes.old ≤ 65001 }
    ensures room { vec_len bytes.new ≤ 65001 }
{
    let mut block = [0u8; STEP];
    while bytes.len() < READ_LIMIT {
        let room = STEP.min(READ_LIMIT - bytes.len());
        match file.read(&mut block[..room]) {
            Ok(0) => break,
            Ok(count) => bytes.extend_from_slice(&block[..count])?,
            Err(_) => {
                bytes.clear();
                break;
            }
        }
    }
    Ok(())
}
