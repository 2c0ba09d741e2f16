//! Files as the programs read them.
#![tactic(auto)]

ghost use Rattle.std.specs.Prelude.{◌+◌, ◌≤◌, IfOk, vec_len};

use std::alloc::Global;
use std::fs::File;
use std::io;
use std::io::{ErrorKind, Read};

// The bytes of an open file, as far as one past `limit`, so that a longer file is told from one that just fits.
fn read_bytes(heap: Global, file: File, limit: usize) -> io::Result<Vec<u8>>
    ensures { IfOk result (λ v. vec_len v ≤ limit + 1) }
{
    let most = limit.saturating_add(1);
    let mut bytes = Vec::new(heap);
    file.take(most as u64).read_to_end(&mut bytes)?;
    bytes.truncate(most);
    Ok(bytes)
}

/// The bytes of the file `path`, as far as one past `limit`; a missing file is empty.
pub fn read_file(rt: &HostRuntime, path: &str, limit: usize) -> io::Result<Vec<u8>>
    ensures { IfOk result (λ v. vec_len v ≤ limit + 1) }
{
    match File::open(rt, path) {
        Ok(file) => read_bytes(rt.alloc(), file, limit),
        Err(error) if error.kind() == ErrorKind::NotFound => Ok(Vec::new(rt.alloc())),
        Err(error) => Err(error),
    }
}
