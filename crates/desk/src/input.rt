// Standard input, as far as a program needs it.
ghost use Rattle.std.specs.Prelude.{◌≤◌, IfOk, vec_len};

use std::io;
use std::io::Read;

// Reads standard input to its end, but no more than `most` bytes.
pub fn read_input(rt: &HostRuntime, most: usize) -> io::Result<Vec<u8>>
    ensures { IfOk result (λ v. vec_len v ≤ most) }
{
    let mut bytes = Vec::new(rt.alloc());
    rt.stdin().take(most as u64).read_to_end(&mut bytes)?;
    // `take` reads no more; what it says of itself is not in its contract, so the bound is kept here too
    bytes.truncate(most);
    Ok(bytes)
}
