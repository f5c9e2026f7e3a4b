//! An end that fails.

ghost use Rattle.std.specs.Prelude.{◌↔◌, IfErr, IsErr};
ghost use Rattle.watched.specs.Watched.{IsMarked, IsUnmarked};

use std::io;
use watched::{Source, Watched};

/// Drops the next byte, and returns whether there was one. An error comes exactly where the mark is then set, and
/// it is that of a read.
pub fn skip_byte<R: Source>(reader: &mut Watched<R>) -> io::Result<bool>
    requires { IsUnmarked reader.old }
    ensures mark { IsErr result ↔ IsMarked reader.new }
    ensures called { IfErr result (λ error.
        (room : _) × R.reads reader.old.end (Err error) room reader.new.end) }
{
    let taken = reader.read(&mut [0])?;
    Ok(taken == 1)
}
