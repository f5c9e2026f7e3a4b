//! What a run reads.

use std::io;
use std::io::Read;

/// Standard input, or a file that is open.
#[derive(Drop)]
pub enum Opened<S, F> {
    Standard(S),
    File(F),
}

impl<S: Read, F: Read> Read for Opened<S, F> {
    fn read(&mut self, buf: &mut [u8]) -> io::Result<usize> {
        match self {
            Opened::Standard(input) => input.read(buf),
            Opened::File(file) => file.read(buf),
        }
    }
}
