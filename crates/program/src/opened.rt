// A file that is read, also one that can't be opened.

use std::io;
use std::io::{ErrorKind, Read};

/// The reader of a file. Where the file can't be opened each read fails.
#[derive(Drop)]
pub struct Opened<F: Drop> {
    file: Option<F>,
}

impl<F: Drop> From<io::Result<F>> for Opened<F> {
    fn from(opened: io::Result<F>) -> Self {
        Opened { file: opened.ok() }
    }
}

impl<F: Read + Drop> Read for Opened<F> {
    fn read(&mut self, buf: &mut [u8]) -> io::Result<usize> {
        match &mut self.file {
            Some(file) => file.read(buf),
            None => Err(io::Error::from(ErrorKind::NotFound)),
        }
    }
}
