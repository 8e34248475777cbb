// A file that is written, also one that can't be created.

ghost use Rattle.std.specs.Prelude.{◌≡◌, false};

use std::fs::Files;
use std::io::Write;
use std::marker::Model;
use std::{fs, io};

/// The writer of a file, which is created, or emptied, where it is first written to. Where it can't be each write fails. Contracts see its path, and
/// whether the file was created.
#[derive(Drop)]
pub struct Created<'a, R: Files + Drop> {
    files: R,
    path: &'a str,
    file: Option<R::File>,
}

impl<'a, R: Files + Drop> Model for Created<'a, R> {
    ghost use Rattle.std.specs.Prelude.{is_some};
    ghost use Rattle.program.specs.ToCreate.{ToCreate};

    ghost Value = { ToCreate };

    ghost view = { λ c. record { path = c.path.now; is_created = is_some c.file } };
}

impl<'a, R: Files + Drop> Created<'a, R> {
    /// The writer of the file of this path, which is not created yet.
    pub fn new(files: R, path: &'a str) -> Self
        ensures { result ≡ record { path = path.now; is_created = false } }
    {
        Created {
            files,
            path,
            file: None,
        }
    }

    // The file. It is created where it isn't yet.
    fn opened(&mut self) -> io::Result<&mut R::File> {
        let file = match self.file.take() {
            Some(file) => file,
            None => fs::create(&self.files, self.path)?,
        };
        Ok(self.file.insert(file))
    }
}

impl<R: Files + Drop> Write for Created<'_, R> {
    fn write(&mut self, buf: &[u8]) -> io::Result<usize> {
        self.opened()?.write(buf)
    }

    fn flush(&mut self) -> io::Result<()> {
        self.opened()?.flush()
    }
}
