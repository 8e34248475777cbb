// The walk over a text.

use crate::places::Places;
use std::alloc::{AllocError, AllocFailed, Global};
use toml_parser::text::{byte_at, first, skip, skip_blank, skip_ws};
use toml_parser::{Key, ParseError, dotted_key, quoted, starts_string, unquoted};

// Why the walk stops before the end.
#[derive(Clone, Copy, Debug)]
enum Stop {
    // The text is no document from here on.
    Lost,
    // An allocation failed.
    Memory,
}

impl From<AllocError> for Stop {
    fn from(_error: AllocError) -> Stop {
        Stop::Memory
    }
}

impl<T: Drop> From<AllocFailed<T>> for Stop {
    fn from(_error: AllocFailed<T>) -> Stop {
        Stop::Memory
    }
}

impl From<ParseError> for Stop {
    fn from(error: ParseError) -> Stop {
        match error {
            ParseError::OutOfMemory => Stop::Memory,
            ParseError::At(..) => Stop::Lost,
        }
    }
}

// An array or a table in braces whose end is still to come.
#[derive(Clone, Copy, Debug)]
struct Open {
    number: usize,
    start: usize,
    is_table: bool,
}

// A walk: what is left of a text, the table of the last header, and what is open.
#[derive(Drop)]
struct Walk<'a> {
    text: &'a str,
    rest: &'a str,
    table: usize,
    open: Vec<Open>,
    places: Places,
}

impl Places {
    /// Those of a text; of one that is no document, those of its beginning.
    pub fn of(alloc: Global, text: &str) -> Result<Places, AllocError> {
        let mut walk = Walk {
            text,
            rest: text,
            table: 0,
            open: Vec::new(alloc),
            places: Places::new(alloc)?,
        };
        walk.skip_mark();
        for _ in 0..text.len().saturating_add(1) {
            match walk.turn(alloc) {
                Ok(true) => {}
                Ok(false) | Err(Stop::Lost) => return Ok(walk.places),
                Err(Stop::Memory) => return Err(AllocError),
            }
        }
        Ok(walk.places)
    }
}

impl<'a> Walk<'a> {
    // Goes on behind a byte order mark.
    fn skip_mark(&mut self) {
        if let Some(rest) = self.rest.strip_prefix('\u{FEFF}') {
            self.rest = rest;
        }
    }

    // How many bytes stand before what is left.
    fn place(&self) -> usize {
        self.text.len().saturating_sub(self.rest.len())
    }

    // One turn: a header, a key with the beginning of its value, an item, or an end. Whether there is more.
    fn turn(&mut self, alloc: Global) -> Result<bool, Stop> {
        self.rest = skip_blank(self.rest, true);
        if self.rest.is_empty() {
            return Ok(false);
        }
        match self.open.last() {
            None => self.line(alloc)?,
            Some(open) => {
                let open = *open;
                self.inside(alloc, open)?;
            }
        }
        Ok(true)
    }

    // A line outside of any value: a header, or a key with its value.
    fn line(&mut self, alloc: Global) -> Result<(), Stop> {
        if first(self.rest) != b'[' {
            return self.pair(alloc, self.table);
        }
        let start = self.place();
        let is_many = byte_at(self.rest, 1) == b'[';
        self.rest = skip_ws(skip(self.rest, 1));
        if is_many {
            if first(self.rest) != b'[' {
                return Err(Stop::Lost);
            }
            self.rest = skip_ws(skip(self.rest, 1));
        }
        let (Key { path, last }, rest) = dotted_key(alloc, self.rest)?;
        self.rest = rest;
        self.close_bracket()?;
        if is_many {
            self.close_bracket()?;
        }
        let span = (start, self.place());
        let owner = self.places.along(0, path, span)?;
        let number = self.places.enter(owner, last, span)?;
        self.table = if is_many {
            self.places.push_item(number, span)?
        } else {
            number
        };
        self.places.set_key(self.table, span);
        Ok(())
    }

    // Goes on behind a closing bracket.
    fn close_bracket(&mut self) -> Result<(), Stop> {
        if first(self.rest) != b']' {
            return Err(Stop::Lost);
        }
        self.rest = skip(self.rest, 1);
        Ok(())
    }

    // What comes next in an array or in a table in braces.
    fn inside(&mut self, alloc: Global, open: Open) -> Result<(), Stop> {
        let byte = first(self.rest);
        if byte == b',' {
            self.rest = skip(self.rest, 1);
            return Ok(());
        }
        let end = if open.is_table { b'}' } else { b']' };
        if byte == end {
            self.rest = skip(self.rest, 1);
            let span = (open.start, self.place());
            self.places.set_value(open.number, span);
            let _open = self.open.pop();
            return Ok(());
        }
        if open.is_table {
            return self.pair(alloc, open.number);
        }
        let number = self.places.push_item(open.number, (0, 0))?;
        self.value(alloc, number)
    }

    // A key of a table, and its value.
    fn pair(&mut self, alloc: Global, table: usize) -> Result<(), Stop> {
        let start = self.place();
        let (Key { path, last }, rest) = dotted_key(alloc, self.rest)?;
        let read = self.text.len().saturating_sub(rest.len());
        let end = start.saturating_add(word_len(self.text.get(start..read).unwrap_or("")));
        self.rest = rest;
        if first(self.rest) != b'=' {
            return Err(Stop::Lost);
        }
        self.rest = skip_ws(skip(self.rest, 1));
        let owner = self.places.along(table, path, (start, end))?;
        let number = self.places.enter(owner, last, (start, end))?;
        self.value(alloc, number)
    }

    // A value: of an array or a table in braces its beginning.
    fn value(&mut self, alloc: Global, number: usize) -> Result<(), Stop> {
        let start = self.place();
        let byte = first(self.rest);
        if byte == b'[' || byte == b'{' {
            self.rest = skip(self.rest, 1);
            self.open.push(Open {
                number,
                start,
                is_table: byte == b'{',
            })?;
            return Ok(());
        }
        if starts_string(self.rest) {
            let (_text, rest) = quoted(alloc, self.rest)?;
            self.rest = rest;
        } else {
            let (_scalar, rest) = unquoted(alloc, self.rest)?;
            self.rest = rest;
        }
        let span = (start, self.place());
        self.places.set_value(number, span);
        Ok(())
    }
}

// How long a text is without the spaces and tabs at its end.
fn word_len(text: &str) -> usize {
    text.trim_end_matches([' ', '\t']).len()
}
