// Words of a text, by where they stand in it.

/// A part of a text, with how many bytes stand before it.
#[derive(Clone, Copy)]
pub struct Word<'t> {
    /// How many bytes stand before it.
    pub from: usize,
    /// The part.
    pub text: &'t str,
}

impl<'t> Word<'t> {
    /// The whole of a text.
    pub fn whole(text: &'t str) -> Word<'t> {
        Word { from: 0, text }
    }

    /// Whether it is empty.
    pub fn is_empty(self) -> bool {
        self.text.is_empty()
    }

    /// Its first bytes, so many, and the others; all of it where it is cut within a character.
    pub fn split(self, at: usize) -> (Word<'t>, Word<'t>) {
        match self.text.split_at_checked(at) {
            Some((front, rest)) => (
                Word {
                    from: self.from,
                    text: front,
                },
                Word {
                    from: self.from.saturating_add(at),
                    text: rest,
                },
            ),
            None => (
                self,
                Word {
                    from: self.from.saturating_add(self.text.len()),
                    text: "",
                },
            ),
        }
    }

    /// The same without the spaces at its ends.
    pub fn trimmed(self) -> Word<'t> {
        let kept = self.text.trim_start_matches(' ');
        let rest = self.split(self.text.len().saturating_sub(kept.len())).1;
        Word {
            from: rest.from,
            text: rest.text.trim_end_matches(' '),
        }
    }

    /// Its first word, before a space, and what is behind it without spaces at its ends.
    pub fn first(self) -> (Word<'t>, Word<'t>) {
        let kept = self.trimmed();
        let end = kept.text.find(' ').unwrap_or(kept.text.len());
        let (front, rest) = kept.split(end);
        (front, rest.trimmed())
    }

    /// What is before the first of some characters, and what is behind, beginning with it.
    pub fn before(self, marks: &[char]) -> (Word<'t>, Word<'t>) {
        let end = self.text.find(marks).unwrap_or(self.text.len());
        self.split(end)
    }

    /// What is behind its first character, where that is this one.
    pub fn behind(self, mark: char) -> Option<Word<'t>> {
        let rest = self.text.strip_prefix(mark)?;
        Some(self.split(self.text.len().saturating_sub(rest.len())).1)
    }

    /// The first tab, or space of another kind than U+0020.
    pub fn odd_space(self) -> Option<Word<'t>> {
        let at = self.text.find(is_odd_space)?;
        let rest = self.split(at).1;
        let char = rest.text.chars().next()?;
        Some(rest.split(char.len_utf8()).0)
    }
}

// Whether a character is a tab, or a space of another kind than U+0020.
fn is_odd_space(char: char) -> bool {
    char.is_whitespace() && char != ' '
}
