// The lines of a text.

ghost use Rattle.std.specs.Prelude.{◌≡◌, ◌+◌, ◌≤◌, ◌<◌, ◌≢◌, ◌⊎◌, ◌-◌, ℕ, length, slice_index};
ghost use Rattle.text_marks.specs.Lines.{BeginsLine, EndsLine, IsLine, breaks_before};

/// A line of a text.
#[derive(Clone, Copy, Debug)]
pub struct Line<'a> {
    /// Its number, from 1.
    pub number: usize,
    /// How many bytes come before it.
    pub start: usize,
    /// Its bytes, without the line feed that ends it.
    pub bytes: &'a [u8],
}

/// The line of a place of a text, which is at most the text's end. A line feed is on the line that it ends.
pub fn line_at(text: &[u8], place: usize) -> Line<'_>
    requires { place ≤ length text.now }
    ensures line { IsLine text.now result }
    ensures begins { result.start ≤ place }
    ensures ends { place ≤ result.start + length result.bytes.now }
{
    let (start, breaks) = start_of(text, place);
    let end = end_of(text, place);
    Line {
        number: breaks + 1,
        start,
        bytes: &text[start..end],
    }
}

// Where the line of a place begins, and how many lines end before it.
fn start_of(text: &[u8], place: usize) -> (usize, usize)
    requires { place ≤ length text.now }
    ensures begins { BeginsLine text.now result.0 }
    ensures within { result.0 ≤ place }
    ensures unbroken { (k : ℕ) → result.0 ≤ k → k < place → slice_index text.now k ≢ 10 }
    ensures breaks { result.1 ≡ breaks_before text.now result.0 }
    ensures few { result.1 ≤ place }
{
    let mut start = 0;
    let mut breaks = 0;
    for at in 0..place {
        if text[at] == b'\n' {
            start = at + 1;
            breaks += 1;
        }
    }
    (start, breaks)
}

// Where the line of a place ends.
fn end_of(text: &[u8], place: usize) -> usize
    requires { place ≤ length text.now }
    ensures ends { EndsLine text.now result }
    ensures within { place ≤ result }
    ensures unbroken { (k : ℕ) → place ≤ k → k < result → slice_index text.now k ≢ 10 }
{
    for at in place..text.len() {
        if text[at] == b'\n' {
            return at;
        }
    }
    text.len()
}
