// The first line of bytes that a host sends, and the lines behind it.

ghost use Rattle.std.specs.Prelude.{◌≡◌, ◌↔◌, IsTrue};
ghost use Rattle.live_world.specs.Sent.{EndsLines, IsParted};
ghost use Rattle.session.specs.Body.{AreLines};
ghost use Rattle.session.specs.Replies.{lines_in};

use memchr::memchr;

/// The first line of some bytes, without its end, and what stands behind that. Where no line ends, all of them are
/// the line.
pub fn parted(sent: &[u8]) -> (&[u8], &[u8])
    ensures { IsParted sent.now result.0.now result.1.now }
{
    match memchr(b'\n', sent) {
        Some(end) => (&sent[..end], &sent[end + 1..]),
        None => (sent, &sent[sent.len()..]),
    }
}

/// Whether a text is so many lines, each with its end.
pub fn are_lines(count: u32, text: &[u8]) -> bool
    ensures { IsTrue result ↔ AreLines count text.now }
{
    ends_in(text) == count as usize && ends_lines(text)
}

// How many ends of lines there are.
fn ends_in(text: &[u8]) -> usize
    ensures { result ≡ lines_in text.now }
{
    text.iter().filter(|byte| **byte == b'\n').count()
}

// Whether nothing stands behind the last end of a line.
fn ends_lines(text: &[u8]) -> bool
    ensures { IsTrue result ↔ EndsLines text.now }
{
    match text.last() {
        Some(byte) => *byte == b'\n',
        None => true,
    }
}
