// Where a register stands in the code of a system.

use explaining::item_text;
use explaining::owner::{Owner, items_at, table_of};
use explaining::target::Target;
use explaining::word::Word;
use program_file::Place;
use script::Source;
use toml::Table;

// So many words of an instruction are looked at; none takes more than five.
const MOST_WORDS: usize = 64;

/// The first word of the code of a system that is a register.
pub(crate) fn register_of<'a>(
    document: &'a Table,
    system: usize,
    register: u32,
) -> Option<Target<'a>> {
    let owner = Owner::of(document, Place::System(system));
    let blocks = items_at(owner.table(document)?, "do");
    for block in 0..blocks.len() {
        let owner = owner.with_block(block);
        let items = items_at(table_of(&blocks[block])?, "code");
        for number in 0..items.len() {
            let text = item_text(items, number);
            if let Some(word) = register_in(text, register) {
                let target = Target::text(owner, "code", Some(number), text);
                return Some(target.within(word));
            }
        }
    }
    None
}

// The first word of an instruction that is a register.
fn register_in<'t>(text: &'t str, register: u32) -> Option<Word<'t>> {
    let mut rest = Word::whole(text);
    for _ in 0..MOST_WORDS {
        let (word, more) = rest.first();
        if word.is_empty() {
            return None;
        }
        if let Some(Source::Register(number)) = Source::read(word.text) {
            if number == register {
                return Some(word);
            }
        }
        rest = more;
    }
    None
}
