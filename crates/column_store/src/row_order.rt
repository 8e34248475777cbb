// The order of the rows of a table.

ghost use Rattle.std.specs.Prelude.{◌≡◌, ◌<◌, ◌++◌, length, reverse, get_or};

/// The numbers of the rows of a table in the order of their entities: as ids rise.
#[derive(Clone, Copy)]
pub enum RowOrder<'a> {
    /// Each row number in order, from 0.
    Rising,
    /// The row numbers of the first list, and then those of the second one from its end to its start.
    Listed(&'a [u32], &'a [u32]),
}

// The number at a place of a list.
fn listed_at(rows: &[u32], at: usize) -> u32
    requires { at < length rows.now }
    ensures { result ≡ get_or rows.now at 0 }
{
    rows[at]
}

// The number at a place of two lists, of which the second one is read from its end.
pub(crate) fn number_at(front: &[u32], back: &[u32], at: usize) -> u32
    requires { at < length (front.now ++ reverse back.now) }
    ensures { result ≡ get_or (front.now ++ reverse back.now) at 0 }
{
    let count = front.len();
    if at < count {
        return listed_at(front, at);
    }
    listed_at(back, back.len() - 1 - (at - count))
}

impl RowOrder<'_> {
    ghost use Rattle.std.specs.Prelude.{ℕ, IsTrue};
    ghost use Rattle.column_store.specs.RowOrder.{numbers_from, rows_in};

    /// Whether it is each row number in order.
    pub fn is_rising(&self) -> bool
        ensures { IsTrue result → (count : ℕ) → rows_in count self.now ≡ numbers_from 0 count }
    {
        match self {
            RowOrder::Rising => true,
            RowOrder::Listed(_front, _back) => false,
        }
    }

    /// How many row numbers there are, by how many rows there are.
    pub fn len(&self, count: u32) -> usize
        ensures { result ≡ length (rows_in count self.now) }
    {
        match self {
            RowOrder::Rising => count as usize,
            RowOrder::Listed(front, back) => front.len() + back.len(),
        }
    }

    /// The row number at a place of the order, by how many rows there are.
    pub fn row(&self, count: u32, at: usize) -> u32
        requires { at < length (rows_in count self.now) }
        ensures { result ≡ get_or (rows_in count self.now) at 0 }
    {
        match self {
            RowOrder::Rising => {
                // Proves that places are below it.
                let _count = count;
                at as u32
            }
            RowOrder::Listed(front, back) => number_at(front, back, at),
        }
    }
}
