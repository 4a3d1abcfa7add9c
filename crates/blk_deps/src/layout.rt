//! How the facts of a shape lie in a row of words.

ghost use Rattle.std.specs.Prelude.{◌≡◌, ◌+◌, ◌*◌, ◌<◌, ◌≤◌};
ghost use Rattle.blk_deps.specs.Layout.{IsLayout, places_in, cells_in, cell_words, value_words, block_words, row_words, block_at, slot};

/// A row begins with a word for what speaks of no cell, then has one word for each operand, its bytes that aren't
/// written yet, and then a block of words for each cell: which cells' entry values its value isn't, what it comes from,
/// its pairs, and the cell's overwriters.
#[derive(Clone, Copy, Debug, PartialEq, Eq)]
pub struct Layout {
    /// How many operands the statement has, at most 30.
    pub operands: u32,
    /// How many pushed words have cells: 16, or 0 where nothing is pushed or popped.
    pub words: u32,
}

impl Layout {
    /// How many places there are: the registers and the operands.
    #[inline]
    pub fn places(&self) -> usize
        requires { IsLayout self.now }
        ensures { result ≡ places_in self.now }
    {
        7 + self.operands as usize
    }

    /// How many cells have a block: the bytes of places, the flags, the bytes of pushed words.
    #[inline]
    pub fn cells(&self) -> usize
        requires { IsLayout self.now }
        ensures { result ≡ cells_in self.now }
    {
        4 * self.places() + 6 + 4 * self.words as usize
    }

    /// How many words have a bit for each cell.
    #[inline]
    pub fn cell_words(&self) -> usize
        requires { IsLayout self.now }
        ensures { result ≡ cell_words self.now }
    {
        (self.cells() + 63) / 64
    }

    /// How many words a value has.
    #[inline]
    pub fn value_words(&self) -> usize
        requires { IsLayout self.now }
        ensures { result ≡ value_words self.now }
    {
        2 * self.cell_words() + 1 + self.places()
    }

    /// How many words a cell has: those of its value, and its overwriters.
    #[inline]
    pub fn block_words(&self) -> usize
        requires { IsLayout self.now }
        ensures { result ≡ block_words self.now }
    {
        self.value_words() + 1
    }

    /// How many words a row has.
    #[inline]
    pub fn row_words(&self) -> usize
        requires { IsLayout self.now }
        ensures { result ≡ row_words self.now }
    {
        1 + self.operands as usize + self.cells() * self.block_words()
    }

    /// The number of a cell among those that have a block.
    #[inline]
    pub fn slot(&self, cell: u8) -> Option<usize>
        requires { IsLayout self.now }
        ensures { result ≡ slot self.now cell }
    {
        let cell = cell as usize;
        let bytes = 4 * self.places();
        if cell < 148 {
            if cell < bytes { Some(cell) } else { None }
        } else if cell < 154 {
            Some(bytes + (cell - 148))
        } else if cell < 154 + 4 * self.words as usize {
            Some(bytes + 6 + (cell - 154))
        } else {
            None
        }
    }

    /// The first word of the block of the cell with that number.
    #[inline]
    pub(crate) fn block(&self, slot: usize) -> usize
        requires layout { IsLayout self.now }
        requires slot { slot < cells_in self.now }
        ensures at { result ≡ block_at self.now slot }
        ensures inside { result + block_words self.now ≤ row_words self.now }
    {
        1 + self.operands as usize + slot * self.block_words()
    }
}
