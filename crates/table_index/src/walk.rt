// Going through the frames of one owner, by the index.
ghost use Rattle.table_index.specs.Walking.{Walking};

use crate::index::SIZE;

// The frames of a kind that an owner has under a flag, from frame `at` of the kind on; `first` is the first frame of the kind, and it has `end` frames.
#[derive(Clone, Copy)]
pub struct Walk<'a> {
    pub table: &'a [u8],
    pub index: &'a [u16; SIZE],
    pub first: usize,
    pub end: usize,
    pub flag: usize,
    pub owner: usize,
    pub at: usize,
    pub ghost walking: { Walking table.now index.now first end flag owner at },
}

impl<'a> Iterator for Walk<'a> {
    ghost use Rattle.std.specs.Prelude.{◌-◌};
    ghost use Rattle.std.specs.Iterator.{at_most};
    ghost use Rattle.table_index.specs.Walk.{Stepped};

    type Item = usize;

    ghost next_gives = { Stepped };

    ghost remaining = { λ s. at_most (s.end - s.at) };

    fn next(&mut self) -> Option<usize> {
        let j = self.at;
        if self.end <= j {
            return None;
        }
        self.at = usize::from(self.index[self.first + j]);
        Some(j)
    }
}
