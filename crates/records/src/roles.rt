// The role records of a block as an iterator.
ghost use Rattle.std.specs.Prelude.{◌≡◌, ◌+◌, ◌<◌, length};

use crate::role_length;

// The role records of a block, one after the other: where each begins, counted from the block's front, and the bytes from there on.
#[derive(Clone, Copy)]
pub struct RoleRecords<'a> {
    rest: &'a [u8],
    at: usize,
    // no slice has more bytes
    ghost within: { at + length rest.now < 9223372036854775808 },
}

impl<'a> RoleRecords<'a> {
    ghost use Rattle.records.specs.RoleRecords.{ahead, begins};

    // The role records of a block.
    pub fn of(block: &'a [u8]) -> RoleRecords<'a>
        ensures { ahead result ≡ begins 0 block.now }
    {
        RoleRecords { rest: block, at: 0 }
    }
}

impl<'a> Iterator for RoleRecords<'a> {
    ghost use Rattle.std.specs.Iterator.{YieldsFirstBy, item_count};
    ghost use Rattle.records.specs.RoleRecords.{ahead, read};

    type Item = (usize, &'a [u8]);

    ghost next_gives = { YieldsFirstBy read ahead };

    ghost remaining = { item_count ahead };

    fn next(&mut self) -> Option<(usize, &'a [u8])> {
        if self.rest.is_empty() {
            return None;
        }
        let record = (self.at, self.rest);
        let size = role_length(self.rest).min(self.rest.len());
        *self = RoleRecords {
            rest: &self.rest[size..],
            at: self.at + size,
        };
        Some(record)
    }
}
