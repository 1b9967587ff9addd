// A long input that takes no memory.
ghost use Rattle.std.specs.Prelude.{None};

use outside_io::{Failed, Source};

/// A source of so many line feeds. It never fails and doesn't tell what is left.
#[derive(Drop)]
pub struct LineFeeds {
    pub left: u64,
}

impl Source for LineFeeds {
    ghost left = { λ _. None };

    ghost faults = { λ _. 0 };

    ghost highest_count = { λ _. 0 };

    fn read(&mut self, into: &mut [u8]) -> Result<usize, Failed> {
        let count = (into.len() as u64).min(self.left);
        into[..count as usize].fill(b'\n');
        self.left -= count;
        Ok(count as usize)
    }
}
