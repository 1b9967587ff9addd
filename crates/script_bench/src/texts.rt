// The text of a script of many lines: a head, openings, streams with operations of each kind, and picks.
use itoa::Buffer;
use std::alloc::{AllocError, Global};

/// How many lines of memory the script's machine has. They are opened and accessed in turn.
const LINES: u32 = 65536;

const OPENINGS: u32 = 64;

const STREAMS: u32 = 64;

/// How many operations each stream has: 65,536 in all.
const OPERATIONS: u32 = 1024;

/// More picks than fit into the longest text.
const PICKS: u32 = 10_000_000;

/// The most bytes of a line that isn't a pick, and of a pick.
const LONGEST: usize = 141;

const LONGEST_PICK: usize = 11;

/// The text while it is made: its lines, and how many bytes there may be.
#[derive(Drop)]
struct Draft {
    bytes: Vec<u8>,
    size: usize,
}

/// A script's text. Its openings, its operations and then its picks go on as long as a longest one fits into so many
/// bytes; the head stands there whatever the number is.
pub fn make_text(alloc: Global, size: usize) -> Result<Vec<u8>, AllocError> {
    let mut draft = Draft {
        bytes: Vec::with_capacity(alloc, size)?,
        size,
    };
    draft.put_head()?;
    draft.put_openings()?;
    for stream in 0..STREAMS {
        draft.put_stream(stream)?;
    }
    draft.put_picks()?;
    Ok(draft.bytes)
}

impl Draft {
    /// Whether so many bytes more fit.
    fn fits(&self, more: usize) -> bool {
        self.bytes.len().saturating_add(more) <= self.size
    }

    fn put_head(&mut self) -> Result<(), AllocError> {
        self.put_setting(b"hosts", 1)?;
        self.put_setting(b"lines", LINES)?;
        self.put_setting(b"filter", 4096)?;
        self.put_setting(b"ways", 256)?;
        self.put_setting(b"tags", 64)?;
        self.put_setting(b"credits", 64)?;
        self.put_setting(b"room", 200_000)
    }

    fn put_openings(&mut self) -> Result<(), AllocError> {
        for line in 0..OPENINGS {
            if !self.fits(LONGEST) {
                return Ok(());
            }
            self.put_named(b"open", line)?;
            self.put_line_bytes()?;
        }
        Ok(())
    }

    fn put_stream(&mut self, stream: u32) -> Result<(), AllocError> {
        if !self.fits(LONGEST) {
            return Ok(());
        }
        self.put_setting(b"stream", 0)?;
        for index in 0..OPERATIONS {
            if !self.fits(LONGEST) {
                return Ok(());
            }
            self.put_operation(stream.wrapping_mul(OPERATIONS).wrapping_add(index))?;
        }
        Ok(())
    }

    /// An operation of one of the three kinds, in turn.
    fn put_operation(&mut self, number: u32) -> Result<(), AllocError> {
        let line = number % LINES;
        match number % 3 {
            0 => self.put_setting(b"load", line),
            1 => {
                self.put_named(b"word", line)?;
                self.bytes.extend_from_slice(b" 7 0123456789abcdef\n")
            }
            _ => {
                self.put_named(b"whole", line)?;
                self.put_line_bytes()
            }
        }
    }

    fn put_picks(&mut self) -> Result<(), AllocError> {
        for number in 0..PICKS {
            if !self.fits(LONGEST_PICK) {
                return Ok(());
            }
            self.put_setting(b"pick", number.wrapping_mul(40503) % 65536)?;
        }
        Ok(())
    }

    /// A last word of 64 bytes, and the line feed.
    fn put_line_bytes(&mut self) -> Result<(), AllocError> {
        self.bytes.push(b' ')?;
        for _ in 0..8 {
            self.bytes.extend_from_slice(b"0123456789abcdef")?;
        }
        self.bytes.push(b'\n')?;
        Ok(())
    }

    /// A line of one word and one number.
    fn put_setting(&mut self, word: &[u8], number: u32) -> Result<(), AllocError> {
        self.put_named(word, number)?;
        self.bytes.push(b'\n')?;
        Ok(())
    }

    /// A word and a number.
    fn put_named(&mut self, word: &[u8], number: u32) -> Result<(), AllocError> {
        let mut buffer = Buffer::new();
        self.bytes.extend_from_slice(word)?;
        self.bytes.push(b' ')?;
        self.bytes
            .extend_from_slice(buffer.format(number).as_bytes())
    }
}
