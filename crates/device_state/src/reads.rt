// What is read of what the device keeps.
ghost use Rattle.std.specs.Prelude.{◌≡◌, ◌<◌, length, option_map};
ghost use Rattle.device_record.specs.Record.{bytes_in, credits_at, request_with, requests_at, task_at};
ghost use Rattle.snoop_filter.specs.Rows.{held_in, listed_in};

use crate::tables::Tables;
use cxl_message::{Bytes64, Line, Listing, Tag};
use device_tables::{HostCredits, Task, Waiting};

impl Tables {
    /// The bytes of a line of memory, which exists.
    pub fn bytes(&self, line: Line) -> Bytes64
        requires { line.0 < length self.now.kept.memory }
        ensures { result ≡ bytes_in self.now.kept.memory line.0 }
    {
        Bytes64(*self.lines.bytes(line))
    }

    /// How a host is listed for a line; both exist.
    pub fn listing(&self, line: Line, host: u8) -> Listing
        requires line { line.0 < self.now.kept.filter.lines }
        requires host { host < self.now.kept.filter.hosts }
        ensures { result ≡ listed_in line.0 host self.now.kept.filter.rows }
    {
        self.filter.listed(line, host)
    }

    /// Whether a line, which exists, has a row that is held.
    pub fn is_held(&self, line: Line) -> bool
        requires { line.0 < self.now.kept.filter.lines }
        ensures { result ≡ held_in line.0 self.now.kept.filter.rows }
    {
        self.filter.held(line)
    }

    /// The credits of a host; none of a host that the setup hasn't.
    pub fn credits_of(&self, host: u8) -> HostCredits
        ensures { result ≡ credits_at host self.now.kept.credits }
    {
        match self.credits.get(host as usize) {
            Some(credits) => *credits,
            None => HostCredits::full(0),
        }
    }

    /// The first buffered request of a host with a tag.
    pub fn request(&self, host: u8, tag: Tag) -> Option<Waiting>
        ensures { result ≡ request_with tag.0 (requests_at host self.now.kept.requests) }
    {
        match self.requests.get(host as usize) {
            Some(requests) => requests.with_tag(tag),
            None => None,
        }
    }

    /// The task with a first line.
    pub fn task(&self, first: u32) -> Option<&Task>
        ensures { option_map (λ t. t.now) result ≡ task_at first self.now.kept.tasks }
    {
        self.tasks.with_first(first)
    }
}
