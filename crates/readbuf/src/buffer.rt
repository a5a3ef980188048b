// The calls of a read buffer.
ghost use Rattle.std.specs.Prelude.{◌≡◌, ◌+◌, ◌≤◌, ◌<◌, [], ◌++◌, length, take, drop, if◌then◌else◌, None, ◌==◌, nat_le};
ghost use Rattle.readbuf.specs.Held.{held};
ghost use Rattle.readbuf.specs.Marker.{first_marker, resumed, Within};

use crate::marker::{MARKER_LEN, find_marker};
use crate::store::{CAPACITY, ReadBuffer};

impl ReadBuffer {
    // A buffer that holds nothing; the first chunk goes to the front of the array.
    pub fn new() -> Self
        ensures bytes { held result ≡ [] }
        ensures room { result.end ≡ 0 }
    {
        ReadBuffer {
            bytes: [0; CAPACITY],
            start: 0,
            end: 0,
        }
    }

    // The held bytes.
    pub fn as_slice(&self) -> &[u8]
        ensures bytes { result.now ≡ held self.now }
        ensures len { length result.now ≤ 4096 }
    {
        &self.bytes[self.start..self.end]
    }

    // How many bytes are held.
    pub fn len(&self) -> usize
        ensures value { result ≡ length (held self.now) }
        ensures room { result ≤ 4096 }
    {
        self.end - self.start
    }

    // Whether nothing is held.
    pub fn is_empty(&self) -> bool
        ensures { result ≡ (length (held self.now) == 0) }
    {
        self.len() == 0
    }

    // How many bytes more can be held.
    pub fn room(&self) -> usize
        ensures { result + length (held self.now) ≡ 4096 }
    {
        CAPACITY - self.len()
    }

    // Moves the held bytes to the front of the array.
    fn move_to_front(&mut self)
        ensures same { held self.new ≡ held self.old }
        ensures room { self.new.end ≡ length (held self.old) }
    {
        let len = self.end - self.start;
        self.bytes.copy_within(self.start..self.end, 0);
        self.start = 0;
        self.end = len;
    }

    // Writes a chunk behind the held bytes.
    fn append(&mut self, chunk: &[u8])
        requires { self.old.end + length chunk.now ≤ 4096 }
        ensures after { held self.new ≡ held self.old ++ chunk.now }
        ensures stays { self.new.start ≡ self.old.start }
    {
        let end = self.end + chunk.len();
        self.bytes[self.end..end].copy_from_slice(chunk);
        self.end = end;
    }

    // Holds a chunk behind the held bytes, or refuses it whole where they would be more than 4,096 together. The held bytes
    // stay where they are if the chunk fits behind them. It answers a `bool`, whose clause compares the lengths: with one cause
    // of a refusal there is nothing more to tell.
    pub fn extend(&mut self, chunk: &[u8]) -> bool
        ensures value { result ≡ nat_le (length (held self.old) + length chunk.now) 4096 }
        ensures after { held self.new ≡ (if result then held self.old ++ chunk.now else held self.old) }
        ensures stays { self.old.end + length chunk.now ≤ 4096 → self.new.start ≡ self.old.start }
    {
        if chunk.len() > self.room() {
            return false;
        }
        if chunk.len() > CAPACITY - self.end {
            self.move_to_front();
        }
        self.append(chunk);
        true
    }

    // Drops the first n held bytes, or all where there are fewer. The rest stay where they are. Where all are dropped, the next
    // chunk goes to the front of the array.
    pub fn advance(&mut self, n: usize)
        ensures after { held self.new ≡ drop n (held self.old) }
        ensures room { length (held self.old) ≤ n → self.new.end ≡ 0 }
        ensures stays { n < length (held self.old) → self.new.start ≡ self.old.start + n }
    {
        if n < self.end - self.start {
            self.start += n;
        } else {
            self.clear();
        }
    }

    // Drops all held bytes.
    pub fn clear(&mut self)
        ensures after { held self.new ≡ [] }
        ensures room { self.new.end ≡ 0 }
    {
        self.start = 0;
        self.end = 0;
    }

    // The place of the first marker in the held bytes, by a search that starts six bytes before the searched ones end. It
    // is the first of all where the first `searched` bytes have none.
    pub fn find_marker_from(&self, searched: usize) -> Option<usize>
        ensures value { result ≡ resumed searched (held self.now) }
        ensures count { Within (length (held self.now)) result }
        ensures back { first_marker (take searched (held self.now)) ≡ None → result ≡ first_marker (held self.now) }
    {
        let from = searched.saturating_sub(MARKER_LEN).min(self.len());
        Some(from + find_marker(&self.as_slice()[from..])?)
    }
}
