// A line of fixed room, put together piece by piece.
ghost use Rattle.std.specs.Prelude.{ℕ, ◌≤◌, List, take};

use std::fmt;
use std::marker::Model;

// The room of a line: no answer is longer.
const LINE: usize = 32768;

#[derive(Drop)]
pub struct Line {
    bytes: [u8; LINE],
    len: usize,
}

impl Model for Line {
    ghost Value = { List ℕ };

    ghost view = { λ l. take l.len l.bytes };

    ghost invariant = { λ l. l.len ≤ 32768 };
}

impl Line {
    pub fn new() -> Line {
        Line {
            bytes: [0; LINE],
            len: 0,
        }
    }

    pub fn clear(&mut self) {
        self.len = 0;
    }

    pub fn is_empty(&self) -> bool {
        self.len == 0
    }

    pub fn as_bytes(&self) -> &[u8] {
        &self.bytes[..self.len]
    }

    // What does not fit is dropped.
    pub fn put(&mut self, more: &[u8]) {
        let n = more.len().min(LINE - self.len);
        let end = self.len + n;
        self.bytes[self.len..end].copy_from_slice(&more[..n]);
        self.len = end;
    }
}

// A text that does not fit is refused whole.
impl fmt::Write for Line {
    fn write_str(&mut self, s: &str) -> fmt::Result {
        if LINE - self.len < s.len() {
            return Err(fmt::Error);
        }
        self.put(s.as_bytes());
        Ok(())
    }
}
