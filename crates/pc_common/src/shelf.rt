ghost use Rattle.std.specs.Prelude.{◌≡◌, ◌≤◌, ◌<◌, ◌+◌, ◌^◌, ◌++◌, None, Some, length, take, drop, min, is_some, true};
ghost use Rattle.pc_common.specs.Held.{sure_bytes, bytes_at, HoldsAt};
ghost use Rattle.pc_common.specs.Shelf.{left_of};

use super::held::Held;

/// The file that was started: its place among the held ones, and how many of its bytes were read.
#[derive(Clone, Copy)]
pub struct Started {
    file: usize,
    at: usize,
}

/// Held files, one of which may be started. A place past the last one stands for a file of no bytes.
pub struct Shelf {
    held: Held,
    started: Option<Started>,
}

// By hand: docs/DECISIONS.md, "Drops are written by hand".
impl Drop for Shelf {
    fn drop(self) {
        let Shelf {
            held: _,
            started: _,
        } = self;
    }
}

impl Shelf {
    pub fn new(held: Held) -> Self
        ensures { result ≡ record { held = held; started = None } }
    {
        Shelf {
            held,
            started: None,
        }
    }

    /// The place of the first file of this name.
    pub fn place_of(&self, name: &str) -> Option<usize>
        ensures { HoldsAt self.now.held name.now result }
    {
        for (k, file) in self.held.as_slice().iter().enumerate() {
            if file.name.as_slice() == name.as_bytes() {
                return Some(k);
            }
        }
        None
    }

    /// Starts the file at this place.
    pub fn open(&mut self, file: usize)
        ensures { self.new ≡ record self.old { started = Some (record { file = file; at = 0 }) } }
    {
        self.started = Some(Started { file, at: 0 });
    }

    /// Starts the first file of this name, or one of no bytes where there is none.
    pub fn open_sure(&mut self, name: &str)
        ensures held { self.new.held ≡ self.old.held }
        ensures started { is_some self.new.started ≡ true }
        ensures whole { sure_bytes self.old.held name.now ≡ Some (left_of self.new) }
    {
        let file = self.place_of(name).unwrap_or(self.held.len());
        self.open(file);
    }

    /// No file is started from now on.
    pub fn close(&mut self)
        ensures { self.new ≡ record self.old { started = None } }
    {
        self.started = None;
    }

    /// Moves the next bytes to the front of `buf`, as many as fit, but at most `most`.
    pub fn next(&mut self, buf: &mut [u8], most: usize) -> usize
        ensures moved { result ≡ min most (min (length buf.old) (length (left_of self.old))) }
        ensures bytes { left_of self.old ≡ take result buf.new ++ left_of self.new }
        ensures held { self.new.held ≡ self.old.held }
        ensures started { is_some self.new.started ≡ is_some self.old.started }
    {
        match self.started {
            None => 0,
            Some(started) => {
                let left = rest(&self.held, started);
                let n = most.min(buf.len().min(left.len()));
                buf[..n].copy_from_slice(&left[..n]);
                self.started = Some(Started {
                    file: started.file,
                    at: started.at + n,
                });
                n
            }
        }
    }
}

/// What is left of the file that was started.
fn rest(held: &Held, started: Started) -> &[u8]
    ensures value { result.now ≡ drop started.at (bytes_at held.now started.file) }
    ensures fits { started.at + length result.now < 2 ^ 64 }
{
    match held.as_slice().get(started.file) {
        None => &[],
        Some(file) => {
            let bytes = file.bytes.as_slice();
            &bytes[started.at.min(bytes.len())..]
        }
    }
}
