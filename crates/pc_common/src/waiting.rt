ghost use Rattle.std.specs.Prelude.{◌≡◌, ◌≤◌, length, take, drop};

/// How many bytes may wait in front of a sink.
pub(crate) const ROOM: usize = 4096;

/// Bytes that wait in front of a sink, in the order in which they go out.
#[derive(Drop)]
pub(crate) struct Waiting {
    bytes: [u8; ROOM],
    // What waits stands from here on,
    from: usize,
    // and ends before here.
    used: usize,
    ghost order: { from ≤ used },
    ghost within: { used ≤ 4096 },
}

impl Waiting {
    ghost use Rattle.std.specs.Prelude.{◌≡◌, ◌≤◌, ◌-◌, ◌+◌, ◌++◌, [], length, take, drop, min, nat_eq};
    ghost use Rattle.pc_common.specs.Waiting.{waiting_bytes};

    /// Nothing waits.
    pub(crate) fn new() -> Waiting
        ensures bytes { waiting_bytes result ≡ [] }
        ensures used { result.used ≡ 0 }
    {
        Waiting {
            bytes: [0; ROOM],
            from: 0,
            used: 0,
        }
    }

    /// What waits.
    pub(crate) fn as_slice(&self) -> &[u8]
        ensures { result.now ≡ waiting_bytes self.now }
    {
        part(&self.bytes, self.from, self.used)
    }

    /// Whether no byte has space after what waits.
    pub(crate) fn is_full(&self) -> bool
        ensures { result ≡ nat_eq self.now.used 4096 }
    {
        self.used == ROOM
    }

    /// Puts as many bytes of the piece as have space after what waits, and returns how many.
    pub(crate) fn put(&mut self, piece: &[u8]) -> usize
        ensures moved { result ≡ min (length piece.now) (4096 - self.old.used) }
        ensures bytes { waiting_bytes self.new ≡ waiting_bytes self.old ++ take result piece.now }
        ensures used { self.new.used ≡ self.old.used + result }
    {
        let n = piece.len().min(ROOM - self.used);
        let end = self.used + n;
        self.bytes[self.used..end].copy_from_slice(&piece[..n]);
        self.used = end;
        n
    }

    /// The first `n` bytes of what waits went out.
    pub(crate) fn drop_front(&mut self, n: usize)
        requires { n ≤ length (waiting_bytes self.old) }
        ensures bytes { waiting_bytes self.new ≡ drop n (waiting_bytes self.old) }
        ensures used { n ≡ length (waiting_bytes self.old) → self.new.used ≡ 0 }
    {
        self.from += n;
        if self.from == self.used {
            self.from = 0;
            self.used = 0;
        }
    }
}

/// The bytes from the one place up to the other.
fn part(bytes: &[u8], from: usize, to: usize) -> &[u8]
    requires order { from ≤ to }
    requires within { to ≤ length bytes.now }
    ensures { result.now ≡ drop from (take to bytes.now) }
{
    &bytes[..to][from..]
}
