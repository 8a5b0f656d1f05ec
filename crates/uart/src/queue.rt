// The receive queue.
ghost use Rattle.std.specs.Prelude.{◌≡◌, ◌<◌, ◌≤◌, [], ◌∷◌, ◌++◌, length, drop, slice_get};

use std::marker::Model;

// How many bytes a queue can hold.
const PLACES: usize = 16;

// The bytes that wait are the `count` from place `head` on, the oldest first; after the last place comes the first.
// The ring stays: with an `ArrayVec` a byte took three times as long to come in and go out (about 3 ns for 1 ns), and no guest's
// call may be slower than in plain Rust; `VecDeque` needs a heap.
#[derive(Drop)]
pub struct Queue {
    bytes: [u8; PLACES],
    head: usize,
    count: usize,
}

// Contracts see the bytes that wait, the oldest first.
impl Model for Queue {
    ghost use Rattle.std.specs.Prelude.{ℕ, List, ◌<◌, ◌≤◌};

    ghost Value = { List ℕ };

    ghost use Rattle.uart.specs.Ring.{held};

    ghost view = { held };

    ghost invariant = { λ queue. (queue.head < 16) × (queue.count ≤ 16) };
}

impl Queue {
    ghost use Rattle.uart.specs.Ring.{padded};

    // An empty queue.
    pub fn new() -> Queue
        ensures { result ≡ [] }
    {
        Queue {
            bytes: [0; PLACES],
            head: 0,
            count: 0,
        }
    }

    // A queue in which these bytes wait, the oldest first.
    pub fn filled(bytes: &[u8]) -> Queue
        requires { length bytes.now ≤ PLACES }
        ensures { result ≡ bytes.now }
    {
        let mut queue = Queue::new();
        for byte in bytes {
            queue.push(*byte);
        }
        queue
    }

    // How many bytes wait.
    pub fn len(&self) -> usize
        ensures { result ≡ length self.now }
    {
        self.count
    }

    // Appends a byte.
    pub fn push(&mut self, byte: u8)
        requires { length self.old < PLACES }
        ensures { self.new ≡ self.old ++ byte ∷ [] }
    {
        self.bytes[(self.head + self.count) % PLACES] = byte;
        self.count += 1;
    }

    // Takes the oldest byte out.
    pub fn pop(&mut self) -> Option<u8>
        ensures answer { result ≡ slice_get self.old 0 }
        ensures next { self.new ≡ drop 1 self.old }
    {
        if self.count == 0 {
            return None;
        }
        let oldest = self.bytes[self.head];
        self.head = (self.head + 1) % PLACES;
        self.count -= 1;
        Some(oldest)
    }

    // Writes the bytes that wait over `out`, the oldest first, and 0 after them.
    pub fn write(&self, out: &mut [u8])
        requires { length out.old ≡ PLACES }
        ensures { out.new ≡ padded self.now }
    {
        for (place, byte) in out.iter_mut().enumerate() {
            *byte = if place < self.count {
                self.bytes[(self.head + place) % PLACES]
            } else {
                0
            };
        }
    }
}
