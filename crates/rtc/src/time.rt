// Codes of numbers, and the registers that count time.
ghost use Rattle.std.specs.Prelude.{◌≡◌, ◌-◌, ◌<◌, ◌≤◌, IfSome};
ghost use Rattle.rtc.specs.Rtc as rules;

use crate::state::{Counter, PLACES};
use std::ops::Range;

const SECOND: Counter = Counter {
    at: 0,
    first: 0,
    last: 59,
};

const MINUTE: Counter = Counter {
    at: 2,
    first: 0,
    last: 59,
};

const HOUR: Counter = Counter {
    at: 4,
    first: 0,
    last: 23,
};

// How numbers are coded: each by its own byte if `binary`, else by 16 × tens + units. A flag and no enum: the
// definitions of codes and counters take register B's bit as it is, and each clause would turn an enum back into it.
#[derive(Clone, Copy)]
pub(crate) struct Coding {
    pub(crate) binary: bool,
}

impl Coding {
    fn code(self, n: u8) -> u8
        requires { n < 100 }
        ensures { result ≡ rules.code self.binary n }
    {
        if self.binary {
            n
        } else {
            16 * (n / 10) + n % 10
        }
    }

    // The number of a range whose code a byte is.
    fn find(self, range: Range<u8>, byte: u8) -> Option<u8>
        requires { range.end ≤ 100 }
        ensures is { result ≡ rules.find self.binary range.start (range.end - range.start) byte }
        ensures below { IfSome result (λ n. n < range.end) }
    {
        let n = if self.binary {
            byte
        } else {
            10 * (byte / 16) + byte % 16
        };
        (range.contains(&n) && self.code(n) == byte).then_some(n)
    }
}

impl Counter {
    // Moves on, and answers whether it carries: a test of its own, as an overflow is, and no success.
    // No other function takes a counter, so its bounds stand here.
    fn advance(self, coding: Coding, registers: &mut [u8; PLACES]) -> bool
        requires { (self.at < 62) × (self.first < 100) × (self.last < 100) }
        ensures carry { result ≡ (rules.next_in coding.binary self registers.old).1 }
        ensures moved { registers.new ≡ rules.moved coding.binary self registers.old }
    {
        let found = coding.find(self.first..self.last, registers[self.at]);
        registers[self.at] = coding.code(found.map_or(self.first, |n| n + 1));
        found.is_none()
    }
}

// Moves the time of day on by a second.
pub(crate) fn advance_second(coding: Coding, registers: &mut [u8; PLACES])
    ensures { registers.new ≡ rules.advanced coding.binary registers.old }
{
    if SECOND.advance(coding, registers) && MINUTE.advance(coding, registers) {
        HOUR.advance(coding, registers);
    }
}
