// Numbers of a few bits each as one row of bits, read in groups of another size.
ghost use Rattle.std.specs.Prelude.{◌≡◌, ℕ, ◌+◌, ◌^◌, ◌<◌, ◌≤◌, drop, slice_index};
ghost use Rattle.std.specs.Slice.Iter.{iter_rest};

use std::slice::Iter;

// A reader that stands in a row of bits: those of numbers of WIDTH bits, the highest of each number first, and zeros behind
// the last.
#[derive(Drop)]
pub(crate) struct Bits<'a, const WIDTH: usize> {
    // The next bits as one number, and how many they are.
    held: u32,
    count: usize,
    // The numbers whose bits follow.
    rest: Iter<'a, u8>,
    ghost positive: { 0 < WIDTH },
    ghost narrow: { WIDTH ≤ 8 },
    ghost fits: { held < 2 ^ count },
    ghost few: { count < 16 },
    ghost small: { (i : ℕ) → slice_index (iter_rest rest) i < 2 ^ WIDTH },
}

// Where a reader stands is said by `At` in clauses, and by no model: the numbers that it stands in are the caller's.
impl<'a, const WIDTH: usize> Bits<'a, WIDTH> {
    ghost use Rattle.std.specs.Prelude.{List, length};
    ghost use Rattle.codes.specs.Bits.{At};
    ghost use Rattle.codes.specs.Bytes.{gathered, regrouped};

    // A reader before the first bit.
    pub(crate) fn of(numbers: &'a [u8]) -> Bits<'a, WIDTH>
        requires positive { 0 < WIDTH }
        requires narrow { WIDTH ≤ 8 }
        requires small { (i : ℕ) → slice_index numbers.now i < 2 ^ WIDTH }
        ensures { At WIDTH result numbers.now 0 }
    {
        Bits {
            held: 0,
            count: 0,
            rest: numbers.iter(),
        }
    }

    // Takes in one more number.
    fn load(&mut self)
        requires { self.old.count < 8 }
        ensures place { (xs : List ℕ) (p : ℕ) → At WIDTH self.old xs p → At WIDTH self.new xs p }
        ensures more { self.new.count ≡ self.old.count + WIDTH }
    {
        let number = next_or_zero(&mut self.rest);
        self.held = (self.held << WIDTH) + u32::from(number);
        self.count += WIDTH;
    }

    // The number of the next group of bits.
    fn take(&mut self, group: usize) -> u8
        requires { group ≤ 8 }
        ensures value { (xs : List ℕ) (p : ℕ) → At WIDTH self.old xs p → result ≡ gathered WIDTH xs p group }
        ensures place { (xs : List ℕ) (p : ℕ) → At WIDTH self.old xs p → At WIDTH self.new xs (p + group) }
    {
        while self.count < group {
            self.load();
        }
        self.count -= group;
        let number = self.held >> self.count;
        self.held %= 1 << self.count;
        number as u8
    }

    // Fills a buffer with the numbers of one group after the other.
    pub(crate) fn fill(mut self, group: usize, out: &mut [u8])
        requires { group ≤ 8 }
        ensures { (xs : List ℕ) → At WIDTH self.entry xs 0 → out.new ≡ regrouped WIDTH group xs (length out.old) }
    {
        for place in out {
            *place = self.take(group);
        }
    }
}

// The next number, or zero behind the last: by its definition a row of bits has zeros there.
fn next_or_zero(numbers: &mut Iter<'_, u8>) -> u8
    ensures value { result ≡ slice_index (iter_rest numbers.old) 0 }
    ensures rest { iter_rest numbers.new ≡ drop 1 (iter_rest numbers.old) }
{
    numbers.next().copied().unwrap_or(0)
}
