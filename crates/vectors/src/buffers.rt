// Buffers: those that the decoding calls are lent parts of, what a part holds before a call, and its checksum after (reference/README.md, "Recorded cases").
// Relies on no other file.
ghost use Rattle.std.specs.Prelude.{◌<◌};

// The workspace and the walk.
#[derive(Drop)]
pub struct Buffers {
    pub numbers: [i32; 270344],
    pub bytes: [u8; 262152],
    pub path: [i32; 16385],
    pub blocks: [i32; 16385],
    pub score: [i32; 16385],
}

// The start of a buffer: `count` entries, or all that there are.
pub fn lend<T>(buffer: &mut [T], count: usize) -> &mut [T] {
    let n = count.min(buffer.len());
    &mut buffer[..n]
}

// What an entry holds before a call.
pub trait Garbage {
    fn garbage(index: usize) -> Self;
}

impl Garbage for u8 {
    fn garbage(index: usize) -> u8 {
        ((37 * (index % 256) + 101) % 256) as u8
    }
}

impl Garbage for i32 {
    fn garbage(index: usize) -> i32 {
        ((7919 * (index % 65521) + 104729) % 65521) as i32 - 30000
    }
}

pub fn fill<T: Garbage + Drop>(buffer: &mut [T]) {
    for (i, entry) in buffer.iter_mut().enumerate() {
        *entry = T::garbage(i);
    }
}

// The number of 32 bits that an entry counts as: a negative one plus 2^32.
pub trait Counted {
    fn counted(&self) -> u32;
}

impl Counted for u8 {
    fn counted(&self) -> u32 {
        *self as u32
    }
}

impl Counted for i16 {
    fn counted(&self) -> u32 {
        (*self as i32).cast_unsigned()
    }
}

impl Counted for i32 {
    fn counted(&self) -> u32 {
        self.cast_unsigned()
    }
}

// The checksum of a buffer.
pub fn sum<T: Counted>(buffer: &[T]) -> u64
    ensures { result < 65521 }
{
    let mut sum: u64 = 0;
    for entry in buffer {
        sum = (31 * sum + entry.counted() as u64 % 65521) % 65521;
    }
    sum
}
