// Entries of the queue's order: made and read. Relies on no other file; specs/Entries.antt says what an entry holds.
ghost use Rattle.std.specs.Prelude.{◌≡◌, ◌<◌};
ghost use Rattle.polar.specs.Layers.{Within};
ghost use Rattle.order.specs.Entries.{key_at, slot_at, Packed};

// The entry of a path with this key in this slot.
pub fn entry(score: i32, blocks: u32, number: u32, slot: usize) -> u64
    requires { Within 2097151 score × (blocks < 1024) × (number < 32768) × (slot < 256) }
    ensures { Packed result (record { score = score; blocks = blocks; number = number }) slot }
{
    let raised = (score + 2097152) as u64;
    ((raised * 1024 + blocks as u64) * 32768 + (32767 - number) as u64) * 256 + slot as u64
}

// The slot of an entry.
#[tactic(auto, unfolding(crate::specs::Entries::slot_at))]
pub fn slot_of(e: u64) -> usize
    ensures { (result ≡ slot_at e) × (result < 256) }
{
    (e % 256) as usize
}

// The number of an entry's path.
#[tactic(auto, unfolding(crate::specs::Entries::key_at))]
pub fn number_of(e: u64) -> u32
    ensures { result ≡ (key_at e).number }
{
    32767 - (e / 256 % 32768) as u32
}

// Its blocks.
#[tactic(auto, unfolding(crate::specs::Entries::key_at))]
pub fn blocks_of(e: u64) -> u32
    ensures { result ≡ (key_at e).blocks }
{
    (e / 8388608 % 1024) as u32
}

// Its score.
pub fn score_of(e: u64) -> i32
    requires { e < 36028797018963968 }
    ensures { result ≡ (key_at e).score }
{
    (e / 8589934592) as i32 - 2097152
}
