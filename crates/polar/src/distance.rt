// A word's discrepancy from soft values. Relies on values.rt; specs/Soft.antt says what it is. No call of the library comes here: the decoder counts the
// discrepancy along its path. It is for programs that hold a word of their own against received values.
ghost use Rattle.std.specs.Prelude.{◌≡◌, ◌≤◌, length};
ghost use Rattle.laws.specs.Lists.{All};
ghost use Rattle.polar.specs.Soft.{discrepancy};
ghost use Rattle.polar.specs.Layers.{Within};

use crate::values::cost;

// The sum of the magnitudes over the positions where `word` differs from the hard decisions.
pub fn discrepancy(word: &[u8], values: &[i32]) -> u32
    requires word_len { (length word.now ≡ length values.now) × (length word.now ≤ 512) }
    requires all { All (Within 1048064) values.now }
    ensures { result ≡ discrepancy word.now values.now }
{
    let mut sum: u32 = 0;
    for (v, s) in word.iter().zip(values) {
        sum += cost(*v, *s);
    }
    sum
}
