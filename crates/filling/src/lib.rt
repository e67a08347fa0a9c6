// Filling u from data, testing u, and reading its data, by the loader's tables: of each index the code of its kind, 0 free, 1 zero, 2 + t the
// t-th tie, and the set of the ties that it is a term of. Relies on the crate codec: codec/specs/Code says what is filled, tested and read,
// codec/specs/Tabled what the tables hold. Contracts speak of all kinds that the tables hold; that there are some keeps the indices in range.

#![tactic(auto)]

ghost use Rattle.std.specs.Prelude.{◌≡◌, List, [], ◌<◌, length};
ghost use Rattle.laws.specs.Lists.{All};
ghost use Rattle.polar.specs.Bits.{Bit};
ghost use Rattle.codebook.specs.Book.{Kind, free_count};
ghost use Rattle.codec.specs.Code.{fill, free_bits, obeys_all};
ghost use Rattle.codec.specs.Tabled.{Coded, Tabled, Some, forced, absorbed};

use codebook::Tables;

// The bit that an index with this code, zero or tied, must have.
#[tactic(auto, using(std::proofs::lemmas::Bool::Decides::nat_tests), unfolding(codec::specs::Tabled::forced))]
fn forced(code: u8, parities: u32) -> u8
    requires { code < 34 }
    ensures { result ≡ forced code parities }
{
    if code < 2 {
        return 0;
    }
    ((parities >> (code - 2)) % 2) as u8
}

// The parities once a term of these ties has this bit.
fn absorbed(parities: u32, bit: u8, ties: u32) -> u32
    ensures { result ≡ absorbed parities bit ties }
{
    if bit == 1 { parities ^ ties } else { parities }
}

// Fills u from data bits.
pub fn fill(tables: &Tables, bits: &[u8], word: &mut [u8])
    requires some { Some (λ ks. Tabled ks tables.now.kinds tables.now.terms × (length ks ≡ length word.old) × (free_count ks ≡ length bits.now)) }
    requires all { All Bit bits.now }
    ensures { (ks : List Kind) → Tabled ks tables.now.kinds tables.now.terms → length ks ≡ length word.old →
        free_count ks ≡ length bits.now → word.new ≡ fill [] ks bits.now }
{
    let mut parities: u32 = 0;
    let mut next: usize = 0;
    for (i, bit) in word.iter_mut().enumerate() {
        let code = tables.kinds[i];
        let b = if code == 0 {
            let d = bits[next];
            next += 1;
            d
        } else {
            forced(code, parities)
        };
        *bit = b;
        parities = absorbed(parities, b, tables.terms[i]);
    }
}

// Whether every bit of u is what its kind asks.
pub fn obeys_all(tables: &Tables, u: &[u8]) -> bool
    requires some { Some (λ ks. Tabled ks tables.now.kinds tables.now.terms × (length ks ≡ length u.now)) }
    requires all { All Bit u.now }
    ensures { (ks : List Kind) → Tabled ks tables.now.kinds tables.now.terms → length ks ≡ length u.now →
        result ≡ obeys_all u.now 0 ks }
{
    let mut parities: u32 = 0;
    for (i, bit) in u.iter().enumerate() {
        let code = tables.kinds[i];
        if code != 0 && *bit != forced(code, parities) {
            return false;
        }
        parities = absorbed(parities, *bit, tables.terms[i]);
    }
    true
}

// The bits of u at the free indices.
pub fn free_bits(tables: &Tables, u: &[u8], bits: &mut [u8])
    requires { Some (λ ks. Coded ks tables.now.kinds × (length ks ≡ length u.now) × (free_count ks ≡ length bits.old)) }
    ensures { (ks : List Kind) → Coded ks tables.now.kinds → length ks ≡ length u.now →
        free_count ks ≡ length bits.old → bits.new ≡ free_bits ks u.now }
{
    let mut next: usize = 0;
    for (i, bit) in u.iter().enumerate() {
        let free = tables.kinds[i] == 0;
        if free {
            bits[next] = *bit;
            next += 1;
        }
    }
}
