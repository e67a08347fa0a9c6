// The nearest word of a block, and the next after one: the least key, cost before number, among all settings. A block of 8 positions with all indices
// free has a search of its own, and this or a single parity check (all free but the first) a pair of its own; all else goes by the pass. Relies on the
// crates tables, passes, short and numerals; outer/specs/Words.antt says what the words are, outer/specs/Search.antt what a key is.
ghost use Rattle.std.specs.Prelude.{◌≡◌, ℕ, ◌+◌, ◌<◌};
ghost use Rattle.std.proofs.Math.Option.{some};
ghost use Rattle.codebook.specs.Book.{Book};
ghost use Rattle.codec.specs.Ties.{Parities};
ghost use Rattle.outer.specs.Search.{key_of, SearchableValues};
ghost use Rattle.outer.specs.Words.{Word, nearest, next_after};
ghost use Rattle.outer.specs.Blocks.{parity_set, Bits, BlockTabled, candidate_of, Nexts};

use codebook::Tables;
use numerals::power;
use outer::{Next, Pair, Scratch};
use passes::least_two::key;
use passes::pass::find_two;
use short::bytes::search_bytes;
use short::flips::{pair_checked, pair_free};
use tables::Directions;
use tables::messages::walk;

// The least bound above the key of a cost and a number.
fn after(cost: u32, number: u32) -> u64
    requires { cost < 4294967295 }
    ensures { result ≡ key_of cost number + 1 }
{
    key(cost, number) + 1
}

// The nearest word of a block by its values, and the next after it, by one search: of all settings of its free bits, after the given parities, the least
// cost, equals by the smaller number.
pub fn nearest_pair(
    values: &[i32],
    tables: &Tables,
    start: usize,
    j: u32,
    parities: u32,
    scratch: &mut Scratch,
) -> Pair
    requires searchable { SearchableValues values.now tables.now.kinds start j }
    ensures first_value { (B : Book) (b : ℕ) (x : Parities) → BlockTabled B b tables.now.kinds tables.now.terms start j
        → Bits x → parities ≡ parity_set B x
        → (result.first ≡ candidate_of B (nearest B values.now x b))
        × ((w : Word) → nearest B values.now x b ≡ some w
        → result.second ≡ candidate_of B (next_after w B values.now x b)) }
    ensures sets_as_before { scratch.new.sets ≡ scratch.old.sets }
{
    let mut directions = Directions::new();
    walk(tables, start, power(j as usize), parities, &mut directions);
    match values.as_array::<8>() {
        Some(octet) if directions.free >= 8 => pair_free(octet, &directions),
        Some(octet) if directions.free == 7 && tables.kinds[start] != 0 => pair_checked(
            octet,
            &directions,
        ),
        _ => find_two(values, 0, &directions, scratch),
    }
}

// The next word of a block by its values, after the one with this cost and number and, where the pass went over all words, the next after it.
pub fn next_after(
    values: &[i32],
    tables: &Tables,
    start: usize,
    j: u32,
    parities: u32,
    cost: u32,
    number: u32,
    scratch: &mut Scratch,
) -> Next
    requires searchable { SearchableValues values.now tables.now.kinds start j }
    requires cost_bound { cost < 4294967295 }
    ensures fact { (B : Book) (b : ℕ) (x : Parities) (own : Word) → BlockTabled B b tables.now.kinds tables.now.terms start j
        → Bits x → parities ≡ parity_set B x → own.cost ≡ cost → own.number ≡ number
        → Nexts B values.now x b (next_after own B values.now x b) result }
{
    let mut directions = Directions::new();
    walk(tables, start, power(j as usize), parities, &mut directions);
    let bound = after(cost, number);
    match values.as_array::<8>() {
        Some(octet) if directions.free >= 8 => {
            let first = search_bytes(octet, &directions, bound, &mut scratch.sets);
            Next {
                first,
                second: first,
                known: false,
            }
        }
        _ => {
            let two = find_two(values, bound, &directions, scratch);
            Next {
                first: two.first,
                second: two.second,
                known: true,
            }
        }
    }
}
