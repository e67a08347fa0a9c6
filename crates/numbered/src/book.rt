// Loading a book, with its shape in a lent slice. Relies on the crates answers and loading; specs/Answers.antt says what it answers.
ghost use Rattle.std.specs.Prelude.{◌≡◌};
ghost use Rattle.numbered.specs.Answers.{load_answer};

use answers::length_mismatch;
use loading::load;

// Loads a book: its n, k and V.
pub fn load_answer(book: &[u8], shape: &mut [u32]) -> u32
    ensures { let a = load_answer book.now shape.old in (result ≡ a.number) × (shape.new ≡ a.slice) }
{
    let loaded = load(book);
    let fits = shape.len() == 3;
    if !fits {
        return length_mismatch(loaded);
    }
    match loaded {
        Ok(s) => {
            shape.copy_from_slice(&[s.n, s.k, s.blocks]);
            0
        }
        Err(r) => {
            shape.fill(0);
            u32::from(r)
        }
    }
}
