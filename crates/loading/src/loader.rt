// A code book is loaded: its bytes are read once, command by command, and the first faulty one decides. Relies on the crates commands, obeying and
// codebook; codebook/specs/Loading says what loading is, codebook/specs/Tables what the tables hold.
ghost use Rattle.std.specs.Prelude.{◌≡◌, cond, ◌<◌};
ghost use Rattle.codebook.specs.Refusals.{outcome_number};
ghost use Rattle.codebook.specs.Loading.{load, refused, shape_of, number_by};
ghost use Rattle.codebook.specs.Tables.{loaded_up_to, Filled};
ghost use Rattle.codebook.specs.Progress.{shape_at};

use codebook::{Found, Progress, Refusal, Shape, Step, Tables};
use commands::read_command;
use obeying::obey;

// The shape at the end command, after which nothing may follow.
fn finish(p: Progress, follows: bool) -> Result<Shape, Refusal>
    ensures { result ≡ cond follows (shape_of (refused Refusal.Misplaced)) (Ok (shape_at p)) }
{
    if follows {
        return Err(Refusal::Misplaced);
    }
    Ok(Shape {
        m: p.m,
        n: p.n,
        k: p.free,
        blocks: p.blocks,
    })
}

// Loads a book into tables that the caller owns. Where it is refused, they hold what the commands before the faulty one loaded.
pub fn load_tables(book: &[u8], tables: &mut Tables) -> Result<Shape, Refusal>
    ensures answer { result ≡ shape_of (load book.now) }
    ensures filled { Filled (load book.now) (loaded_up_to book.now) tables.old tables.new }
{
    let mut p = Progress::start();
    let mut at = 0;
    while at < book.len() {
        let Some(
            Found {
                command,
                next,
                whole,
            },
        ) = read_command(book, at)
        else {
            return Err(Refusal::Unknown);
        };
        match obey(command, whole, p, tables)? {
            Step::Next(q) => {
                p = q;
                at = next;
            }
            Step::End(q) => {
                return finish(q, next < book.len());
            }
        }
    }
    Err(Refusal::Truncated)
}

// Loads a book: the answer alone.
pub fn load(book: &[u8]) -> Result<Shape, Refusal>
    ensures value { result ≡ shape_of (load book.now) }
    ensures number { outcome_number result ≡ number_by (load book.now) (λ _. 0) }
{
    let mut tables = Tables::empty();
    load_tables(book, &mut tables)
}
