// How the reading of a book ends.
ghost use Rattle.std.specs.Prelude.{ℕ, List, Some, None, MatchResult};
ghost use Rattle.book.specs.Reading.{Reads};
ghost use Rattle.book.specs.Records.{Entry};

use book::Book;
use refusal::Refusal;

// Reads a book to its end, or to the refusal that breaks it off.
fn read_through(octets: &[u8]) -> Result<(), Refusal>
    ensures { MatchResult result (λ _. (xs : List (ℕ × Entry)) × Reads octets.now xs None) (λ e. (xs : List (ℕ × Entry)) × Reads octets.now xs (Some e)) }
{
    for item in Book::open(octets)? {
        item?;
    }
    Ok(())
}

// The refusal that ends the reading of a book, if one does.
pub(crate) fn ending(octets: &[u8]) -> Option<Refusal>
    ensures { (xs : List (ℕ × Entry)) × Reads octets.now xs result }
{
    read_through(octets).err()
}
