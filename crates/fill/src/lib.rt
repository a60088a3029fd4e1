// Rows into lent bytes: they are counted on bytes of their own, refused where too few whole rows are lent, and written where they fit. The
// dial list and the table report are filled so. It uses codes and byte_writes.
#![tactic(auto)]

ghost use Rattle.std.specs.Prelude.{◌≡◌, ◌*◌, ◌<◌, ℕ, List, length};
ghost use Rattle.std.specs.Borrow.{MutBor};
ghost use Rattle.fill.specs.Fill.{Gathered, Filled};

use codes::Refusal;

// Fills bytes with the rows that `gather` puts into bytes and counts, size bytes a row. `own` are the bytes that they are counted on: rows
// that have room there take one pass, others one more.
pub fn fill<F: Fn(&mut [u8]) -> usize>(
    rows: &mut [u8],
    own: &mut [u8],
    size: usize,
    refusal: Refusal,
    gather: F,
) -> Result<usize, Refusal>
    requires sized { 0 < size }
    requires can { F.IsAlwaysCallable gather }
    ensures { (n : ℕ) (encoded : List ℕ) → length encoded ≡ n * size
        → ((p q : MutBor (List ℕ)) (k : ℕ) → F.post gather p k q → Gathered n size encoded p.now k q.now)
        → Filled refusal n size encoded rows.old rows.new result }
{
    let count = gather(own);
    if rows.len() / size < count {
        return Err(refusal);
    }
    let room = count * size;
    if room <= own.len() {
        byte_writes::copy(rows, own, room);
    } else {
        gather(rows);
    }
    Ok(count)
}
