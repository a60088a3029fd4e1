// Time on the air: for each record of a run the seconds of its band over itself and the earlier records that start at most 599 seconds
// before it, for groups that limit how long a station holds a shared channel. A public call. It uses codes and scan; its
// definitions use lists.
#![tactic(auto)]

ghost use Rattle.std.specs.Prelude.{get_or, ℕ, ◌≡◌, ◌<◌, length};
ghost use Rattle.airtime.specs.Airtime.{falls_of, runs_fit, totals_of, Totalled};
ghost use Rattle.airtime.specs.Laws.{Even, Held, Trimmed};

use codes::Refusal;

// The most records of a run.
pub const MOST_RECORDS: usize = 65536;

// How long before a record another one may start that counts.
const SPAN: u64 = 599;

// Whether a start lies below the one before it.
#[tactic(auto, unfolding(crate::specs::Airtime::falls_of))]
fn falls(starts: &[u64]) -> bool
    ensures { result ≡ falls_of starts.now }
{
    let pairs = starts.len().saturating_sub(1);
    scan::some(pairs, |i| starts[i + 1] < starts[i])
}

// Whether runs are of one length, and of no more records than a run may have.
fn runs_fit(starts: usize, bands: usize, seconds: usize, totals: usize) -> bool
    ensures { result ≡ runs_fit starts bands seconds totals }
{
    starts <= MOST_RECORDS && (bands == starts && (seconds == starts && totals == starts))
}

// A log: a start, a band and the seconds of each record, runs of one length, as C lends them.
#[derive(Clone, Copy)]
struct Log<'a> {
    starts: &'a [u64],
    bands: &'a [u8],
    seconds: &'a [u16],
    ghost even: { Even starts.now bands.now seconds.now },
    ghost words: { (j : ℕ) → get_or seconds.now j 0 < 65536 },
}

impl Log<'_> {
    // Record i is next: the tail moves to the first record that counts for it, and those that it passes leave the totals of their bands.
    #[tactic(auto, using(crate::specs::Laws::trimmed, crate::specs::Laws::trimmed_here))]
    fn move_tail(&self, held: &mut [u64; 256], tail: usize, i: usize) -> usize
        requires { (i < length self.now.starts.now) × Held self.now.starts.now self.now.bands.now self.now.seconds.now i tail held.old }
        ensures { Trimmed self.now.starts.now self.now.bands.now self.now.seconds.now i result held.new }
    {
        let start = self.starts[i];
        for at in tail..i {
            if start - self.starts[at] <= SPAN {
                return at;
            }
            let band = self.bands[at] as usize;
            held[band] -= self.seconds[at] as u64;
        }
        i
    }

    // Its totals, in one pass, with a total for each band.
    #[tactic(auto, using(crate::specs::Laws::fill_done))]
    fn slide(&self, totals: &mut [u64])
        requires { length totals.old ≡ length self.now.starts.now }
        ensures { totals.new ≡ totals_of self.now.starts.now self.now.bands.now self.now.seconds.now }
    {
        let mut held = [0u64; 256];
        let mut tail = 0;
        for i in 0..self.starts.len() {
            tail = self.move_tail(&mut held, tail, i);
            let band = self.bands[i] as usize;
            let before = held[band];
            let total = before + self.seconds[i] as u64;
            held[band] = total;
            totals[i] = total;
        }
    }
}

// The totals of a run of records, in the elements lent.
#[tactic(auto, using(crate::specs::Laws::in_order, crate::specs::Laws::fitting))]
pub fn totals(
    starts: &[u64],
    bands: &[u8],
    seconds: &[u16],
    totals: &mut [u64],
) -> Result<u32, Refusal>
    ensures { Totalled starts.now bands.now seconds.now totals.old totals.new result }
{
    if falls(starts) {
        return Err(Refusal::Starts);
    }
    if !runs_fit(starts.len(), bands.len(), seconds.len(), totals.len()) {
        return Err(Refusal::Runs);
    }
    let log = Log {
        starts,
        bands,
        seconds,
    };
    log.slide(totals);
    Ok(starts.len() as u32)
}
