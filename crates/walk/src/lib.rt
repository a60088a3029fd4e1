// Where a station stands in a rung walk, under one of two tables: the first state, a swap of the tables, and the opening of a walk (walk_step has
// its steps). Public calls. The state goes in and comes back by value. It uses codes, occupancy, profile and entry; its definitions use figures.
#![tactic(auto)]

ghost use Rattle.std.specs.Prelude.{◌≡◌};
ghost use Rattle.codes.specs.Refusal.{refusal_of};
ghost use Rattle.walk.specs.Walk.{no_edges, resting, first_state, other_image, state_valid, state_tests, swap_of, open_of, occupied_read};

use codes::{Checked, Refusal};
use occupancy::Edges;
use profile::Range;

// Where a station stands between two calls.
#[derive(Clone, Copy)]
pub struct WalkState {
    // What the rungs judged so far occupy, with their control frames.
    pub occupied: Edges,
    // How many were judged: the place of the next.
    pub place: u32,
    // The image in force, 0 or 1. A walk that is open goes by it to its end.
    pub image: u8,
    // 1 where a swap waits for the end of a walk, 1 where a walk is open; else 0.
    pub waiting: u8,
    pub walking: u8,
}

// The answer of a swap and of an opening.
#[derive(Clone, Copy)]
pub struct WalkAnswer {
    // Beside the state, which is the one that came.
    pub refusal: Checked,
    pub state: WalkState,
}

fn no_edges() -> Edges
    ensures { result ≡ no_edges }
{
    let nowhere = Range {
        low_hz: 0.0,
        high_hz: 0.0,
    };
    Edges {
        power: nowhere,
        spectral: nowhere,
    }
}

// Nobody is walking, and an image is in force.
pub fn resting(image: u8) -> WalkState
    ensures { result ≡ resting image }
{
    WalkState {
        occupied: no_edges(),
        place: 0,
        image,
        waiting: 0,
        walking: 0,
    }
}

// The first state: image 0 is in force.
pub fn first() -> WalkState
    ensures { result ≡ first_state }
{
    resting(0)
}

// The other of the two images.
pub fn other_image(image: u8) -> u8
    ensures { result ≡ other_image image }
{
    if image == 0 { 1 } else { 0 }
}

// Whether a state is one that a call gives.
#[tactic(auto, unfolding(crate::specs::Walk::state_valid))]
pub fn state_valid(w: WalkState) -> bool
    ensures { result ≡ state_valid w }
{
    if w.image > 1 || (w.waiting > 1 || (w.walking > 1 || w.place > 255)) {
        return false;
    }
    if w.walking == 0 {
        return w.waiting == 0 && w.place == 0;
    }
    w.place == 0 || entry::edges_valid(w.occupied)
}

// What a call refuses of a state: what the call itself rules out, then a state that no call gives.
pub fn state_refusal(w: WalkState, ruled_out: bool, n: Refusal) -> Checked
    ensures { result ≡ refusal_of (state_tests w ruled_out n) }
{
    if ruled_out {
        return Err(n);
    }
    if !state_valid(w) {
        return Err(Refusal::StationCode);
    }
    Ok(())
}

// What the rungs judged so far occupy, as it is read.
fn occupied_read(w: WalkState) -> Edges
    ensures { result ≡ occupied_read w }
{
    if w.place == 0 {
        no_edges()
    } else {
        entry::edges_read(w.occupied)
    }
}

// Changes to the other image: at once where nobody is walking, else at the walk's end.
#[tactic(auto, unfolding(crate::specs::Walk::swapped, crate::specs::Walk::swap_of))]
pub fn swap(w: WalkState) -> WalkAnswer
    ensures { result ≡ swap_of w }
{
    if let Err(n) = state_refusal(w, w.waiting == 1, Refusal::SecondSwap) {
        return WalkAnswer {
            refusal: Err(n),
            state: w,
        };
    }
    let state = if w.walking == 1 {
        WalkState {
            occupied: occupied_read(w),
            waiting: 1,
            ..w
        }
    } else {
        resting(other_image(w.image))
    };
    WalkAnswer {
        refusal: Ok(()),
        state,
    }
}

// Opens a walk, under the image in force.
#[tactic(auto, unfolding(crate::specs::Walk::open_of))]
pub fn open_walk(w: WalkState) -> WalkAnswer
    ensures { result ≡ open_of w }
{
    if let Err(n) = state_refusal(w, w.walking == 1, Refusal::Walk) {
        return WalkAnswer {
            refusal: Err(n),
            state: w,
        };
    }
    WalkAnswer {
        refusal: Ok(()),
        state: WalkState {
            walking: 1,
            ..resting(w.image)
        },
    }
}
