//! A place in rising numbers, found by halving.

ghost use Rattle.std.specs.Prelude.{ℕ, ◌≡◌, ◌<◌, ◌≤◌, length, slice_index_or};
ghost use Rattle.ct_script.specs.Lines.{NeverFalls, IsFirstFrom, IsGap};

/// The first place at which a step is at least this one; where none is, how many steps there are.
pub(crate) fn first_from(steps: &[u32], step: u64) -> usize
    requires { NeverFalls steps.now }
    ensures { IsFirstFrom steps.now step result }
{
    let mut low = 0;
    let mut high = steps.len();
    while low < high {
        let middle = low + (high - low) / 2;
        if (steps[middle] as u64) < step {
            low = middle + 1;
        } else {
            high = middle;
        }
    }
    low
}

/// How many numbers from this one on come before the next that is one of these steps, and `most` at most.
pub(crate) fn gap_from(steps: &[u32], from: u32, most: u32) -> u32
    requires { NeverFalls steps.now }
    ensures { IsGap steps.now from most result }
{
    let place = first_from(steps, from as u64);
    if place == steps.len() {
        return most;
    }
    let gap = steps[place] - from;
    if gap < most { gap } else { most }
}
