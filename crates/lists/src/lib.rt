// Arrays with a count: how many of their places are held; in specs/ what is done with lists, and its laws.
// What knows neither packets nor the engine goes in here, once a second crate needs it; the rest stays where it is used.
#![tactic(auto)]

ghost use Rattle.std.specs.Prelude.{◌≡◌, min};

// A count that is too large means all.
pub fn held(count: usize, most: usize) -> usize
    ensures { result ≡ min count most }
{
    count.min(most)
}
