// The samples of a neighbour: the first of 20 places in its row, in the order in which they were taken. The times of the pings that they answer are in 20
// more, under the same count.
ghost use Rattle.std.specs.Prelude.{◌≡◌, List, ◌<◌, ◌+◌, ◌≤◌, ℤ, pos, length, get_or};
ghost use Rattle.time.specs.Same.{same_time};
ghost use Rattle.lists.specs.Lists.{found, first};
ghost use Rattle.model.specs.Peers.{no_samples, sampled, median_offset};
ghost use Rattle.peer_table.specs.Places.{wide};
ghost use Rattle.peer_table.specs.Rows.{upto, number, peer_at};
ghost use Rattle.peer_table.specs.Inner.Changed.{with_samples, Changed};

use super::put::{put_number, put_word};
use super::row::word_at;
use super::{COUNT, MOST, NUMBERS, Numbers, PING_TIMES, SAMPLES, Words};
use peer::sort;
use time::{Duration, HostTime};

// No more are kept.
const MAX: usize = 20;

#[tactic(auto, using(crate::specs::Laws::Samples::sample_count))]
pub fn sample_count(words: &Words, i: usize) -> usize
    ensures { (numbers : List ℤ) → result ≡ length (peer_at words.now numbers i).samples.offsets }
{
    word_at(words, i, COUNT).min(MAX as u64) as usize
}

// The numbers of its samples, or of the times of their pings, by the place where they begin.
#[tactic(auto, using(crate::specs::Laws::Samples::sample_count))]
fn run_of<'a>(words: &'a Words, numbers: &'a Numbers, i: usize, at: usize) -> &'a [i64]
    requires { at + 20 ≤ wide.numbers }
    ensures { result.now ≡ upto (number numbers.now i) at (length (peer_at words.now numbers.now i).samples.offsets) }
{
    if i < MOST {
        let start = i * NUMBERS + at;
        &numbers[start..start + sample_count(words, i)]
    } else {
        &[]
    }
}

// The one in this place of those that were taken; 0 where there is none.
pub fn sample_at<'a>(words: &'a Words, numbers: &'a Numbers, i: usize, j: usize) -> Duration
    ensures { result.0 ≡ get_or (peer_at words.now numbers.now i).samples.offsets j (pos 0) }
{
    let samples = run_of(words, numbers, i, SAMPLES);
    Duration(samples.get(j).copied().unwrap_or(0))
}

// The time of the ping that the one in this place answers; 0 where there is none.
pub fn ping_time_at<'a>(words: &'a Words, numbers: &'a Numbers, i: usize, j: usize) -> HostTime
    ensures { result ≡ get_or (peer_at words.now numbers.now i).samples.ping_times j (record { 0 = pos 0 }) }
{
    let times = run_of(words, numbers, i, PING_TIMES);
    HostTime(times.get(j).copied().unwrap_or(0))
}

// Whether one of them answers a ping of this time.
pub fn has_ping_time<'a>(
    words: &'a Words,
    numbers: &'a Numbers,
    i: usize,
    ping_time: HostTime,
) -> bool
    ensures { result ≡ found (first (same_time ping_time) (peer_at words.now numbers.now i).samples.ping_times) }
{
    let times = run_of(words, numbers, i, PING_TIMES);
    times.contains(&ping_time.0)
}

// One more, unless all 20 places are taken.
pub fn push_sample(
    words: &mut Words,
    numbers: &mut Numbers,
    i: usize,
    ping_time: HostTime,
    v: Duration,
)
    ensures { Changed words.old words.new numbers.old numbers.new i (with_samples (sampled ping_time v.0) (peer_at words.old numbers.old i)) }
{
    let n = sample_count(words, i);
    if n < MAX {
        put_number(numbers, i, SAMPLES + n, v.0);
        put_number(numbers, i, PING_TIMES + n, ping_time.0);
        put_word(words, i, COUNT, (n + 1) as u64);
    }
}

pub fn clear_samples(words: &mut Words, i: usize)
    ensures { (numbers : List ℤ) → Changed words.old words.new numbers numbers i (with_samples (λ _. no_samples) (peer_at words.old numbers i)) }
{
    put_word(words, i, COUNT, 0);
}

// The one in the middle, of two the larger; 0 of none.
pub fn median<'a>(words: &'a Words, numbers: &'a Numbers, i: usize) -> Duration
    ensures { result.0 ≡ median_offset (peer_at words.now numbers.now i).samples.offsets }
{
    let samples = run_of(words, numbers, i, SAMPLES);
    let n = samples.len();
    if n == 0 {
        return Duration(0);
    }
    let mut copy = [0i64; MAX];
    copy[..n].copy_from_slice(samples);
    sort(&mut copy[..n]);
    Duration(copy[n / 2])
}
