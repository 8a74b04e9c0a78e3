// A row is copied to another.
ghost use Rattle.std.specs.Prelude.{pos};
ghost use Rattle.peer_table.specs.Places.{wide};
ghost use Rattle.peer_table.specs.Rows.{peer_at};
ghost use Rattle.peer_table.specs.Inner.Changed.{Changed};
ghost use Rattle.peer_table.specs.Inner.Moves.{Moved};

use super::put::{put_number, put_word};
use super::row::{number_at, word_at};
use super::{NUMBERS, Numbers, WORDS, Words};

// A row past the last reads as zeros, so `copy_within` would need a branch and a fill; and the two tables hold two types.
fn move_words(words: &mut Words, from: usize, to: usize)
    ensures { Moved 0 wide.words words.old words.new from to }
{
    for k in 0..WORDS {
        let x = word_at(words, from, k);
        put_word(words, to, k, x);
    }
}

fn move_numbers(numbers: &mut Numbers, from: usize, to: usize)
    ensures { Moved (pos 0) wide.numbers numbers.old numbers.new from to }
{
    for k in 0..NUMBERS {
        let x = number_at(numbers, from, k);
        put_number(numbers, to, k, x);
    }
}

// Its samples too.
pub fn move_row(words: &mut Words, numbers: &mut Numbers, from: usize, to: usize)
    ensures { Changed words.old words.new numbers.old numbers.new to (peer_at words.old numbers.old from) }
{
    move_words(words, from, to);
    move_numbers(numbers, from, to);
}
