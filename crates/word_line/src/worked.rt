// What the promises of `write_word_line` and `read_word_line` suffice for: what is written is read, from the promises alone.
ghost use Rattle.std.specs.Prelude.{◌≡◌, ◌≤◌, ◌<◌, None, Some};
ghost use Rattle.refusal.specs.Limits.{seed_max};

use crate::{read_word_line, write_word_line};

// A line is read back as its three numbers, also after other lines were written before it and behind it.
pub fn read_between(start: u32, seed: u32, word: u32) -> Option<(u32, u32, u32)>
    requires { (start < 100000) × (seed ≤ seed_max) }
    ensures answer { result ≡ Some (start, seed, word) }
{
    let mut text = [b'.'; 63];
    write_word_line(&mut text, 21, start, seed, word);
    write_word_line(&mut text, 0, 0, 0, 0);
    write_word_line(&mut text, 42, 0, 0, 0);
    read_word_line(&text, 21)
}

// A line of which the text has twenty bytes is malformed.
pub fn read_cut_off() -> Option<(u32, u32, u32)>
    ensures answer { result ≡ None }
{
    let text = [b'1'; 20];
    read_word_line(&text, 0)
}
