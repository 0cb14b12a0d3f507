ghost use Rattle.std.specs.Prelude.{◌≡◌, ◌+◌, ◌≤◌, ◌++◌, length, vec_len, vec_capacity};
ghost use Rattle.sampler.specs.Draws.{drawn, drawn_rest};

use rand_core::Rng;

/// Replaces the words by the next `count` random words of a source. There is room for them.
pub fn draw_words<R: Rng>(source: &mut R, count: usize, words: &mut Vec<u32>)
    requires { count ≤ vec_capacity words.old }
    ensures words { words.new.items ≡ drawn count (R.stream source.old) }
    ensures len { length words.new.items ≡ count }
    ensures capacity { vec_capacity words.new ≡ vec_capacity words.old }
    ensures rest { R.stream source.new ≡ drawn_rest count (R.stream source.old) }
{
    words.clear();
    'fours: for _ in 0..count / 4 {
        draw_four(source, words);
    }
    'others: for _ in 0..count % 4 {
        words.push_reserved(source.next_u32());
    }
}

// Appends four random words. They are stored only when all of them are drawn: a store after each would send
// the state of the source through memory, which takes as long as the word.
fn draw_four<R: Rng>(source: &mut R, words: &mut Vec<u32>)
    requires { vec_len words.old + 4 ≤ vec_capacity words.old }
    ensures words { words.new.items ≡ words.old.items ++ drawn 4 (R.stream source.old) }
    ensures capacity { vec_capacity words.new ≡ vec_capacity words.old }
    ensures rest { R.stream source.new ≡ drawn_rest 4 (R.stream source.old) }
{
    let first = source.next_u32();
    let second = source.next_u32();
    let third = source.next_u32();
    let fourth = source.next_u32();
    words.push_reserved(first);
    words.push_reserved(second);
    words.push_reserved(third);
    words.push_reserved(fourth);
}
