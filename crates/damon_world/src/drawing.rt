ghost use Rattle.std.specs.Prelude.{◌≡◌, ◌*◌, ◌/◌, ◌+◌, ◌-◌, ◌≤◌, ◌<◌, ◌++◌, ℕ, length, replicate, slice_index, vec_capacity, vec_len};
ghost use Rattle.rand_core.specs.Stream.{Stream};
ghost use Rattle.sampler.specs.Draws.{drawn, drawn_rest};
ghost use Rattle.damon_world.specs.Drawing.{AreDrawn};

use rand_core::Rng;
use rand_pcg::Lcg64Xsh32;
use sampler::draw_words;

// From how many words on they are drawn in quarters. With fewer, the jumps take longer than they save.
const LEAST: usize = 256;

/// A source of random words that can jump ahead.
pub trait Jump: Rng {
    /// The source as it is after its next `count` words.
    fn after(&self, count: u64) -> Self
        ensures { Self.stream result ≡ drawn_rest count (Self.stream self.now) };
}

impl Jump for Lcg64Xsh32 {
    fn after(&self, count: u64) -> Self {
        // A clone of two numbers takes no memory.
        let Ok(mut later) = self.clone() else {
            unreachable!()
        };
        later.advance(count);
        later
    }
}

/// Replaces the words by the next `count` random words of a source. There is room for them.
pub fn draw_all<R: Jump + Drop>(source: &mut R, count: usize, words: &mut Vec<u32>)
    requires { count ≤ vec_capacity words.old }
    ensures words { words.new.items ≡ drawn count (R.stream source.old) }
    ensures len { length words.new.items ≡ count }
    ensures capacity { vec_capacity words.new ≡ vec_capacity words.old }
    ensures rest { R.stream source.new ≡ drawn_rest count (R.stream source.old) }
{
    if count < LEAST {
        draw_words(source, count, words);
        return;
    }
    words.truncate(count);
    fill_up(words, count);
    draw_in_quarters(source, words);
}

// Replaces the words by the next random words of a source. Each word of a source waits for the one before it,
// so four sources, each a quarter ahead of the one before it, draw their quarters side by side.
fn draw_in_quarters<R: Jump + Drop>(source: &mut R, words: &mut [u32])
    ensures words { words.new ≡ drawn (length words.old) (R.stream source.old) }
    ensures rest { R.stream source.new ≡ drawn_rest (length words.old) (R.stream source.old) }
{
    let quarter = words.len() / 4;
    let mut first = source.after(0);
    let mut second = first.after(quarter as u64);
    let mut third = second.after(quarter as u64);
    let mut fourth = third.after(quarter as u64);
    for index in 0..quarter {
        let (one, two) = (first.next_u32(), second.next_u32());
        let (three, four) = (third.next_u32(), fourth.next_u32());
        words[index] = one;
        words[quarter + index] = two;
        words[2 * quarter + index] = three;
        words[3 * quarter + index] = four;
    }
    draw_from(&mut fourth, words, 4 * quarter);
    *source = fourth;
}

// Replaces the words from place `from` on by the next random words of a source.
fn draw_from<R: Rng>(source: &mut R, words: &mut [u32], from: usize)
    requires { from ≤ length words.old }
    ensures len { length words.new ≡ length words.old }
    ensures kept { (p : ℕ) → p < from → slice_index words.new p ≡ slice_index words.old p }
    ensures words { (s : Stream) → R.stream source.old ≡ drawn_rest from s
        → AreDrawn s words.new from (length words.old) }
    ensures rest { (s : Stream) → R.stream source.old ≡ drawn_rest from s
        → R.stream source.new ≡ drawn_rest (length words.old) s }
{
    for place in from..words.len() {
        words[place] = source.next_u32();
    }
}

// Appends zeros until there are at least `count` items, for which there is room.
fn fill_up(items: &mut Vec<u32>, count: usize)
    requires { count ≤ vec_capacity items.old }
    ensures len { count ≤ vec_len items.new }
    ensures items { items.new.items
        ≡ items.old.items ++ replicate (count - length items.old.items) 0 }
    ensures capacity { vec_capacity items.new ≡ vec_capacity items.old }
{
    for _ in items.len()..count {
        items.push_reserved(0);
    }
}
