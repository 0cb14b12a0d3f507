// Random words by their position.
ghost use Rattle.std.specs.Prelude.{◌≡◌, ◌+◌, ◌<◌, ◌^◌, length};
ghost use Rattle.run_journal.specs.Words.{words_at};

use rand_core::Rng;
use sampler::generator;

/// Fills `out` with the random words of a seed from position `at` on, counted from 0. Takes no memory.
pub fn words_at(seed: u64, at: u64, out: &mut [u32])
    requires { at + length out.old < 2 ^ 63 }
    ensures { out.new ≡ words_at seed at (length out.old) }
{
    let mut words = generator(seed);
    words.advance(at);
    for index in 0..out.len() {
        out[index] = words.next_u32();
    }
}
