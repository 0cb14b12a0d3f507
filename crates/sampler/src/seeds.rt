ghost use Rattle.std.specs.Prelude.{◌≡◌};
ghost use Rattle.sampler.specs.Seeds.{seeded};

use rand_pcg::Lcg64Xsh32;

// The stream of the generator from which all words are drawn.
const STREAM: u64 = 54;

/// The generator of the random words of a seed.
pub fn generator(seed: u64) -> Lcg64Xsh32
    ensures { result ≡ seeded seed }
{
    Lcg64Xsh32::new(seed, STREAM)
}
