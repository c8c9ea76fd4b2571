// Draws from the generator of a schedule.
ghost use Rattle.std.specs.Prelude.{◌≡◌, ◌<◌};
ghost use Rattle.schedule_gen.specs.Draws.{generator_of, drawn_number, generator_after};

use rand_core::utils::NextWord;
use rand_pcg::Lcg64Xsh32;

/// The generator of the schedule of a number.
pub fn generator_of(n: u64) -> Lcg64Xsh32
    ensures { result ≡ generator_of n }
{
    Lcg64Xsh32::new(n, 1)
}

/// A number below `below`: the generator's next word modulo `below`.
pub fn draw(generator: &mut Lcg64Xsh32, below: u32) -> u32
    requires { 0 < below }
    ensures drawn { result ≡ drawn_number 0 below generator.old }
    ensures after { generator.new ≡ generator_after 1 generator.old }
    ensures fits { result < below }
{
    generator.next_word() % below
}
