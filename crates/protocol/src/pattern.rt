// Texts that are made of a pattern.
ghost use Rattle.std.specs.Prelude.{◌≡◌, ◌<◌, ◌%◌, EachIndex, length, slice_index};

// A pattern over and over.
pub fn repeat(text: &mut [u8], pattern: &[u8])
    requires { 0 < length pattern.now }
    ensures { EachIndex text.new (λ k. slice_index text.new k ≡ slice_index pattern.now (k % length pattern.now)) }
{
    for (i, b) in text.iter_mut().enumerate() {
        *b = pattern[i % pattern.len()];
    }
}
