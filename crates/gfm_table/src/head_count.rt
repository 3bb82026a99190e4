// The head's counter `size_b` in 8 bits, one step of it: request U4 has the row machine count by it, which does not yet. Only whether it is above
// 1 is asked, so it goes no further than 2.
ghost use Rattle.std.specs.Prelude.{◌≡◌};
ghost use Rattle.gfm_table.specs.HeadCount.{saturating_inc};

// One more, standing still at 2. No `min`: a number above 2 stays as it came.
pub fn saturating_inc(n: u8) -> u8
    ensures { result ≡ saturating_inc n }
{
    if n < 2 { n + 1 } else { n }
}
