// How many levels of subdivision a hierarchy may have.
ghost use Rattle.std.specs.Prelude.{◌≡◌};
ghost use Rattle.hierarchy.specs.Limits.{has_levels};

pub fn has_levels(levels: usize) -> bool
    ensures { result ≡ has_levels levels }
{
    (1..=5).contains(&levels)
}
