// The schemes for points, by their codes.
ghost use Rattle.std.specs.Prelude.{◌≡◌, Some, None, MatchResult};
ghost use Rattle.capi.specs.Schemes.{scheme_of};
ghost use Rattle.capi.specs.declared.stop.Stop.TheVariants.{UnknownScheme};

use crate::stop::Stop;

#[derive(Clone, Copy)]
pub enum PointScheme {
    Linear,
    Cubic,
}

// By the code: 1 linear, 2 cubic.
impl TryFrom<usize> for PointScheme {
    type Error = Stop;

    ghost try_from_gives = { λ code r. MatchResult r (λ s. scheme_of code ≡ Some s) (λ stop. (scheme_of code ≡ None) × (stop ≡ UnknownScheme code)) };

    fn try_from(code: usize) -> Result<PointScheme, Stop> {
        match code {
            1 => Ok(PointScheme::Linear),
            2 => Ok(PointScheme::Cubic),
            _ => Err(Stop::UnknownScheme(code)),
        }
    }
}
