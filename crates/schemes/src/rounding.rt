// Rounding, in this one place. The rest of the crate uses its laws alone.
ghost use Rattle.std.specs.Prelude.{◌≡◌, ◌^◌, ◌<◌, ◌≤◌, pos, MatchOption, unsigned_abs};
ghost use Rattle.std.specs.Int.{int_div_euclid};
ghost use Rattle.schemes.specs.Fractions.{Fraction, Worth};
ghost use Rattle.schemes.specs.Rounding.{Rounds, RoundingLaws, rounded};

// [over / under], or nothing where `under` is 0.
pub fn rounded_quotient(over: i32, under: u8) -> Option<i64>
    ensures value { MatchOption result (under ≡ 0) (λ n. (0 < under) × ((q : Fraction) → Worth q over under → (n ≡ rounded q) × Rounds q n)) }
    ensures laws { RoundingLaws }
{
    if under == 0 {
        return None;
    }
    Some(round(i64::from(over), u32::from(under)))
}

// [over / under]: the whole number r with r ≤ over / under + 1/2 < r + 1.
pub(crate) fn round(over: i64, under: u32) -> i64
    requires { (0 < under) × (under ≤ 2 ^ 12) × (unsigned_abs over ≤ 2 ^ 50) }
    ensures value { (q : Fraction) → Worth q over under → result ≡ rounded q }
    ensures rounds { (q : Fraction) → Worth q over under → Rounds q result }
    ensures laws { RoundingLaws }
{
    floor(2 * over + i64::from(under), 2 * under)
}

// The greatest whole number not above over / under.
fn floor(over: i64, under: u32) -> i64
    requires { 0 < under }
    ensures { result ≡ int_div_euclid over (pos under) }
{
    // most places have 2 or 4 neighbours of a class, and then no division is needed
    let bits = under.ilog2();
    if under == 1 << bits {
        return over >> bits;
    }
    over.div_euclid(i64::from(under))
}
