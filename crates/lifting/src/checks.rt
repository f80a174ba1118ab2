// What a public call checks of what it is handed.
ghost use Rattle.std.specs.Prelude.{◌≡◌, Ok};
ghost use Rattle.lifting.specs.Calls.{fits_then, at_level, between_depths};

use hierarchy::Hierarchy;
use refusal::Refusal;

// Refuses values of another length than there are places.
fn check_length<H: Hierarchy>(h: &H, given: usize) -> Result<(), Refusal>
    ensures { result ≡ fits_then (H.meaning h.now) given (Ok tt) }
{
    if given != h.places() {
        return Err(Refusal::WrongLength(given));
    }
    Ok(())
}

// Refuses also a level that is not below the finest.
pub(crate) fn check_level<H: Hierarchy>(h: &H, given: usize, level: usize) -> Result<(), Refusal>
    ensures { result ≡ at_level (H.meaning h.now) given level }
{
    check_length(h, given)?;
    if level >= h.levels() {
        return Err(Refusal::NoSuchDepth(level));
    }
    Ok(())
}

// Refuses also a depth above the finest.
pub(crate) fn check_depths<H: Hierarchy>(
    h: &H,
    given: usize,
    from: usize,
    to: usize,
) -> Result<(), Refusal>
    ensures { result ≡ between_depths (H.meaning h.now) given from to }
{
    check_length(h, given)?;
    if from > h.levels() {
        return Err(Refusal::NoSuchDepth(from));
    }
    if to > h.levels() {
        return Err(Refusal::NoSuchDepth(to));
    }
    Ok(())
}
