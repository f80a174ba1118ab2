// The byte reader: one record at a time from the front of the bytes.
ghost use Rattle.std.specs.Prelude.{◌≡◌, ◌≤◌, ◌∷◌};
ghost use Rattle.mesh.specs.Records.{next};
ghost use Rattle.base.specs.Views.{seen};

use mesh::Side;
use refusal::Refusal;

// A record of a base. A face's body is left as it stands: two bytes for each corner.
#[derive(Clone, Copy)]
pub enum Record<'a> {
    Vertex(u8),
    Face(&'a [u8]),
    Curve(Side),
    End,
}

// The record at the front of `bytes`, which is record `number` of its base, and the bytes after it.
pub fn next_record<'a>(bytes: &'a [u8], number: usize) -> Result<(Record<'a>, &'a [u8]), Refusal>
    ensures { seen result ≡ next number bytes.now }
{
    match bytes {
        [0, rest @ ..] => Ok((Record::End, rest)),
        [1, dimension, rest @ ..] => Ok((Record::Vertex(*dimension), rest)),
        [2, a, b, c, d, rest @ ..] => {
            let tail = u16::from_le_bytes([*a, *b]);
            let head = u16::from_le_bytes([*c, *d]);
            Ok((Record::Curve(Side { tail, head }), rest))
        }
        [kind @ 3..=8, rest @ ..] => face_record(*kind, rest, number),
        [0..=2, ..] | [] => Err(Refusal::Truncated(number)),
        _ => Err(Refusal::UnknownKind(number)),
    }
}

// A face with `kind` corners, whose body stands at the front of `rest`.
fn face_record<'a>(
    kind: u8,
    rest: &'a [u8],
    number: usize,
) -> Result<(Record<'a>, &'a [u8]), Refusal>
    requires { (3 ≤ kind) × (kind ≤ 8) }
    ensures { seen result ≡ next number (kind ∷ rest.now) }
{
    let Some((body, after)) = rest.split_at_checked(2 * usize::from(kind)) else {
        return Err(Refusal::Truncated(number));
    };
    Ok((Record::Face(body), after))
}
