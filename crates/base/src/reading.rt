// From bytes to a judged base.
ghost use Rattle.std.specs.Prelude.{◌≡◌, length, IfOk, Ok, MatchResult, OnOk};
ghost use Rattle.mesh.specs.Reading.{reading, records, blank};
ghost use Rattle.refusal.specs.declared.Fault.TheVariants.{Memory};
ghost use Rattle.mesh.specs.Laws.{Writing};
ghost use Rattle.mesh.specs.Records.{written};
ghost use Rattle.mesh.specs.Rules.{Rules};
ghost use Rattle.mesh.specs.Shape.{Shape, starting};
ghost use Rattle.base.specs.Bases.{shape, counted, Answers};
ghost use Rattle.base.specs.Drafts.{drafted, Failed};

use crate::base::Base;
use crate::counts::Counts;
use crate::draft::Draft;
use crate::meshes::Mesh;
use crate::record::{Record, next_record};
use mesh::Side;
use refusal::{Fault, Refusal};
use std::alloc::{AllocError, Global};

// The draft at the end record, and the bytes after it. A record has a byte at least, so there are no more turns than bytes.
// The counter is the record's number, which each refusal names: an iterator of records would hand it out beside each.
fn read_records<'a>(heap: Global, bytes: &'a [u8]) -> Result<(Draft, &'a [u8]), Fault>
    ensures { MatchResult result (λ p. records (length bytes.now) 0 blank bytes.now ≡ Ok (drafted p.0, p.1.now)) (λ f. Failed f (records (length bytes.now) 0 blank bytes.now)) }
{
    let mut draft = Draft::new(heap);
    let mut rest = bytes;
    for number in 0..bytes.len() {
        let (next, after) = next_record(rest, number)?;
        draft = draft.take(heap, next, number)?;
        if let Record::End = next {
            return Ok((draft, after));
        }
        rest = after;
    }
    Err(Fault::Refused(Refusal::Truncated(bytes.len())))
}

// The base that the bytes spell.
fn read_base(heap: Global, bytes: &[u8]) -> Result<Base, Fault>
    ensures { MatchResult result (λ b. reading bytes.now ≡ Ok (shape b)) (λ f. Failed f (reading bytes.now)) }
{
    let (draft, rest) = read_records(heap, bytes)?;
    if !rest.is_empty() {
        return Err(Fault::Refused(Refusal::TrailingByte(bytes.len().saturating_sub(rest.len()))));
    }
    let curves = draft.judge(heap)?;
    let Draft { mesh, named } = draft;
    drop(named);
    Ok(Base { mesh, curves })
}

impl Base {
    // The starting base: one triangle.
    pub fn start(heap: Global) -> Result<Base, AllocError>
        ensures { IfOk result (λ b. shape b ≡ starting) }
    {
        let round = [
            Side { tail: 0, head: 1 },
            Side { tail: 1, head: 2 },
            Side { tail: 2, head: 0 },
        ];
        let dims = Vec::from_slice(heap, &[0, 0, 0])?;
        let sizes = Vec::from_slice(heap, &[3])?;
        let sides = Vec::from_slice(heap, &round)?;
        let edges = Vec::from_slice(heap, &round)?;
        let curves = Vec::from_slice(heap, &[true, true, true])?;
        let mesh = Mesh {
            dims,
            sizes,
            sides,
            edges,
        };
        Ok(Base { mesh, curves })
    }

    pub fn counts(&self) -> Counts
        ensures { result ≡ counted (shape self.now) }
    {
        Counts {
            vertices: self.mesh.dims.len(),
            edges: self.mesh.edges.len(),
            faces: self.mesh.sizes.len(),
        }
    }

    // Reads the base that the bytes spell in the place of this one, which stays as it is where they are refused.
    pub fn read(&mut self, heap: Global, bytes: &[u8]) -> Result<Counts, Fault>
        ensures answer { Answers (reading bytes.now) result self.old self.new }
        ensures written { (s : Shape) → Rules s → bytes.now ≡ written s → MatchResult result (λ n. (shape self.new ≡ s) × (n ≡ counted s)) (λ f. f ≡ Memory) }
        ensures writing { OnOk result (Rules (shape self.new) × Writing (shape self.new) bytes.now) }
    {
        let base = read_base(heap, bytes)?;
        let counts = base.counts();
        *self = base;
        Ok(counts)
    }
}
