// Whether two entities are incident, from their vertex sets.
ghost use Rattle.std.specs.Prelude.{◌≡◌, false, ◌+◌, ◌≤◌, ◌<◌, take};
ghost use Rattle.std.proofs.Math.Option.{none};
ghost use Rattle.rules.specs.Truth as truth;
ghost use Rattle.plain.specs.Cells.{mesh_from};
ghost use Rattle.plain.specs.Sought.{Finds};
ghost use Rattle.kinds.specs.Refusals.{answer_number, answer_place, given};
ghost use Rattle.plain.specs.Answers.{by_counts, said_of};

use crate::numbering::{Entity, seek};
use crate::sets::{inside_of, meets_of};
use crate::stored::{Mesh, cell_at, share_cell};
use kinds::Refusal;

// The vertex set of an entity, if it is there: a vertex is its own, a cell's are stored, and between them it is looked for.
fn entity_of(mesh: &Mesh<'_>, entity: Entity) -> Option<[u32; 4]>
    requires dim { (0 < mesh.now.sizes.dim) × (entity.dim ≤ mesh.now.sizes.dim) }
    ensures { Finds (truth.entities (mesh_from mesh.now.sizes mesh.now.words.now) entity.dim) entity.dim entity.number result }
{
    let i = entity.number;
    if entity.dim == 0 {
        return if i < mesh.sizes.vertices {
            Some([i, 0, 0, 0])
        } else {
            None
        };
    }
    if entity.dim < mesh.sizes.dim {
        return seek(mesh, entity);
    }
    let at = i as usize;
    if at < mesh.sizes.cells {
        Some(cell_at(mesh.words, mesh.sizes.dim + 1, at))
    } else {
        None
    }
}

// Whether the second entity, whose vertices are b, is incident to the first, whose vertices are a.
fn incident(mesh: &Mesh<'_>, first: Entity, second: Entity, a: [u32; 4], b: [u32; 4]) -> bool
    requires dims { (first.dim ≤ mesh.now.sizes.dim) × (second.dim ≤ mesh.now.sizes.dim) }
    requires first_is { take (first.dim + 1) a ≡ truth.entity (mesh_from mesh.now.sizes mesh.now.words.now) first.dim first.number }
    requires second_is { take (second.dim + 1) b ≡ truth.entity (mesh_from mesh.now.sizes mesh.now.words.now) second.dim second.number }
    ensures { result ≡ truth.incident (mesh_from mesh.now.sizes mesh.now.words.now) first.dim second.dim first.number second.number }
{
    let d = first.dim;
    let e = second.dim;
    let i = first.number;
    let j = second.number;
    let ours = &a[..d + 1];
    let theirs = &b[..e + 1];
    if e < d {
        return inside_of(theirs, ours);
    }
    if d < e {
        return inside_of(ours, theirs);
    }
    if j == i {
        return false;
    }
    if d == 0 {
        return share_cell(mesh.words, mesh.sizes.dim + 1, mesh.sizes.cells, i, j);
    }
    meets_of(ours, theirs)
}

// The answer from the cells alone. Refusals: 17 for the first entity, 19 for the second.
pub(crate) fn worked_out(mesh: &Mesh<'_>, first: Entity, second: Entity) -> Result<bool, Refusal>
    requires dims { (0 < mesh.now.sizes.dim) × ((first.dim ≤ mesh.now.sizes.dim) × (second.dim ≤ mesh.now.sizes.dim)) }
    ensures number { answer_number result ≡ by_counts (mesh_from mesh.now.sizes mesh.now.words.now) first.dim second.dim first.number second.number }
    ensures yes { given false (λ y. y) result ≡ said_of (mesh_from mesh.now.sizes mesh.now.words.now) first.dim second.dim first.number second.number }
    ensures place { answer_place result ≡ none }
{
    let Some(a) = entity_of(mesh, first) else {
        return Err(Refusal::NoSuchEntity);
    };
    let Some(b) = entity_of(mesh, second) else {
        return Err(Refusal::NoSuchIndex);
    };
    Ok(incident(mesh, first, second, a, b))
}
