// Vertex sets: their members, and whether one lies inside another or meets it.
ghost use Rattle.std.specs.Prelude.{◌≡◌, ◌==◌, ◌&&◌, length};
ghost use Rattle.std.specs.List.{list_any, list_all};
ghost use Rattle.plain.specs.Links.{FirstOf};

// Whether v is a member.
pub(crate) fn has_vertex(set: &[u32], v: u32) -> bool
    ensures { result ≡ list_any (λ w. w == v) set.now }
{
    set.iter().any(|w| *w == v)
}

// Whether u and v are both members.
pub(crate) fn has_both(set: &[u32], u: u32, v: u32) -> bool
    ensures { result ≡ (list_any (λ w. w == u) set.now && list_any (λ w. w == v) set.now) }
{
    has_vertex(set, u) && has_vertex(set, v)
}

// Whether every member of a is one of b.
pub(crate) fn inside_of(a: &[u32], b: &[u32]) -> bool
    ensures { result ≡ list_all (λ v. list_any (λ w. w == v) b.now) a.now }
{
    a.iter().all(|v| has_vertex(b, *v))
}

// Whether some member of a is one of b.
pub(crate) fn meets_of(a: &[u32], b: &[u32]) -> bool
    ensures { result ≡ list_any (λ v. list_any (λ w. w == v) b.now) a.now }
{
    a.iter().any(|v| has_vertex(b, *v))
}

// The place of v among the members, or how many they are where it is none.
pub(crate) fn corner_of(set: &[u32], v: u32) -> usize
    ensures { FirstOf set.now (length set.now) v result }
{
    set.iter().position(|w| *w == v).unwrap_or(set.len())
}
