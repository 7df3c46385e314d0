ghost use Rattle.std.specs.Prelude.{◌≡◌, ◌∷◌, ◌+◌, ◌<◌, [], length, IfOk, IfSome, MatchOption};
ghost use Rattle.attr_list.specs.Merging.{merged};

use crate::attrs::Attribute;
use slp_text::NoMemory;
use std::alloc::Global;
use std::cmp::Ordering;

// The attribute that comes first of two lists as one, and what is left of each.
fn front_of<'a>(
    standing: &'a [Attribute],
    coming: &'a [Attribute],
) -> Option<(&'a Attribute, &'a [Attribute], &'a [Attribute])>
    ensures parts { MatchOption result (merged standing.now coming.now ≡ []) (λ p. merged standing.now coming.now ≡ p.0.now ∷ merged p.1.now p.2.now) }
    ensures fewer { IfSome result (λ p. length p.1.now + length p.2.now < length standing.now + length coming.now) }
{
    match (standing.split_first(), coming.split_first()) {
        (None, None) => None,
        (Some((stands, left)), None) => Some((stands, left, coming)),
        (None, Some((comes, more))) => Some((comes, standing, more)),
        (Some((stands, left)), Some((comes, more))) => match stands.tag.cmp(&comes.tag) {
            Ordering::Less => Some((stands, left, coming)),
            Ordering::Equal => Some((comes, left, more)),
            Ordering::Greater => Some((comes, standing, more)),
        },
    }
}

/// Two lists in key order as one, where a tag that both have is as the second has it. It takes time for
/// the length of both.
pub fn merge(
    alloc: Global,
    standing: &[Attribute],
    coming: &[Attribute],
) -> Result<Vec<Attribute>, NoMemory>
    ensures { IfOk result (λ v. v.items ≡ merged standing.now coming.now) }
{
    let mut entries = Vec::new(alloc);
    let mut standing_rest = standing;
    let mut coming_rest = coming;
    while let Some((first, left, more)) = front_of(standing_rest, coming_rest) {
        entries.push(first.copy(alloc)?)?;
        standing_rest = left;
        coming_rest = more;
    }
    Ok(entries)
}
