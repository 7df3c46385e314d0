//! How a filter looks up what tags hold.
ghost use Rattle.std.specs.Prelude.{◌≡◌, ℕ, Bool, List};
ghost use Rattle.std.specs.FinMap as fin;
ghost use Rattle.std.specs.Option.{option_copied};
ghost use Rattle.attr_list.specs.Maps.{kept_attributes};
ghost use Rattle.attr_list.specs.Tests.{AcceptsAs};
ghost use Rattle.search_filter.specs.Looks.{IsLast};

use attr_list::{Attrs, Held};
use slp_text::Key;

// What a tag holds, where it is there and a test accepts it.
#[derive(Clone, Copy)]
pub struct Look<'a> {
    pub tag: &'a Key,
    pub held: Option<&'a Held>,
}

// Whether the last look is kept. What is said does not depend on it.
pub trait Keeps {
    fn keeps() -> bool;
}

// For a test that costs nothing, or little.
pub enum Never {}

impl Keeps for Never {
    #[inline(always)]
    fn keeps() -> bool {
        false
    }
}

// For a test that costs more than to compare two tags: it is asked once for a run of items about one tag.
pub enum Always {}

impl Keeps for Always {
    #[inline(always)]
    fn keeps() -> bool {
        true
    }
}

// What a tag holds, if it is there and a test accepts it. The test is asked only where the tag is there.
#[inline(always)]
fn look_up<'a, F: Fn(&Key) -> bool>(
    attributes: &'a Attrs,
    tag: &Key,
    accepts: &F,
) -> Option<&'a Held>
    requires { F.IsAlwaysCallable accepts.now }
    ensures { (p : List ℕ → Bool) → AcceptsAs F.Fn accepts.now p → option_copied result ≡ fin.get (kept_attributes attributes.now p) tag.now }
{
    match attributes.get(tag) {
        Some(held) if accepts(tag) => Some(held),
        _ => None,
    }
}

// The same, where the last look is kept of a tag that was asked about before.
#[inline(always)]
pub fn held_at<'a, K: Keeps, F: Fn(&Key) -> bool>(
    tag: &'a Key,
    attributes: &'a Attrs,
    accepts: &F,
    last: &mut Option<Look<'a>>,
) -> Option<&'a Held>
    requires callable { F.IsAlwaysCallable accepts.now }
    requires last { IsLast F.Fn accepts.now attributes.now last.old }
    ensures held { (p : List ℕ → Bool) → AcceptsAs F.Fn accepts.now p → option_copied result ≡ fin.get (kept_attributes attributes.now p) tag.now }
    ensures last { IsLast F.Fn accepts.now attributes.now last.new }
{
    if !K::keeps() {
        return look_up(attributes, tag, accepts);
    }
    if let Some(look) = *last
        && look.tag == tag
    {
        return look.held;
    }
    let held = look_up(attributes, tag, accepts);
    *last = Some(Look { tag, held });
    held
}
