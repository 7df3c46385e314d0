ghost use Rattle.std.specs.Prelude.{◌≡◌, ◌<◌, IfSome};
ghost use Rattle.access_rules.specs.Deciding.{deciding, deed_in, number};

use access_rules::{Deed, Rules, Verdict};
use slp_text::Key;

/// The verdict of the first rule that fits a deed in a scope, else a denial by default.
pub fn verdict(rules: &Rules, deed: &Deed<'_>, scope: &Key) -> Verdict
    ensures value { result ≡ deciding rules.now (deed_in deed.now) scope.now }
    ensures within { IfSome result.rule (λ place. place < number rules.now) }
{
    let told = rules.verdict(deed, scope);
    told
}
