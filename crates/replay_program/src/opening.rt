//! The rules with which a run begins.
ghost use Rattle.std.specs.Prelude.{◌≡◌, IfOk};
ghost use Rattle.replay_program.specs.OpeningRules.{opening_rules};

use access_rules::Rules;
use rule_files::{RuleFault, rules_of_text};
use slp_text::NoMemory;
use std::alloc::Global;

/// The rule file of these rules: everyone may do everything everywhere.
const OPENING_RULES: &str = "\
version = 1

[[rule]]
name = \"all-register\"
from = [\"0.0.0.0/0\"]
action = \"register\"
type = \"*\"
scopes = [\"*\"]
verdict = \"allow\"

[[rule]]
name = \"all-withdraw\"
from = [\"0.0.0.0/0\"]
action = \"withdraw\"
type = \"*\"
scopes = [\"*\"]
verdict = \"allow\"

[[rule]]
name = \"all-see\"
from = [\"0.0.0.0/0\"]
action = \"see\"
type = \"*\"
scopes = [\"*\"]
verdict = \"allow\"
";

/// The rules of that file.
pub fn rules(alloc: Global) -> Result<Rules, NoMemory>
    ensures { IfOk result (λ r. r ≡ opening_rules) }
{
    match rules_of_text(alloc, OPENING_RULES) {
        Ok(rules) => Ok(rules),
        Err(RuleFault::NoMemory) => Err(NoMemory),
        Err(RuleFault::Shape(_) | RuleFault::TwiceName | RuleFault::Toml) => unreachable!(),
    }
}
