//! What holds of every rule file. The function does nothing: its contract is the law.
ghost use Rattle.std.specs.Prelude.{◌≡◌, true, Some, Ok};
ghost use Rattle.toml.specs.Data.{Members};
ghost use Rattle.access_rules.specs.Deciding.{SiteRules, is_without_owners};
ghost use Rattle.rule_files.specs.RuleFiles.{rules_in_table, version_in};
ghost use Rattle.rule_files.specs.declared.version.Version.TheVariants.{One};

/// A file of version 1 has no rules about owners.
pub fn the_first_version_has_no_owners()
    ensures { (table : Members) (rules : SiteRules) → version_in table ≡ Some One → rules_in_table table ≡ Ok rules → is_without_owners rules ≡ true }
{}
