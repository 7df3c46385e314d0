//! A site of one scope.
ghost use Rattle.std.specs.Prelude.{◌≡◌, ◌≤◌, ◌<◌, length, IfOk};
ghost use Rattle.slp_scopes.specs.Scopes.{printed_scopes};

use access_rules::Rules;
use directory_judge::Site;
use directory_state::Directory;
use rule_files::rules_of_text;
use slp_scopes::ScopeList;
use slp_text::NoMemory;
use srv_template::Templates;
use std::alloc::Global;
use std::sync::Arc;
use table_registry::SiteRegistry;

/// Everyone may do everything everywhere.
pub const OPEN: &str = "\
version = 1
rule = [
    { name = 'all-register', from = ['0.0.0.0/0'], action = 'register', type = '*', scopes = ['*'], verdict = 'allow' },
    { name = 'all-withdraw', from = ['0.0.0.0/0'], action = 'withdraw', type = '*', scopes = ['*'], verdict = 'allow' },
    { name = 'all-see', from = ['0.0.0.0/0'], action = 'see', type = '*', scopes = ['*'], verdict = 'allow' },
]
";

/// Nobody may do anything.
pub const CLOSED: &str = "version = 1";

/// What was read, where no fault is looked for.
pub fn found<T, E: Copy>(read: Result<T, E>) -> Result<T, NoMemory> {
    match read {
        Ok(found) => Ok(found),
        Err(_) => Err(NoMemory),
    }
}

/// The rules of a text.
pub fn rules_of(alloc: Global, text: &str) -> Result<Rules, NoMemory> {
    found(rules_of_text(alloc, text))
}

// The one scope of the site.
fn one_scope(alloc: Global) -> Result<ScopeList, NoMemory>
    ensures one { IfOk result (λ scopes. length scopes ≡ 1) }
    ensures short { IfOk result (λ scopes. length (printed_scopes scopes) ≤ 1024) }
{
    let scopes = found(ScopeList::parse(alloc, "DEFAULT"))?;
    let mut written = String::new(alloc);
    scopes.print_into(&mut written)?;
    if scopes.len() == 1 && written.len() <= 1024 {
        Ok(scopes)
    } else {
        Err(NoMemory)
    }
}

/// The site, with room for this many entries.
pub fn site(alloc: Global, capacity: usize) -> Result<Site, NoMemory>
    requires some { 0 < capacity }
    requires few { capacity ≤ 65536 }
    ensures { IfOk result (λ site. site.capacity ≡ capacity) }
{
    let scopes = one_scope(alloc)?;
    let templates = Arc::new(alloc, Templates::new(alloc))?;
    Ok(Site::new(scopes, capacity, templates, 1))
}

/// A directory of the site, with the rules of a text. It is boxed, since the proof of a function that lets go of one is long.
pub fn directory(
    alloc: Global,
    capacity: usize,
    rules: &str,
) -> Result<Box<Directory<SiteRegistry>>, NoMemory>
    requires some { 0 < capacity }
    requires few { capacity ≤ 65536 }
{
    let site = site(alloc, capacity)?;
    let rules = Arc::new(alloc, rules_of(alloc, rules)?)?;
    let Ok(registry) = SiteRegistry::with_capacity(alloc, capacity) else {
        return Err(NoMemory);
    };
    Ok(Box::new(alloc, Directory::open(alloc, registry, &site, rules)?)?)
}
