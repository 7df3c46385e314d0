//! What a scene begins with.
ghost use Rattle.std.specs.Prelude.{◌<◌, ◌≤◌, IfOk};
ghost use Rattle.site_config.specs.Configurations.{IsWithin};

use crate::words::{cut, number_of};
use access_rules::Rules;
use directory_judge::Site;
use directory_state::Directory;
use rule_files::rules_of_text;
use site_config::Config;
use slp_text::NoMemory;
use srv_template::Templates;
use std::alloc::Global;
use std::sync::Arc;
use table_registry::SiteRegistry;

/// The scopes of a scene.
const CONFIG: &str = "\
scopes = \"DEFAULT,A,B\"
listen = [\"127.0.0.1:4270\", \"127.0.0.2:4270\"]
capacity = 16
";

/// Everyone may do everything everywhere.
pub(crate) const OPENING_RULES: &str = "\
version = 1
rule = [
    { name = \"all-register\", from = [\"0.0.0.0/0\"], action = \"register\", type = \"*\", scopes = [\"*\"], verdict = \"allow\" },
    { name = \"all-withdraw\", from = [\"0.0.0.0/0\"], action = \"withdraw\", type = \"*\", scopes = [\"*\"], verdict = \"allow\" },
    { name = \"all-see\", from = [\"0.0.0.0/0\"], action = \"see\", type = \"*\", scopes = [\"*\"], verdict = \"allow\" },
]
";

/// The directory of a site.
pub(crate) type Plain = Directory<SiteRegistry>;

/// A site with its rules, how many loops are to be there, or that there is one at a desk, and a directory of its own, to which the
/// same can be done.
#[derive(Drop)]
pub(crate) struct Beginning {
    pub is_desk: bool,
    pub site: Site,
    pub rules: Arc<Rules>,
    pub loops: usize,
    pub plain: Box<Plain>,
}

fn config(alloc: Global) -> Result<Config, NoMemory>
    ensures { IfOk result IsWithin }
{
    match Config::from_text(alloc, CONFIG) {
        Ok(config) => Ok(config),
        Err(_) => Err(NoMemory),
    }
}

fn site(alloc: Global, capacity: usize) -> Result<Site, NoMemory>
    requires some { 0 < capacity }
    requires few { capacity ≤ 65536 }
{
    let config = config(alloc)?;
    let scopes = config.scopes.copy(alloc)?;
    let templates = Arc::new(alloc, Templates::new(alloc))?;
    Ok(Site::new(scopes, capacity, templates, 1))
}

/// The rules that a text reads as.
pub(crate) fn rules_of(alloc: Global, text: &str) -> Result<Rules, NoMemory> {
    match rules_of_text(alloc, text) {
        Ok(rules) => Ok(rules),
        Err(_) => Err(NoMemory),
    }
}

fn plain(alloc: Global, site: &Site, rules: &Arc<Rules>) -> Result<Box<Plain>, NoMemory> {
    let rules = Arc::try_clone(rules)?;
    let Ok(registry) = SiteRegistry::with_capacity(alloc, site.capacity()) else {
        return Err(NoMemory);
    };
    let directory = Directory::open(alloc, registry, site, rules)?;
    Ok(Box::new(alloc, directory)?)
}

/// What a line `open LOOPS CAPACITY` or `desk LOOPS CAPACITY` says.
pub(crate) fn read_head(alloc: Global, head: &str) -> Result<Beginning, NoMemory> {
    let (word, numbers) = cut(head);
    let (loops, capacity) = cut(numbers);
    let capacity = (number_of(capacity, 65_536) as usize).max(1);
    let site = site(alloc, capacity)?;
    let rules = Arc::new(alloc, rules_of(alloc, OPENING_RULES)?)?;
    let plain = plain(alloc, &site, &rules)?;
    Ok(Beginning {
        is_desk: word == "desk",
        site,
        rules,
        loops: number_of(loops, 100) as usize,
        plain,
    })
}
