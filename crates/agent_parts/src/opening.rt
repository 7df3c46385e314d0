//! What an agent starts with: what the files of its site say, as a site and rules that can be shared.
ghost use Rattle.std.specs.Prelude.{◌≡◌, IfOk};
ghost use Rattle.std.specs.Arc.{arc_value};
ghost use Rattle.agent_parts.specs.Openings.{IsBegun, site_with};
ghost use Rattle.site_config.specs.Configurations.{IsWithin};

use access_rules::Rules;
use directory_judge::Site;
use site_config::Config;
use site_opening::{SiteFiles, StartFault, open_site};
use srv_template::Templates;
use std::alloc::Global;
use std::rt::Files;
use std::sync::Arc;

// The site of a configuration, with these templates.
fn site(alloc: Global, config: &Config, templates: Templates, boot: u32) -> Result<Site, StartFault>
    requires { IsWithin config.now }
    ensures { IfOk result (λ site. site ≡ site_with config.now templates boot) }
{
    let templates = Arc::new(alloc, templates)?;
    let scopes = config.scopes.copy(alloc)?;
    Ok(Site::new(scopes, config.capacity, templates, boot))
}

/// What a server begins with: its configuration, and what the files say that it names.
#[derive(Drop)]
pub struct Beginning {
    pub config: Config,
    pub site: Site,
    pub rules: Arc<Rules>,
}

/// What the configuration in a file and the files that it names say. `boot` is the stamp of the site.
pub fn begun<R: Files>(
    rt: &R,
    alloc: Global,
    path: &str,
    boot: u32,
) -> Result<Beginning, StartFault>
    ensures { IfOk result (λ b. IsBegun b.config boot (arc_value b.rules) b.site) }
{
    let SiteFiles {
        config,
        rules,
        templates,
    } = open_site(rt, alloc, path)?;
    let told = site(alloc, &config, templates, boot);
    match (told, Arc::new(alloc, rules)) {
        (Ok(site), Ok(rules)) => Ok(Beginning {
            config,
            site,
            rules,
        }),
        _ => Err(StartFault::NoMemory),
    }
}
