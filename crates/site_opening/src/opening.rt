//! What the files of a site say: its configuration, its rules and its templates, read in this order.
ghost use Rattle.std.specs.Prelude.{◌≡◌, length, is_some, Some, IfOk};
ghost use Rattle.site_config.specs.Configurations.{IsWithin};
ghost use Rattle.slp_text.specs.Reading.{read_map};
ghost use Rattle.site_opening.specs.Openings.{config_start_of, named_start_of, rules_start_of, start_of, started, templates_and, templates_start_of, AreNamed, AreOf, IsReadAs};
ghost use Rattle.site_opening.specs.Statuses.{read_start};

use crate::fault::{ReadFault, StartFault};
use crate::files;
use access_rules::Rules;
use rule_files::rules_of_text;
use site_config::Config;
use slp_text::Text;
use srv_template::Templates;
use std::alloc::Global;
use std::rt::Files;
use template_files::template_of_text;

/// What the files of a site say.
#[derive(Drop)]
pub struct SiteFiles {
    pub config: Config,
    pub rules: Rules,
    pub templates: Templates,
}

// The configuration in a file.
fn config_at<R: Files>(rt: &R, alloc: Global, path: &str) -> Result<Config, StartFault>
    ensures text { IsReadAs (λ text config. Unit {0}) config_start_of result }
    ensures limits { IfOk result IsWithin }
{
    let text = files::read(rt, alloc, path)?;
    match Config::from_text(alloc, text.as_str()) {
        Ok(config) => Ok(config),
        Err(fault) => Err(StartFault::from(fault)),
    }
}

// The rules that a text reads as.
fn rules_in(alloc: Global, text: &str) -> Result<Rules, ReadFault>
    ensures { IsReadAs (λ t rules. t ≡ Some text.now) rules_start_of (started read_start result) }
{
    match rules_of_text(alloc, text) {
        Ok(rules) => Ok(rules),
        Err(fault) => Err(ReadFault::Refused(fault)),
    }
}

/// The rules in a file; none where no file is named.
pub fn rules_at<R: Files>(rt: &R, alloc: Global, path: Option<&Text>) -> Result<Rules, ReadFault>
    ensures { IsReadAs (λ text rules. is_some text ≡ is_some path.entry) rules_start_of (started read_start result) }
{
    let Some(path) = path else {
        return Ok(Rules::new(Vec::new(alloc), Vec::new(alloc)));
    };
    let text = files::read(rt, alloc, path.as_str())?;
    rules_in(alloc, text.as_str())
}

// Adds the template that a text reads as.
fn add_template(alloc: Global, templates: &mut Templates, text: &str) -> Result<(), StartFault>
    ensures { IsReadAs (λ t added. t ≡ text.now) (templates_and templates.old) (read_map (λ x. templates.new) result) }
{
    match template_of_text(alloc, text) {
        Ok(template) => match templates.add(template) {
            Ok(()) => Ok(()),
            Err(fault) => Err(StartFault::from(fault)),
        },
        Err(fault) => Err(StartFault::from(fault)),
    }
}

// The templates in files.
fn templates_at<R: Files>(rt: &R, alloc: Global, paths: &[Text]) -> Result<Templates, StartFault>
    ensures { IsReadAs (λ texts templates. length texts ≡ length paths.now) templates_start_of result }
{
    let mut templates = Templates::new(alloc);
    for path in paths {
        let text = files::read(rt, alloc, path.as_str())?;
        add_template(alloc, &mut templates, text.as_str())?;
    }
    Ok(templates)
}

// The rules and the templates in the files that a configuration names.
fn named<R: Files>(rt: &R, alloc: Global, config: &Config) -> Result<(Rules, Templates), StartFault>
    ensures { IsReadAs (λ texts named. AreOf config.now texts) named_start_of result }
{
    let rules = rules_at(rt, alloc, config.rules.as_ref())?;
    let templates = templates_at(rt, alloc, config.templates.as_slice())?;
    Ok((rules, templates))
}

/// What the configuration in a file says, and the files that it names, which are read in this order: configuration, rules, templates.
pub fn open_site<R: Files>(rt: &R, alloc: Global, path: &str) -> Result<SiteFiles, StartFault>
    ensures texts { IsReadAs AreNamed start_of result }
    ensures limits { IfOk result (λ s. IsWithin s.config) }
{
    let config = config_at(rt, alloc, path)?;
    match named(rt, alloc, &config) {
        Ok((rules, templates)) => Ok(SiteFiles {
            config,
            rules,
            templates,
        }),
        Err(fault) => {
            drop(config);
            Err(fault)
        }
    }
}
