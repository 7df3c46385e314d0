ghost use Rattle.std.specs.Prelude.{◌≡◌, ◌≤◌, [], IfOk, MatchResult};
ghost use Rattle.std.specs.Arc.{arc_value};
ghost use Rattle.std.specs.FinMap as fin;
ghost use Rattle.std.specs.Option.{option_map_or, option_copied};
ghost use Rattle.rule_files.specs.RuleFiles.{rules_in_text};
ghost use Rattle.rule_files.specs.declared.fault.RuleFault.TheVariants as rule_fault;
ghost use Rattle.directory_state.specs.Folds.{Fold};
ghost use Rattle.directory_state.specs.State.{opening_state};
ghost use Rattle.replay_program.specs.Worlds.{opening_listen, site_in};
ghost use Rattle.site_config.specs.Configurations.{config_of, IsWithin};
ghost use Rattle.site_config.specs.declared.fault.ConfigFault.TheVariants.{Range};
ghost use Rattle.replay_program.specs.OpeningRules.{opening_rules};
ghost use Rattle.replay_program.specs.Sites.{first_site};
ghost use Rattle.slp_text.specs.Reading.{read_then};
ghost use Rattle.template_files.specs.Reading.{template_in};
ghost use Rattle.srv_template.specs.Templates.{added_to, IsReading};
ghost use Rattle.srv_template.specs.declared.fault.ParseFault.TheVariants as template;

use crate::opening;
use access_rules::Rules;
use addresses::Addr;
use directory_judge::Site;
use directory_state::Directory;
use registry_core::RegistryFault;
use rule_files::{RuleFault, rules_of_text};
use site_config::{Config, ConfigFault};
use slp_answer::{Answer, Call, Sent, step};
use slp_scopes::ScopeList;
use slp_text::{NoMemory, Row, TextFault};
use srv_template::{ParseFault, Templates};
use std::alloc::Global;
use std::sync::Arc;
use table_registry::SiteRegistry;
use template_files::template_of_text;

/// The entries of the opening site.
const CAPACITY: usize = 16;

/// The boot stamp of the opening site.
const BOOT: u32 = 1;

/// 10.0.0.1, from which messages come at first.
const FIRST_ASKER: Addr = Addr(0x0a00_0001);

/// The port of the protocol (RFC 2608, section 4.1).
const PORT: u16 = 427;

/// 127.0.0.1, at which the first loop of the opening site listens.
const FIRST_LOOP: Addr = Addr(0x7f00_0001);

/// 127.0.0.2, at which the second does.
const SECOND_LOOP: Addr = Addr(0x7f00_0002);

/// What answers messages: the directory, the addresses and ports that are listened on, the loop at one
/// of them (counted from 0) to which messages come, the moment that was set, and from where they come.
#[derive(Drop)]
pub struct Agent {
    pub directory: Directory<SiteRegistry>,
    pub listen: Row<(Addr, u16)>,
    pub loop_index: usize,
    pub moment: u32,
    pub asker: Addr,
}

fn no_templates(alloc: Global) -> Result<Arc<Templates>, NoMemory>
    ensures { IfOk result (λ t. arc_value t ≡ fin.empty) }
{
    Ok(Arc::new(alloc, Templates::new(alloc))?)
}

// The site of one scope, `DEFAULT`, without templates.
fn opening_site(alloc: Global) -> Result<Site, NoMemory>
    ensures { IfOk result (λ s. s ≡ first_site) }
{
    let templates = no_templates(alloc)?;
    match ScopeList::parse(alloc, "DEFAULT") {
        Ok(scopes) => Ok(Site::new(scopes, CAPACITY, templates, BOOT)),
        Err(TextFault::NoMemory) => Err(NoMemory),
        Err(TextFault::BadEscape | TextFault::Reserved | TextFault::NotUtf8) => unreachable!(),
    }
}

// The addresses of its loops.
fn opening_addresses(alloc: Global) -> Result<Row<(Addr, u16)>, NoMemory>
    ensures { IfOk result (λ l. l ≡ opening_listen) }
{
    let listen = vec![in alloc; (FIRST_LOOP, PORT), (SECOND_LOOP, PORT)]?;
    Ok(Row::wrap(listen))
}

// The site that a configuration describes, with these templates, and the addresses of its loops.
fn site_of(config: Config, templates: Arc<Templates>) -> (Site, Row<(Addr, u16)>)
    requires { IsWithin config }
    ensures site { result.0 ≡ site_in (arc_value templates) config }
    ensures listen { result.1 ≡ config.listen }
{
    let Config {
        scopes,
        listen,
        capacity,
        ..
    } = config;
    (Site::new(scopes, capacity, templates, BOOT), listen)
}

// Templates and the one that a text is; a text that is not kept does not fit from its first line on.
fn templates_and(
    alloc: Global,
    templates: &Templates,
    text: Option<&str>,
) -> Result<Templates, ParseFault>
    ensures { IsReading result (read_then (added_to templates.now) (option_map_or template_in (option_copied text.entry) (Err (template.Line 1)))) }
{
    let Some(text) = text else {
        return Err(ParseFault::Line(1));
    };
    let template = template_of_text(alloc, text)?;
    let mut all = templates.share(alloc)?;
    all.add(template)?;
    Ok(all)
}

// The site with other templates.
fn site_with(alloc: Global, site: &Site, templates: Templates) -> Result<Site, NoMemory>
    ensures { IfOk result (λ s. s ≡ record site.now { templates = templates }) }
{
    let scopes = site.scopes().copy(alloc)?;
    let templates = Arc::new(alloc, templates)?;
    Ok(Site::new(scopes, site.capacity(), templates, site.boot()))
}

// A directory to which nothing happened, with rules that allow everything to everyone.
fn begin(alloc: Global, site: Site) -> Result<Directory<SiteRegistry>, NoMemory>
    ensures state { IfOk result (λ d. d ≡ opening_state (record { rules = opening_rules; site = site })) }
    ensures fold { IfOk result (λ d. Fold (record { rules = opening_rules; site = site }) [] d) }
{
    let rules = Arc::new(alloc, opening::rules(alloc)?)?;
    match SiteRegistry::with_capacity(alloc, site.capacity()) {
        Ok(registry) => Directory::open(alloc, registry, &site, rules),
        Err(RegistryFault::NoMemory) => Err(NoMemory),
        Err(RegistryFault::Full) => unreachable!(),
    }
}

// What a run begins anew with on the site of a configuration, with these templates.
fn begun_on(
    alloc: Global,
    config: Config,
    templates: &Templates,
) -> Result<(Directory<SiteRegistry>, Row<(Addr, u16)>), NoMemory>
    requires { IsWithin config }
    ensures state { IfOk result (λ r. (r.0 ≡ opening_state (record { rules = opening_rules; site = site_in templates.now config })) × (r.1 ≡ config.listen)) }
    ensures fold { IfOk result (λ r. Fold (record { rules = opening_rules; site = site_in templates.now config }) [] r.0) }
{
    let templates = Arc::new(alloc, templates.share(alloc)?)?;
    let (site, listen) = site_of(config, templates);
    let directory = begin(alloc, site)?;
    Ok((directory, listen))
}

impl Agent {
    ghost use Rattle.replay_program.specs.Opening.{opening_agent};
    ghost use Rattle.replay_program.specs.Sessions.{IsAgent, Takes, AddsTo, ConfiguresTo, MovesTo, ReloadsTo};
    ghost use Rattle.replay_program.specs.Worlds.{World, configured_world, own_at, reloaded_world, swept_world, templates_with};

    /// The setup with which a run begins: the scope `DEFAULT`, room for 16 entries, and rules that
    /// allow everything to everyone.
    pub fn open(alloc: Global) -> Result<Agent, NoMemory>
        ensures { IfOk result (λ a. a ≡ opening_agent) }
    {
        let listen = opening_addresses(alloc)?;
        let directory = begin(alloc, opening_site(alloc)?)?;
        Ok(Agent {
            directory,
            listen,
            loop_index: 0,
            moment: 0,
            asker: FIRST_ASKER,
        })
    }

    // Begins anew on the site of a configuration, with the templates that there are.
    fn begin_on(&mut self, alloc: Global, config: Config) -> Result<(), NoMemory>
        requires { IsWithin config }
        ensures { (w : World) → IsAgent w self.old → IfOk result (λ _. IsAgent (configured_world config w) self.new) }
    {
        let (directory, listen) = begun_on(alloc, config, self.directory.site().templates())?;
        self.directory = directory;
        self.listen = listen;
        self.loop_index = 0;
        Ok(())
    }

    /// Begins anew on the site of a configuration, without entries and at clock 0. The rules are the
    /// opening ones; the templates, the moment and the asker stay, and messages come to the first loop. A refused text
    /// changes nothing, and one that is not kept is out of its range.
    pub fn configure(
        &mut self,
        alloc: Global,
        text: Option<&str>,
    ) -> Result<Result<(), ConfigFault>, NoMemory>
        ensures { (w : World) → IsAgent w self.old → IfOk result (λ told. ConfiguresTo w (option_map_or config_of (option_copied text.entry) (Err Range)) told self.new) }
    {
        let Some(text) = text else {
            return Ok(Err(ConfigFault::Range));
        };
        match Config::from_text(alloc, text) {
            Ok(config) => {
                self.begin_on(alloc, config)?;
                Ok(Ok(()))
            }
            Err(ConfigFault::NoMemory) => Err(NoMemory),
            Err(fault) => Ok(Err(fault)),
        }
    }

    /// Begins anew on the site with one template more, without entries and at clock 0. All else stays. A
    /// template that is not read or may not be added changes nothing, and a text that is not kept does not
    /// fit from its first line on.
    pub fn add_template(
        &mut self,
        alloc: Global,
        text: Option<&str>,
    ) -> Result<Result<(), ParseFault>, NoMemory>
        ensures { (w : World) → IsAgent w self.old → IfOk result (λ told. AddsTo w (templates_with w (option_map_or template_in (option_copied text.entry) (Err (template.Line 1)))) told self.new) }
    {
        match templates_and(alloc, self.directory.site().templates(), text) {
            Ok(templates) => {
                let site = site_with(alloc, self.directory.site(), templates)?;
                self.directory = begin(alloc, site)?;
                Ok(Ok(()))
            }
            Err(ParseFault::NoMemory) => Err(NoMemory),
            Err(fault) => Ok(Err(fault)),
        }
    }

    /// The address at which messages arrive.
    fn own(&self) -> Addr
        ensures { result ≡ own_at self.now.listen self.now.loop_index }
    {
        match self.listen.as_slice().get(self.loop_index) {
            Some((address, _)) => *address,
            None => Addr(0),
        }
    }

    /// Messages come to the loop of this number, counted from 1, from now on. It answers whether such a
    /// loop is listened on; where none is, nothing changes.
    pub fn move_to_loop(&mut self, number: u32) -> bool
        ensures { (w : World) → IsAgent w self.old → MovesTo w number result self.new }
    {
        let number = number as usize;
        if number == 0 || number > self.listen.as_slice().len() {
            return false;
        }
        self.loop_index = number - 1;
        true
    }

    /// Sweeps at the moment that was set, or at the clock where that is greater.
    pub fn tidy(&mut self)
        ensures { (w : World) → IsAgent w self.old → IsAgent (swept_world w) self.new }
    {
        self.directory.sweep(self.moment);
    }

    // From the moment that was set on, or from the clock on where that is greater, these rules decide.
    fn rule_by(&mut self, rules: Arc<Rules>)
        ensures { (w : World) → IsAgent w self.old → IsAgent (reloaded_world (arc_value rules) w) self.new }
    {
        self.directory.reload(self.moment, rules);
    }

    /// The rules of a rule file decide from now on; it answers how many there are. A refused text
    /// changes nothing, and one that is not kept is too long.
    pub fn reload(
        &mut self,
        alloc: Global,
        text: Option<&str>,
    ) -> Result<Result<usize, RuleFault>, NoMemory>
        ensures { (w : World) → IsAgent w self.old → IfOk result (λ told. ReloadsTo w (option_map_or rules_in_text (option_copied text.entry) (Err (rule_fault.Shape 0))) told self.new) }
    {
        let Some(text) = text else {
            return Ok(Err(RuleFault::Shape(0)));
        };
        match rules_of_text(alloc, text) {
            Ok(rules) => {
                let number = rules.len();
                let rules = Arc::new(alloc, rules)?;
                self.rule_by(rules);
                Ok(Ok(number))
            }
            Err(RuleFault::NoMemory) => Err(NoMemory),
            Err(fault) => Ok(Err(fault)),
        }
    }

    /// Answers a message in at most `limit` bytes, and makes the change that it asks for. The reply
    /// and the audit line are left in `answer`. `NoMemory` changes nothing.
    pub fn take(
        &mut self,
        alloc: Global,
        bytes: &[u8],
        limit: usize,
        answer: &mut Answer,
    ) -> Result<Sent, NoMemory>
        requires datagram { 1400 ≤ limit }
        requires stream { limit ≤ 65535 }
        ensures { (w : World) → IsAgent w self.old → MatchResult result
            (λ what. Takes limit w bytes.now what answer.new.bytes.items answer.new.audit.items self.new)
            (λ _. self.new ≡ self.old) }
    {
        let call = Call {
            own: self.own(),
            moment: self.moment,
            asker: self.asker,
            bytes,
            limit,
        };
        step(alloc, &mut self.directory, &call, answer)
    }
}
