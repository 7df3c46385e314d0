ghost use Rattle.std.specs.Prelude.{◌≡◌, ◌↔◌, IfOk, MatchResult, IsNone, Ok};
ghost use Rattle.std.specs.FinMap as fin;
ghost use Rattle.std.specs.Option.{option_copied, option_map};
ghost use Rattle.srv_template.specs.Conformity.{first_fault, template_fault, ConformsTo};
ghost use Rattle.srv_template.specs.Templates.{added_to, templates_stored, IsFault};

use crate::definition::Definition;
use crate::fault::{ParseFault, TemplateFault};
use attr_list::Attrs;
use service_url::ServiceType;
use slp_text::{NoMemory, Row, Text};
use std::alloc::Global;
use std::marker::Model;
use std::sync::Arc;

/// The most templates.
const MOST_TEMPLATES: usize = 256;

/// A template, which contracts see as the name A of its type `service:A` and its definitions in their
/// order (RFC 2609, section 4).
pub struct Template {
    name: Text,
    definitions: Arc<Row<Definition>>,
}

impl Drop for Template {
    fn drop(self) {
        let Template {
            name: _,
            definitions: _,
        } = self;
    }
}

impl Model for Template {
    ghost use Rattle.std.specs.Arc.{arc_value};
    ghost use Rattle.srv_template.specs.Codes.{template_code};
    ghost use Rattle.srv_template.specs.Templates as spec;

    ghost Value = { spec.Template };

    ghost coded = { template_code };

    ghost view = { λ t. record { name = t.name; definitions = arc_value t.definitions } };
}

/// Templates, which contracts see as a finite map from the name A of each type `service:A` that has one
/// to its definitions.
pub struct Templates {
    templates: Vec<Template>,
}

impl Drop for Templates {
    fn drop(self) {
        let Templates { templates: _ } = self;
    }
}

impl Model for Templates {
    ghost use Rattle.srv_template.specs.Codes.{templates_code};
    ghost use Rattle.srv_template.specs.Conformity.{SiteTemplates};
    ghost use Rattle.srv_template.specs.Templates.{templates_stored, AreStored};

    ghost Value = { SiteTemplates };

    ghost coded = { templates_code };

    ghost view = { λ t. templates_stored t.templates.items };

    ghost invariant = { λ t. AreStored t.templates.items };
}

// The fault of the first definition that has one. It takes no memory.
fn first_fault(definitions: &[Definition], attributes: &Attrs) -> Option<TemplateFault>
    ensures { result ≡ first_fault 0 definitions.now attributes.now }
{
    for (definition, asked) in definitions.iter().enumerate() {
        if let Some(kind) = asked.fault_on(attributes) {
            return Some(TemplateFault { definition, kind });
        }
    }
    None
}

impl Template {
    /// A template of the type `service:A`, by the name A.
    pub fn new(
        alloc: Global,
        name: Text,
        definitions: Vec<Definition>,
    ) -> Result<Template, NoMemory>
        ensures { IfOk result (λ t. t ≡ record { name = name; definitions = definitions.items }) }
    {
        let definitions = Arc::new(alloc, Row::wrap(definitions))?;
        Ok(Template { name, definitions })
    }

    /// The name A of the type `service:A` that it is of. Takes no memory.
    pub fn name(&self) -> &str
        ensures { result.now ≡ self.now.name }
    {
        self.name.as_str()
    }

    // An equal template, which shares the definitions.
    fn share(&self, alloc: Global) -> Result<Template, NoMemory>
        ensures { IfOk result (λ t. t ≡ self.now) }
    {
        let name = self.name.copy(alloc)?;
        let definitions = Arc::try_clone(&self.definitions)?;
        Ok(Template { name, definitions })
    }

    fn definitions(&self) -> &[Definition]
        ensures { result.now ≡ self.now.definitions }
    {
        self.definitions.as_slice()
    }
}

impl Templates {
    ghost use Rattle.srv_template.specs.Conformity.{SiteTemplates};

    /// No template. Takes no memory.
    pub fn new(alloc: Global) -> Templates
        ensures { result ≡ fin.empty }
    {
        Templates {
            templates: Vec::new(alloc),
        }
    }

    /// The templates, in the order of their names. Takes no memory.
    pub fn as_slice(&self) -> &[Template]
        ensures { templates_stored result.now ≡ self.now }
    {
        &self.templates
    }

    /// Adds a template. One of a type that has a template is refused as `TwiceType`, else the 257th as
    /// `TooMany`; what is refused is dropped, and nothing is changed.
    pub fn add(&mut self, template: Template) -> Result<(), ParseFault>
        ensures { MatchResult result
            (λ _. added_to self.old template ≡ Ok self.new)
            (λ e. IsFault e (added_to self.old template) × (self.new ≡ self.old)) }
    {
        let name = template.name.as_str();
        match self
            .templates
            .binary_search_by(|other| other.name.as_str().cmp(name))
        {
            Ok(_) => Err(ParseFault::TwiceType),
            Err(_) if self.templates.len() >= MOST_TEMPLATES => Err(ParseFault::TooMany),
            Err(place) => {
                self.templates.insert(place, template)?;
                Ok(())
            }
        }
    }

    // The template of the type `service:A`, by the name A. It takes time for the logarithm of how many
    // there are, and no memory.
    fn of_name(&self, name: &str) -> Option<&Template>
        ensures { option_map (λ t. t.definitions) (option_copied result) ≡ fin.get self.now name.now }
    {
        match self
            .templates
            .binary_search_by(|other| other.name.as_str().cmp(name))
        {
            Ok(place) => Some(&self.templates[place]),
            Err(_) => None,
        }
    }

    /// The first definition with a fault on the attributes of a type, if the type has a template: that of
    /// its abstract type. It costs one look-up of the type, and one in the attributes for each definition;
    /// it takes no memory.
    pub fn check(&self, kind: &ServiceType, attributes: &Attrs) -> Option<TemplateFault>
        ensures value { result ≡ template_fault self.now kind.now attributes.now }
        ensures conforms { IsNone result ↔ ConformsTo self.now kind.now attributes.now }
    {
        let template = self.of_name(kind.service_name()?)?;
        first_fault(template.definitions(), attributes)
    }

    /// Equal templates, which share their definitions.
    pub fn share(&self, alloc: Global) -> Result<Templates, NoMemory>
        ensures { IfOk result (λ t. t ≡ self.now) }
    {
        let mut shared = Vec::with_capacity(alloc, self.templates.len())?;
        for template in &self.templates {
            shared.push(template.share(alloc)?)?;
        }
        Ok(Templates { templates: shared })
    }
}
