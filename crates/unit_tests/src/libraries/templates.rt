mod rows;

use crate::tables::{Asking, Question, assert_table, found, lines};
use attr_list::Attrs;
use rows::{BOTH, TABLE};
use service_url::ServiceType;
use srv_template::{ParseFault, Templates};
use std::alloc::Global;
use template_files::template_of_text;

#[derive(Clone, Copy)]
struct SiteTemplates;

// Each text as a template, in templates of which shares are made.
fn templates_of(alloc: Global, texts: &str) -> Result<Templates, ParseFault> {
    let mut templates = Templates::new(alloc);
    for text in texts.split(';') {
        templates.add(template_of_text(alloc, text)?)?;
    }
    Ok(templates.share(alloc)?)
}

fn print_fault(
    alloc: Global,
    templates: &Templates,
    attributes: &str,
    kind: &str,
    out: &mut String,
) -> Result<(), ParseFault> {
    let attributes = found(Attrs::parse(alloc, attributes))?;
    let kind = found(ServiceType::parse(alloc, kind))?;
    let told = match templates.check(&kind, &attributes) {
        Some(fault) => write!(out, "{} {:?}", fault.definition, fault.kind),
        None => out.push_str("conforms"),
    };
    Ok(told?)
}

fn print_checked(
    alloc: Global,
    texts: &str,
    attributes: &str,
    kind: &str,
    out: &mut String,
) -> Result<(), ParseFault> {
    let templates = templates_of(alloc, texts)?;
    print_fault(alloc, &templates, attributes, kind, out)
}

impl Asking for SiteTemplates {
    type Fault = ParseFault;

    fn print(self, alloc: Global, row: Question<'_>, out: &mut String) -> Result<(), ParseFault> {
        let text = lines(alloc, row.text, &[])?;
        match row.word {
            "template" => {
                let _template = template_of_text(alloc, text.as_str())?;
                Ok(())
            }
            "site" => print_checked(alloc, text.as_str(), "", row.beside, out),
            _ => print_checked(alloc, BOTH, text.as_str(), row.beside, out),
        }
    }
}

#[test]
fn templates_are_read_and_checked(rt: HostRuntime) {
    assert_table(&rt, rt.alloc(), SiteTemplates, TABLE);
}
