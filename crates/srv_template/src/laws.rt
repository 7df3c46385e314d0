//! Laws of templates, which callers may use. The functions do nothing: their contracts are the laws.

ghost use Rattle.std.specs.Prelude.{◌≡◌, ℕ, List};
ghost use Rattle.attr_list.specs.Lists.{Attributes};
ghost use Rattle.srv_template.specs.Conformity.{template_fault, AgreeOn, SiteTemplates};

/// Tags that no definition names decide nothing.
pub fn undefined_tags_decide_nothing()
    ensures { (templates : SiteTemplates) (type : List ℕ) (a b : Attributes) → AgreeOn templates type a b → template_fault templates type a ≡ template_fault templates type b }
{}
