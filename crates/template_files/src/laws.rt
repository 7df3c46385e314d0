//! Laws of the texts of templates, which callers may use. The functions do nothing: their contracts are the laws.

ghost use Rattle.std.specs.Prelude.{◌≡◌, ◌↔◌, ◌+◌, ◌≤◌, ℕ, List, Ok, Err, length};
ghost use Rattle.std.specs.Str.Lines.{lines};
ghost use Rattle.srv_template.specs.Templates.{Template};
ghost use Rattle.srv_template.specs.declared.fault.ParseFault.TheVariants.{Line};
ghost use Rattle.template_files.specs.Meaning.{Means};
ghost use Rattle.template_files.specs.Reading.{longest_text, template_in};

/// A text of at most 1,048,576 bytes means the template that it is read as, and no other; where none is
/// read, it means none.
pub fn texts_mean_what_is_read()
    ensures { (text : List ℕ) (t : Template) → length text ≤ longest_text → Means text t ↔ (template_in text ≡ Ok t) }
{}

/// A text is refused by one of its lines, or by the line past the last.
pub fn a_fault_is_of_a_line()
    ensures { (text : List ℕ) (n : ℕ) → template_in text ≡ Err (Line n) → (1 ≤ n) × (n ≤ length (lines text) + 1) }
{}
