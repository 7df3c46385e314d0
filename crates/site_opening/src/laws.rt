//! What holds of the texts of every site. The function does nothing: its contract is the law.
ghost use Rattle.std.specs.Prelude.{◌≡◌, ◌↔◌};
ghost use Rattle.site_opening.specs.Openings.{AreTaken, SiteTexts, start_of};
ghost use Rattle.site_opening.specs.Statuses.{opening_status};

/// A status is 0 exactly where each text is taken: that of the configuration, of the rule file if there is one, and of each template.
pub fn what_is_taken_starts()
    ensures { (texts : SiteTexts) → (opening_status (start_of texts) ≡ 0) ↔ AreTaken texts }
{}
