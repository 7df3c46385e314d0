ghost use Rattle.std.specs.Prelude.{◌≡◌, ◌<◌, ◌≤◌, ◌+◌, IfOk, length, true};
ghost use Rattle.std.specs.FinMap as fin;
ghost use Rattle.std.specs.Option.{option_copied, option_map, option_or};
ghost use Rattle.slp_text.specs.Keys.{key_of};
ghost use Rattle.slp_messages.specs.Views.{header_in, registration_in};
ghost use Rattle.registry_core.specs.Entries.{pair_of};
ghost use Rattle.directory_judge.specs.Judgements.{because_of, because_of_entry, denial_of_old, denial_of_room, denial_of_template, judgement_in, judgement_of_particulars, judgement_of_registration, judgement, particulars, particulars_in, AreParticularsOf, IsJudgement};
ghost use Rattle.directory_judge.specs.Judgements as spec;
ghost use Rattle.directory_judge.specs.NamedEntries.{particulars_named, IsJudgedNamed};
ghost use Rattle.directory_judge.specs.ReadChanges.{message_read, IsReadAt};

use crate::change::Placed;
use crate::grounds::Grounds;
use crate::judgement::Decision;
use crate::particulars::{Particulars, Reading};
use crate::reading::ReadChange;
use crate::reason::{Decider, Finding};
use access_rules::Action;
use registry_core::{Entry, Registry};
use slp_messages::{KeptHeader, RegistrationView};
use slp_text::{Key, NoMemory};
use std::alloc::Global;
use std::sync::Arc;

impl<'a, R: Registry> Grounds<'a, R> {
    // What denies that an entry is replaced or updated, if there is one.
    pub(crate) fn replacing_denial(&self, old: Option<&'a Entry>) -> Option<Finding<'a>>
        ensures { option_map (λ f. spec.denial (because_of f)) result ≡ denial_of_old self.now (option_copied old.entry) }
    {
        let old = old?;
        match self.rule(Action::Register, &old.kind, &old.scopes, old.owner) {
            Some(finding) if !finding.allow => Some(finding),
            _ => None,
        }
    }

    // What speaks against an entry that is allowed: what is live of its pair must be allowed too, its
    // attributes conform, and where nothing is live there must be room.
    fn objection<'b>(&self, entry: &'b Entry) -> Option<Finding<'b>>
    where
        'a: 'b,
        ensures { option_map (λ f. spec.denial (because_of f)) result ≡ option_or (denial_of_old self.now (fin.get self.now.live (pair_of entry.now))) (option_or (denial_of_template self.now entry.now.kind entry.now.attrs) (denial_of_room self.now (pair_of entry.now) (particulars_named entry.now))) }
    {
        let old = self.live_entry(&entry.url, &entry.language);
        if let Some(finding) = self.replacing_denial(old) {
            return Some(finding);
        }
        if !self.conforms(&entry.kind, &entry.attrs) {
            return Some(Finding::deny(Decider::Template, Some(&entry.kind)));
        }
        if old.is_none() && self.is_full() {
            return Some(Finding::deny(Decider::Full, Some(&entry.kind)));
        }
        None
    }

    // Judges a fresh registration of the entry that is named, as `judge_update` an update.
    fn judge_new(&self, alloc: Global, named: Entry, decider: Decider) -> Result<Decision, NoMemory>
        requires scoped { 0 < length named.scopes }
        requires few_scopes { length named.scopes ≤ 16 }
        ensures { IfOk result (λ j. IsJudgedNamed self.now true named (because_of_entry decider named) (judgement_in j)) }
    {
        if let Some(finding) = self.objection(&named) {
            return Decision::denied(alloc, finding);
        }
        let entry = Arc::new(alloc, named)?;
        let moment = self.moment;
        Ok(Decision::Founded(Placed { moment, entry }, decider))
    }

    // Judges either.
    fn judge_named(
        &self,
        alloc: Global,
        named: Entry,
        fresh: bool,
        decider: Decider,
    ) -> Result<Decision, NoMemory>
        requires scoped { 0 < length named.scopes }
        requires few_scopes { length named.scopes ≤ 16 }
        ensures { IfOk result (λ j. IsJudgedNamed self.now fresh named (because_of_entry decider named) (judgement_in j)) }
    {
        if fresh {
            self.judge_new(alloc, named, decider)
        } else {
            self.judge_update(alloc, named, decider)
        }
    }

    // The entry that a registration names.
    fn named(
        &self,
        alloc: Global,
        header: &KeptHeader<'_>,
        registration: &RegistrationView<'_>,
        particulars: Particulars,
    ) -> Result<Entry, NoMemory>
        ensures { IfOk result (λ e. e ≡ record { url = particulars.url; language = key_of header.now.language.now; kind = particulars.kind; scopes = particulars.scopes; attrs = particulars.attrs; deadline = self.now.now + registration.now.entry.lifetime; owner = self.now.asker }) }
    {
        let language = Key::of(alloc, header.language)?;
        let Particulars {
            url,
            kind,
            scopes,
            attrs,
        } = particulars;
        Ok(Entry {
            url,
            language,
            kind,
            scopes,
            attrs,
            deadline: u64::from(self.moment) + u64::from(registration.entry.lifetime),
            owner: self.asker,
        })
    }

    // Judges what a registration names, of a language and a lifetime.
    fn judge_particulars(
        &self,
        alloc: Global,
        header: &KeptHeader<'_>,
        registration: &RegistrationView<'_>,
        particulars: Particulars,
    ) -> Result<Decision, NoMemory>
        requires url { particulars.url ≡ registration.now.entry.url.now }
        requires few_scopes { length particulars.scopes ≤ 16 }
        ensures { IfOk result (λ j. IsJudgement self.now.live (judgement_in j) (judgement_of_particulars self.now (header_in header.now) (registration_in registration.now) particulars)) }
    {
        let named = self.named(alloc, header, registration, particulars)?;
        match self.rule(Action::Register, &named.kind, &named.scopes, named.owner) {
            None => {
                let told = Decision::denied(
                    alloc,
                    Finding::deny(Decider::Scope, Some(&named.kind)),
                );
                drop(named);
                told
            }
            Some(finding) if finding.allow => {
                let decider = finding.decider;
                self.judge_named(alloc, named, header.flags.fresh, decider)
            }
            Some(finding) => {
                let told = Decision::denied(alloc, finding);
                drop(named);
                told
            }
        }
    }

    // Judges a registration, of which this was read.
    fn judge_registration(
        &self,
        alloc: Global,
        header: &KeptHeader<'_>,
        registration: &RegistrationView<'_>,
        reading: Reading,
    ) -> Result<Decision, NoMemory>
        requires value { particulars self.now.site (header_in header.now) (registration_in registration.now) ≡ particulars_in reading }
        requires url { AreParticularsOf registration.now.entry.url.now reading }
        ensures { IfOk result (λ j. IsJudgement self.now.live (judgement_in j) (judgement_of_registration self.now (header_in header.now) (registration_in registration.now))) }
    {
        match reading {
            Reading::Denied(because) => Ok(Decision::Denied(because)),
            Reading::Read(particulars) => self.judge_particulars(
                alloc,
                header,
                registration,
                particulars,
            ),
        }
    }
}

impl<R: Registry> Grounds<'_, R> {
    /// Judges a message that asks for a change, of which this was read (RFC 2608, sections 8.3 and 9.3): the first step whose
    /// fault is there, else the change is accepted. Nothing is changed.
    pub fn judge(&self, alloc: Global, change: ReadChange<'_>) -> Result<Decision, NoMemory>
        requires { IsReadAt self.now.site change }
        ensures { IfOk result (λ j. IsJudgement self.now.live (judgement_in j) (judgement self.now (message_read change.entry))) }
    {
        match change {
            ReadChange::Registration(header, registration, reading) => {
                self.judge_registration(alloc, &header, &registration, reading)
            }
            ReadChange::Withdrawal(header, withdrawal, reading) => {
                self.judge_withdrawal(alloc, &header, &withdrawal, reading)
            }
        }
    }
}
