//! What a directory says of itself (RFC 2608, section 8.5).
ghost use Rattle.std.specs.Prelude.{◌≡◌, ◌≤◌, [], false, length, IfOk, Some};
ghost use Rattle.slp_headers.specs.Headers.{heading_in};
ghost use Rattle.slp_wire.specs.Spelling.{plain_bytes};
ghost use Rattle.directory_judge.specs.Judgements.{by_step};
ghost use Rattle.directory_judge.specs.declared.reason.Decider.TheVariants as decider;
ghost use Rattle.directory_questions.specs.Answers.{advert_of};
ghost use Rattle.directory_questions.specs.Outcomes.{outcome, sent_of};
ghost use Rattle.slp_replies.specs.Tellings.{TellsOf};

use crate::answer::{Answer, Sent};
use crate::replies::Reply;
use addresses::Addr;
use directory_judge::Site;
use service_url::ServiceType;
use slp_text::{NoMemory, Text};
use slp_wire::{DirectoryAdvert, DirectoryAgent, Message};
use std::alloc::Global;

impl Reply<'_> {
    // The advert of a site, in answer to who came to an address.
    fn advert_in(&self, alloc: Global, site: &Site, own: Addr) -> Result<Message, NoMemory>
        ensures is { IfOk result (λ m. m ≡ advert_of site.now own (heading_in self.now.heard.now.header)) }
        ensures short { IfOk result (λ m. length (plain_bytes m) ≤ 65535) }
    {
        let url = format!(in alloc; "service:directory-agent://{own}")?;
        let mut scopes = String::new(alloc);
        site.scopes().print_into(&mut scopes)?;
        let header = self.head(alloc, false)?;
        let agent = DirectoryAgent {
            boot: site.boot(),
            url: Text::wrap(url),
            scopes: Text::wrap(scopes),
            attributes: Text::wrap(String::new(alloc)),
            indices: Text::wrap(String::new(alloc)),
        };
        Ok(Message::DirectoryAdvert(header, DirectoryAdvert::Present(agent)))
    }

    /// Sends the advert of a site to who asks for agents of a type.
    pub fn advert(
        &self,
        alloc: Global,
        site: &Site,
        kind: &ServiceType,
        answer: &mut Answer,
    ) -> Result<Sent, NoMemory>
        requires no_reply { answer.old.bytes.items ≡ [] }
        requires no_line { answer.old.audit.items ≡ [] }
        ensures { let head = heading_in self.now.heard.now.header in
            IfOk result (λ what. TellsOf self.now (outcome (sent_of head 0 false (plain_bytes (advert_of site.now self.now.heard.now.call.now.own head))) 0 (by_step decider.Nobody (Some kind.now))) what answer.new.bytes.items answer.new.audit.items) }
    {
        let message = self.advert_in(alloc, site, self.heard.call.own)?;
        let sent = self.message(Some(kind), &message, answer);
        drop(message);
        sent
    }
}
