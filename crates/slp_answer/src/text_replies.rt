//! Replies with a list of texts: to attribute requests and to type requests (RFC 2608, sections 10.2 and 10.4).
ghost use Rattle.std.specs.Prelude.{◌≡◌, [], IfOk};
ghost use Rattle.directory_judge.specs.History.{History};
ghost use Rattle.directory_questions.specs.Calls.{Opening};
ghost use Rattle.directory_questions.specs.Verdicts.{IsLegal};
ghost use Rattle.directory_questions.specs.declared.question.Question.TheVariants as question;
ghost use Rattle.directory_state.specs.Folds.{Fold};
ghost use Rattle.directory_state.specs.Sources.{IsSourceAt};
ghost use Rattle.slp_answer.specs.Answers.{IsQuestionAnswered};

use directory_questions::{AttrQuery, TypeQuery};
use directory_state::{Directory, Source};
use registry_core::{Entry, Registry};
use slp_replies::{Answer, AttributeTexts, Form, Reply, Sent, Texts};
use slp_text::NoMemory;
use std::alloc::Global;

// The types of entries.
#[derive(Clone, Copy)]
struct TypeTexts<'a> {
    entries: &'a [&'a Entry],
}

impl Texts for TypeTexts<'_> {
    ghost use Rattle.std.specs.Prelude.{map};
    ghost use Rattle.directory_state.specs.Searches.{entries_lent};

    ghost texts = { λ t. map (λ e. e.kind) (entries_lent t.entries.now) };

    fn number(&self) -> usize {
        self.entries.len()
    }

    fn print(&self, place: usize, _room: usize, out: &mut String) -> Result<(), NoMemory> {
        let entry: &Entry = self.entries[place];
        out.push_str(entry.kind.text())?;
        Ok(())
    }
}

// A call in the machine's code as well: inlined, this and its like cost a question about services a hundred instructions.
/// Answers a question about attributes: with as many of those that are found as fit, or with the code that
/// stands instead.
#[inline(never)]
pub fn answer_attributes<R: Registry>(
    alloc: Global,
    source: &Source<'_, R>,
    reply: &Reply<'_>,
    query: &AttrQuery,
    answer: &mut Answer,
) -> Result<Sent, NoMemory>
    requires no_reply { answer.old.bytes.items ≡ [] }
    requires no_line { answer.old.audit.items ≡ [] }
    ensures { (o : Opening) (h : History) → IsSourceAt o h query.now.target source.now → IsLegal o h
        → IfOk result (λ what. IsQuestionAnswered o h reply.now (question.Attributes query.now) what answer.new.bytes.items answer.new.audit.items) }
{
    let call = reply.heard.call;
    let kind = query.target.kind();
    match source.find_attributes(alloc, call.moment, call.asker, query) {
        Ok(attributes) => {
            let texts = AttributeTexts {
                alloc,
                attributes: &attributes,
            };
            reply.texts(alloc, kind, Form::Attributes, &texts, answer)
        }
        Err(fault) => reply.query_fault(fault, kind, answer),
    }
}

// A call in the machine's code as well: inlined, this and its like cost a question about services a hundred instructions.
/// Answers a question about types, in the same way.
#[inline(never)]
pub fn answer_types<R: Registry>(
    alloc: Global,
    directory: &Directory<R>,
    reply: &Reply<'_>,
    query: &TypeQuery,
    answer: &mut Answer,
) -> Result<Sent, NoMemory>
    requires no_reply { answer.old.bytes.items ≡ [] }
    requires no_line { answer.old.audit.items ≡ [] }
    ensures { (o : Opening) (h : History) → Fold o h directory.now → IsLegal o h
        → IfOk result (λ what. IsQuestionAnswered o h reply.now (question.Types query.now) what answer.new.bytes.items answer.new.audit.items) }
{
    let call = reply.heard.call;
    match directory.find_types(alloc, call.moment, call.asker, query, Some(call.limit)) {
        Ok(entries) => {
            let texts = TypeTexts { entries: &entries };
            reply.texts(alloc, None, Form::Types, &texts, answer)
        }
        Err(fault) => reply.query_fault(fault, None, answer),
    }
}
