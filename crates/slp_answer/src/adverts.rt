//! What is answered to who asks for directory agents (RFC 2608, section 8.5).
ghost use Rattle.std.specs.Prelude.{◌≡◌, [], IfOk};
ghost use Rattle.directory_judge.specs.History.{History};
ghost use Rattle.directory_questions.specs.Calls.{Opening};
ghost use Rattle.directory_questions.specs.Verdicts.{IsLegal};
ghost use Rattle.directory_questions.specs.declared.question.Question.TheVariants as question;
ghost use Rattle.directory_state.specs.Folds.{Fold};
ghost use Rattle.slp_answer.specs.Answers.{IsQuestionAnswered};

use directory_judge::{Decider, Finding};
use directory_questions::AgentQuery;
use directory_state::Directory;
use registry_core::Registry;
use slp_replies::{Answer, Reply, Sent};
use slp_text::NoMemory;
use std::alloc::Global;

// A call in the machine's code as well: inlined, this and its like cost a question about services a hundred instructions.
/// Answers who asks for directory agents, with the advert of the site or with the code that stands for it.
#[inline(never)]
pub fn answer_agents<R: Registry>(
    alloc: Global,
    directory: &Directory<R>,
    reply: &Reply<'_>,
    query: &AgentQuery,
    answer: &mut Answer,
) -> Result<Sent, NoMemory>
    requires no_reply { answer.old.bytes.items ≡ [] }
    requires no_line { answer.old.audit.items ≡ [] }
    ensures { (o : Opening) (h : History) → Fold o h directory.now → IsLegal o h
        → IfOk result (λ what. IsQuestionAnswered o h reply.now (question.Agents query.now) what answer.new.bytes.items answer.new.audit.items) }
{
    let kind = &query.kind;
    let Some(scopes) = &query.scopes else {
        return reply.advert_code(&Finding::deny(Decider::Parse, None), answer);
    };
    if !scopes.is_empty() && !directory.supports(scopes) {
        return reply.advert_code(&Finding::deny(Decider::Scope, Some(kind)), answer);
    }
    reply.advert(alloc, directory.site(), kind, answer)
}
