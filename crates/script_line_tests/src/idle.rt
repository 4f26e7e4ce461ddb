//! A machine on which no call was begun and nothing is held. It answers steps, expiries, looks at boards and the use of listeners and notifiers, and has no memory for anything else.
ghost use Rattle.std.specs.Prelude.{◌≡◌, ◌<◌, ◌≤◌, [], IfErr, IfOk, IsErrOf, OnErr, OnOk, Some, vec_capacity};
ghost use Rattle.board_model.specs.declared.answer.Answer.TheVariants as answers;
ghost use Rattle.board_model.specs.AnswerGrammar.{answer_line};
ghost use Rattle.script_model.specs.declared.line.ScriptLine.{ScriptLine};
ghost use Rattle.script_model.specs.ScriptGrammar.{SpellsLine};
ghost use Rattle.script_loop.specs.Machines.{SpellsNone, short_room};
ghost use Rattle.script_line_tests.specs.IdleMachine.{IdleWants, idle_reason};

use board_model::{Line, Reason};
use script_loop::{LineError, RunsLines};
use script_model::{EventRequest, ScriptLine};
use script_parse::parse_line;
use script_print::push_refused;
use std::alloc::Global;

#[derive(Drop)]
pub(crate) struct Idle {
    pub(crate) alloc: Global,
}

fn reason_of(line: &ScriptLine) -> Option<Reason>
    ensures { result ≡ idle_reason line.now }
{
    match line {
        ScriptLine::Board(Line::Step { .. }) => Some(Reason::Idle),
        ScriptLine::Board(Line::Words { .. }) => Some(Reason::NoBoard),
        ScriptLine::Event {
            request: EventRequest::Notify { .. },
            ..
        } => Some(Reason::Unknown),
        ScriptLine::Event {
            request: EventRequest::Wait { .. },
            ..
        } => Some(Reason::Unknown),
        ScriptLine::Expire { .. } => Some(Reason::Idle),
        _ => None,
    }
}

// Why the line of these bytes is refused.
#[tactic(auto, using(crate::proofs::IdleLemmas::kept_wants))]
fn refusal(alloc: Global, bytes: &[u8]) -> Result<Reason, LineError>
    ensures ok { IfOk result (λ why.
        (l : ScriptLine) × SpellsLine bytes.now l × (Some why ≡ idle_reason l)) }
    ensures bad { IsErrOf result LineError.Bad → SpellsNone bytes.now }
    ensures memory { IsErrOf result LineError.OutOfMemory → IdleWants bytes.now }
{
    let Some(line) = parse_line(alloc, bytes)? else {
        return Err(LineError::Bad);
    };
    reason_of(&line).ok_or(LineError::OutOfMemory)
}

// Writes the refusal alone, or nothing.
fn write_refusal(reason: Reason, answer: &mut Vec<u8>) -> Result<(), LineError>
    ensures ok { OnOk result (answer.new.items ≡ answer_line (answers.Refused reason)) }
    ensures err { OnErr result (answer.new.items ≡ []) }
    ensures kind { IfErr result (λ e. e ≡ LineError.OutOfMemory) }
    ensures memory { OnErr result (vec_capacity answer.old < short_room) }
    ensures room { vec_capacity answer.old ≤ vec_capacity answer.new }
{
    answer.clear();
    if push_refused(reason, answer).is_err() {
        answer.clear();
        return Err(LineError::OutOfMemory);
    }
    Ok(())
}

impl RunsLines for Idle {
    ghost use Rattle.std.specs.Prelude.{◌≡◌};
    ghost use Rattle.script_model.specs.ScriptSession.{start};
    ghost use Rattle.script_line_tests.specs.IdleMachine.{IdleWants};

    ghost stands = { λ machine n s. s ≡ start };

    ghost wants = { λ machine bytes. IdleWants bytes };

    fn line(&mut self, line: &[u8], answer: &mut Vec<u8>) -> Result<(), LineError> {
        answer.clear();
        let reason = refusal(self.alloc, line)?;
        write_refusal(reason, answer)
    }
}
