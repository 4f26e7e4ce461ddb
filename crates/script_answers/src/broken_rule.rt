//! Which rule an answer breaks.
ghost use Rattle.std.specs.Prelude.{◌≡◌};
ghost use Rattle.script_rules.specs.BrokenRules.{broken_rule};
ghost use Rattle.script_answers.specs.TokenGroups.{first_group_of};

use crate::groups::{Groups, groups_of, refusal_of};
use crate::tokens::Tokens;
use script_model::ScriptLine;
use script_rules::Rule;

// The rule of the first group in which an answer differs from the right one.
fn first_group(right: &Groups, text: &Groups) -> Option<Rule>
    ensures { result ≡ first_group_of right.now text.now }
{
    if !right.owed.are_same(&text.owed) {
        return Some(Rule::Owed);
    }
    if !right.word.are_same(&text.word) {
        return Some(Rule::Word);
    }
    if !right.event.are_same(&text.event) {
        return Some(Rule::Event);
    }
    if !right.reply.are_same(&text.reply) {
        return Some(Rule::Reply);
    }
    None
}

/// The rule that an answer to the line breaks where another one is right, if it breaks one. No memory is taken.
pub fn broken_rule_of(line: &ScriptLine, right: &[u8], text: &[u8]) -> Option<Rule>
    ensures { result ≡ broken_rule line.now right.now text.now }
{
    // Most answers are right.
    if right == text {
        return None;
    }
    let right = Tokens::between(right, b' ');
    let text = Tokens::between(text, b' ');
    if !refusal_of(&right).are_same(&refusal_of(&text)) {
        return Some(Rule::Reason);
    }
    first_group(&groups_of(line, &right), &groups_of(line, &text))
}
