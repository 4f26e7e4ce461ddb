//! The tokens of an answer, in the groups in which it is judged.
ghost use Rattle.std.specs.Prelude.{◌≡◌, length};
ghost use Rattle.script_rules.specs.AnswerGroups.{access_groups, before_reply, from_reply, groups_of, owed_tokens, refusal_of};
ghost use Rattle.script_answers.specs.TokenGroups.{AreGroups};

use crate::tokens::Tokens;
use board_model::Line;
use script_model::ScriptLine;

// The tokens of an answer, by what they speak of.
#[derive(Drop)]
pub(crate) struct Groups<'a> {
    pub(crate) owed: Tokens<'a>,
    pub(crate) word: Tokens<'a>,
    pub(crate) event: Tokens<'a>,
    pub(crate) reply: Tokens<'a>,
}

// How many tokens of an access are owed, of so many.
fn owed_tokens(tokens: &Tokens, count: usize) -> usize
    requires { count ≡ length tokens.now }
    ensures { result ≡ owed_tokens tokens.now }
{
    if tokens.begins_with(b"scan") || tokens.begins_with(b"swap") {
        return 3;
    }
    let finds = tokens.begins_with(b"read")
        || tokens.begins_with(b"listener")
        || tokens.begins_with(b"signal")
        || tokens.begins_with(b"pop");
    if finds { 2 } else { count }
}

// The groups of an access with its reply.
fn groups_of_step<'a>(tokens: &Tokens<'a>) -> Groups<'a>
    ensures { AreGroups result (access_groups (before_reply tokens.now) (from_reply tokens.now)) }
{
    let count = tokens.count_before_reply();
    let access = tokens.first(count);
    let reply = tokens.behind(count);
    let owed = owed_tokens(&access, count);
    let found = access.behind(owed);
    if access.begins_with(b"read") {
        return Groups {
            owed: access.first(owed),
            word: found,
            event: Tokens::none(),
            reply,
        };
    }
    Groups {
        owed: access.first(owed),
        word: Tokens::none(),
        event: found,
        reply,
    }
}

// The groups of an answer to the line.
pub(crate) fn groups_of<'a>(line: &ScriptLine, tokens: &Tokens<'a>) -> Groups<'a>
    ensures { AreGroups result (groups_of line.now tokens.now) }
{
    match line {
        ScriptLine::Board(Line::Step { .. }) => groups_of_step(tokens),
        ScriptLine::Board(Line::Words { .. }) => Groups {
            owed: tokens.first(1),
            word: tokens.behind(1),
            event: Tokens::none(),
            reply: Tokens::none(),
        },
        _ => Groups {
            owed: tokens.again(),
            word: Tokens::none(),
            event: Tokens::none(),
            reply: Tokens::none(),
        },
    }
}

// A refusal with its reason, where it is one.
pub(crate) fn refusal_of<'a>(tokens: &Tokens<'a>) -> Tokens<'a>
    ensures { result ≡ refusal_of tokens.now }
{
    if tokens.begins_with(b"refused") {
        return tokens.again();
    }
    Tokens::none()
}
