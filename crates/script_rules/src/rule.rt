//! The rules that a pair of a line and its answer may break.
ghost use Rattle.std.specs.Prelude.{◌≡◌, Some};
ghost use Rattle.std.specs.Fmt.{padded};
ghost use Rattle.script_rules.specs.RuleNames.{rule_name};

use std::fmt;

/// What is wrong with a pair, the first that holds in this order.
#[derive(Clone, Copy, Debug, PartialEq, Eq, Drop)]
pub enum Rule {
    /// The line isn't of the grammar.
    Line,
    /// There is no answer, or it isn't of the answer grammar, or it is longer than an answer may be.
    Answer,
    /// The line has a reason, and the answer isn't `refused` with it, or it has none and is refused.
    Reason,
    /// The answer hasn't the form of the line, or a step's access isn't the owed one.
    Owed,
    /// A word that was read, or that is listed, isn't the one that stands.
    Word,
    /// What an event answered isn't what it holds.
    Event,
    /// A reply is there and not due, or due and not there, or isn't the one that is due.
    Reply,
}

impl Rule {
    /// The rule's name in lower case, as a verdict prints it.
    pub fn as_str(&self) -> &'static str
        ensures { result.now ≡ rule_name self.now }
    {
        match self {
            Rule::Line => "line",
            Rule::Answer => "answer",
            Rule::Reason => "reason",
            Rule::Owed => "owed",
            Rule::Word => "word",
            Rule::Event => "event",
            Rule::Reply => "reply",
        }
    }
}

impl fmt::Display for Rule {
    ghost output = { λ rule. Some (rule_name rule) };

    ghost styled_output = { λ rule spec. Some (padded spec (rule_name rule)) };

    fn fmt<W: fmt::Write>(&self, f: &mut fmt::Formatter<W>) -> fmt::Result {
        f.pad(self.as_str())
    }
}
