//! The words of a command line.
ghost use Rattle.std.specs.Prelude.{◌≡◌, ◌≢◌, length};
ghost use Rattle.worlds_cli.specs.Command.{command_of, spelled, asked_for};

/// What is made of a file's bytes.
#[derive(Debug, Drop, Clone, Copy, PartialEq, Eq)]
pub enum Conversion {
    /// The bytes of V8's message of a JSON value, as upper-case hexadecimal digits.
    Wire,
    /// What the bytes of a message of V8's spell.
    Unwire,
}

/// What the words ask for.
#[derive(Drop)]
pub enum Asked<'a> {
    /// Play the application of this folder over this event script.
    Run(&'a str, &'a str),
    /// Convert this file.
    Convert(Conversion, &'a str),
    /// The words fit no command.
    Nothing,
}

/// The command that the words are.
pub fn asked_of(words: &[String]) -> Asked<'_>
    ensures { command_of (spelled words.now) ≡ asked_for result }
{
    match words.len() {
        2 => file_asked(words),
        _ => run_asked(words),
    }
}

// A command of three words, or none.
#[tactic(auto, unfolding(crate::specs::Command::command_of))]
fn run_asked(words: &[String]) -> Asked<'_>
    requires { length words.now ≢ 2 }
    ensures { command_of (spelled words.now) ≡ asked_for result }
{
    let [word, app, script] = words else {
        return Asked::Nothing;
    };
    if word.as_str() == "run" {
        Asked::Run(app.as_str(), script.as_str())
    } else {
        Asked::Nothing
    }
}

// A command of two words, or none.
#[tactic(auto, unfolding(crate::specs::Command::command_of))]
fn file_asked(words: &[String]) -> Asked<'_>
    requires { length words.now ≡ 2 }
    ensures { command_of (spelled words.now) ≡ asked_for result }
{
    let [word, file] = words else {
        return Asked::Nothing;
    };
    if word.as_str() == "wire" {
        return Asked::Convert(Conversion::Wire, file.as_str());
    }
    if word.as_str() == "unwire" {
        return Asked::Convert(Conversion::Unwire, file.as_str());
    }
    Asked::Nothing
}
