//! What a program says about itself.
ghost use Rattle.program_words.specs.Texts.{asked_text, asks_for_help as asks_for_help_of, help_on as help_on_of};
ghost use Rattle.program_words.specs.Texts.{text_of_cause as text_of_cause_of};
ghost use Rattle.std.specs.Option.{option_map};
ghost use Rattle.std.specs.Prelude.{drop, ◌≡◌, ◌<◌, length};

use crate::causes::CauseText;
use weave_base::Words;

/// The texts that a program has about itself.
#[derive(Clone, Copy, Debug)]
pub struct ProgramTexts {
    /// What the program does, its words, and its exit statuses.
    pub help: &'static str,
    /// The program's name and version.
    pub version: &'static str,
    /// What the causes of the program's error lines mean.
    pub causes: &'static [CauseText],
}

fn asks_for_help(word: &str) -> bool
    ensures { result ≡ asks_for_help_of word.now }
{
    word == "--help" || word == "-h" || word == "help"
}

fn text_of_cause(name: &str, causes: &'static [CauseText]) -> Option<&'static str>
    ensures { option_map (λ text. text.now) result ≡ text_of_cause_of name.now causes.now }
{
    causes
        .iter()
        .find(|cause| cause.name == name)
        .map(|cause| cause.text)
}

// The help that the words after the first ask for.
fn help_on(words: &Words, texts: ProgramTexts) -> &'static str
    requires { 0 < length words.now }
    ensures { result.now ≡ help_on_of texts (drop 1 words.now) }
{
    if words.len() < 2 {
        return texts.help;
    }
    match text_of_cause(words.get(1), texts.causes) {
        Some(text) => text,
        None => texts.help,
    }
}

/// The text that the first word asks for: `--help`, `-h` or `help`, or `--version`. A cause after a word for help asks
/// for the text of that cause.
pub fn text_of(words: &Words, texts: ProgramTexts) -> Option<&'static str>
    ensures { option_map (λ text. text.now) result ≡ asked_text texts words.now }
{
    if words.is_empty() {
        return None;
    }
    if asks_for_help(words.get(0)) {
        return Some(help_on(words, texts));
    }
    if words.get(0) == "--version" {
        Some(texts.version)
    } else {
        None
    }
}
