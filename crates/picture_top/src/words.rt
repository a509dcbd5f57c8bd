//! The words of the program: which flow they ask for, and how its numbers are told.

ghost use Rattle.std.specs.Prelude.{◌≡◌, map, option_map, string_bytes};
ghost use Rattle.picture_top.specs.Words as forms;
ghost use Rattle.picture_top.specs.Asking.{name_in, asked_in, progress_in};

use itoa::Buffer;

/// A flow, by its host's name and its opening number.
#[derive(Clone, Copy, Debug)]
pub struct FlowName<'a> {
    pub host: &'a str,
    pub number: u32,
}

/// What the words ask for: the flow that they name, or else the first, and whether its numbers are absolute.
#[derive(Clone, Copy, Debug)]
pub struct Asked<'a> {
    pub flow: Option<FlowName<'a>>,
    pub absolute: bool,
}

/// How far the words were read.
#[derive(Clone, Copy, Debug)]
pub enum Progress<'a> {
    /// They are of no form.
    Refused,
    /// An option may come next.
    Reads(Asked<'a>),
    /// The flow of `--flow` has to come next.
    WantsFlow(Asked<'a>),
}

/// What the words ask for; `None` where they are of no form: `--flow HOST:N`, or `--flow=HOST:N`, and `--absolute`, in
/// any order and each at most once.
pub fn asked_by(words: &[String]) -> Option<Asked<'_>>
    ensures { option_map asked_in result ≡ forms.asked_by (map string_bytes words.now) }
{
    match progress_of(words) {
        Progress::Reads(asked) => Some(asked),
        _ => None,
    }
}

/// How far the words are read.
fn progress_of(words: &[String]) -> Progress<'_>
    ensures { progress_in result ≡ forms.progress_of (map string_bytes words.now) }
{
    let mut progress = Progress::Reads(Asked {
        flow: None,
        absolute: false,
    });
    for word in words {
        progress = progress.after(word.as_str());
    }
    progress
}

/// The number below 2^32 that the text writes, in decimal without sign or leading zero.
fn number_in(text: &str) -> Option<u32>
    ensures { result ≡ forms.number_in text.now }
{
    let Ok(number) = text.parse::<u32>() else {
        return None;
    };
    if text == Buffer::new().format(number) {
        Some(number)
    } else {
        None
    }
}

/// The flow that `HOST:N` names.
fn flow_in(text: &str) -> Option<FlowName<'_>>
    ensures { option_map name_in result ≡ forms.flow_in text.now }
{
    let (host, number) = text.split_once(':')?;
    named(host, number_in(number))
}

/// The flow of this number, where there is one, of a host that has a name.
fn named(host: &str, number: Option<u32>) -> Option<FlowName<'_>>
    ensures { option_map name_in result ≡ forms.named host.now number }
{
    let number = number?;
    if host.is_empty() {
        return None;
    }
    Some(FlowName { host, number })
}

/// What stands behind this name in a word.
fn behind<'a>(name: &str, word: &'a str) -> Option<&'a str>
    ensures { option_map (λ text. text.now) result ≡ forms.behind name.now word.now }
{
    word.strip_prefix(name)
}

impl<'a> Progress<'a> {
    /// One word more.
    fn after(self, word: &'a str) -> Progress<'a>
        ensures { progress_in result ≡ forms.after_word (progress_in self.entry) word.now }
    {
        match self {
            Progress::Refused => Progress::Refused,
            Progress::WantsFlow(asked) => asked.with_flow(flow_in(word)),
            Progress::Reads(asked) => asked.with_option(word),
        }
    }
}

impl<'a> Asked<'a> {
    /// One option more.
    fn with_option(self, word: &'a str) -> Progress<'a>
        ensures { progress_in result ≡ forms.with_option (asked_in self.entry) word.now }
    {
        match word {
            "--absolute" => self.with_absolute(),
            "--flow" => Progress::WantsFlow(self),
            _ => self.with_value(behind("--flow=", word)),
        }
    }

    /// The option that bears its value.
    fn with_value(self, text: Option<&'a str>) -> Progress<'a>
        ensures { progress_in result ≡ forms.with_value (asked_in self.entry) (option_map (λ t. t.now) text.entry) }
    {
        match text {
            Some(text) => self.with_flow(flow_in(text)),
            None => Progress::Refused,
        }
    }

    fn with_absolute(self) -> Progress<'a>
        ensures { progress_in result ≡ forms.with_absolute (asked_in self.entry) }
    {
        if self.absolute {
            return Progress::Refused;
        }
        Progress::Reads(Asked {
            absolute: true,
            ..self
        })
    }

    fn with_flow(self, flow: Option<FlowName<'a>>) -> Progress<'a>
        ensures { progress_in result ≡ forms.with_flow (asked_in self.entry) (option_map name_in flow.entry) }
    {
        if self.flow.is_some() || flow.is_none() {
            return Progress::Refused;
        }
        Progress::Reads(Asked { flow, ..self })
    }
}
