//! The grammar of the program's words.

ghost use Rattle.std.specs.Prelude.{◌≡◌, ◌∷◌, List, map, decimal, string_bytes, fold, option_map};
ghost use Rattle.std.specs.Prelude.{bytes_eq, nat_le, ◌&&◌};
ghost use Rattle.program_words.specs.Words as forms;
ghost use Rattle.program_words.specs.Requests.{progress_in, options_in, form_in};

use itoa::Buffer;

/// The most cores that may be asked for.
const MOST_CORES: u32 = 16;

/// The most that `bulk` may be asked for.
const MOST_BULK: u32 = 1000;

/// What the words are.
#[derive(Clone, Copy, Debug)]
pub enum Form<'a> {
    /// They are of no form.
    Unknown,
    /// A given scenario.
    Run {
        cores: Option<u32>,
        pcap: bool,
    },
    /// A made scenario.
    Bulk {
        clients: u32,
        cores: Option<u32>,
    },
    /// A replay, with the text of its address.
    Replay {
        local: &'a str,
        cores: Option<u32>,
        pcap: bool,
        loose: bool,
    },
}

/// The options, as far as they were read.
#[derive(Clone, Copy, Debug)]
pub struct Options<'a> {
    serial: bool,
    cores: Option<u32>,
    pcap: bool,
    loose: bool,
    local: Option<&'a str>,
}

/// How far the options were read.
#[derive(Clone, Copy, Debug)]
pub enum Progress<'a> {
    /// They are of another form.
    Refused,
    /// An option may come next.
    Reads(Options<'a>),
    /// The number of `--cores` has to come next.
    WantsCores(Options<'a>),
    /// The address of `--local` has to come next.
    WantsAddress(Options<'a>),
}

/// The form of all words.
pub fn form_of(words: &[String]) -> Form<'_>
    ensures { form_in result ≡ forms.form_of (map string_bytes words.now) }
{
    match words {
        [command, rest @ ..] => commanded(command.as_str(), rest),
        [] => Form::Unknown,
    }
}

/// The form of a command and the words behind it.
fn commanded<'a>(command: &str, words: &'a [String]) -> Form<'a>
    ensures { form_in result ≡ forms.form_of (command.now ∷ map string_bytes words.now) }
{
    if command == "run" {
        return options_of(words).run();
    }
    if command == "replay" {
        return options_of(words).replay();
    }
    if command == "bulk" {
        return numbered(words);
    }
    Form::Unknown
}

/// The form of a number and options behind it.
fn numbered(words: &[String]) -> Form<'_>
    ensures { form_in result ≡ forms.numbered_form (map string_bytes words.now) }
{
    match words {
        [number, options @ ..] => options_of(options).bulk(number_in(number.as_str(), MOST_BULK)),
        [] => Form::Unknown,
    }
}

/// How far the words behind the command are read.
fn options_of(words: &[String]) -> Progress<'_>
    ensures { progress_in result ≡ forms.options_of (map string_bytes words.now) }
{
    let mut progress = Progress::Reads(Options {
        serial: false,
        cores: None,
        pcap: false,
        loose: false,
        local: None,
    });
    for word in words {
        progress = progress.after(word.as_str());
    }
    progress
}

/// The number from 1 to `most` that the text writes, in decimal without sign or leading zero.
fn number_in(text: &str, most: u32) -> Option<u32>
    ensures { result ≡ forms.number_in most text.now }
{
    let Ok(number) = text.parse::<u32>() else {
        return None;
    };
    if passes(most, number, text) {
        Some(number)
    } else {
        None
    }
}

/// Whether the number is from 1 to `most`, and the text is its decimal.
fn passes(most: u32, number: u32, text: &str) -> bool
    ensures { result ≡ (nat_le 1 number && nat_le number most && bytes_eq text.now (decimal number)) }
{
    number >= 1 && number <= most && text == Buffer::new().format(number)
}

/// What stands behind this name in a word.
fn behind<'a>(name: &str, word: &'a str) -> Option<&'a str>
    ensures { option_map (λ text. text.now) result ≡ forms.behind name.now word.now }
{
    word.strip_prefix(name)
}

impl<'a> Progress<'a> {
    /// One word more.
    fn after(self, word: &'a str) -> Progress<'a>
        ensures { progress_in result ≡ forms.after_word (progress_in self.entry) word.now }
    {
        match self {
            Progress::Refused => Progress::Refused,
            Progress::WantsCores(options) => options.with_cores(word),
            Progress::WantsAddress(options) => options.with_address(word),
            Progress::Reads(options) => options.with_option(word),
        }
    }

    /// The form of `run` with these options.
    fn run(self) -> Form<'a>
        ensures { form_in result ≡ forms.run_form (progress_in self.entry) }
    {
        match self {
            Progress::Reads(options) if options.takes_scenario() => Form::Run {
                cores: options.cores,
                pcap: options.pcap,
            },
            _ => Form::Unknown,
        }
    }

    /// The form of `bulk` with this number and these options.
    fn bulk(self, number: Option<u32>) -> Form<'a>
        ensures { form_in result ≡ forms.bulk_form number (progress_in self.entry) }
    {
        match (number, self) {
            (Some(clients), Progress::Reads(options))
                if options.takes_scenario() && !options.pcap => {
                Form::Bulk {
                    clients,
                    cores: options.cores,
                }
            }
            _ => Form::Unknown,
        }
    }

    /// The form of `replay` with these options.
    fn replay(self) -> Form<'a>
        ensures { form_in result ≡ forms.replay_form (progress_in self.entry) }
    {
        match self {
            Progress::Reads(options) => options.replay(),
            _ => Form::Unknown,
        }
    }
}

impl<'a> Options<'a> {
    /// Whether a scenario may have these options.
    fn takes_scenario(&self) -> bool
        ensures { result ≡ forms.takes_scenario (options_in self.now) }
    {
        self.local.is_none() && !self.loose && !(self.serial && self.cores.is_some())
    }

    /// The form of a replay with these options.
    fn replay(self) -> Form<'a>
        ensures { form_in result ≡ forms.replay_form (forms.Reads (options_in self.entry)) }
    {
        match self.local {
            Some(local) if !self.serial => Form::Replay {
                local,
                cores: self.cores,
                pcap: self.pcap,
                loose: self.loose,
            },
            _ => Form::Unknown,
        }
    }

    /// The options with one word more.
    fn with_option(self, word: &'a str) -> Progress<'a>
        ensures { progress_in result ≡ forms.with_option (options_in self.entry) word.now }
    {
        match word {
            "--serial" => self.with_serial(),
            "--pcap" => self.with_pcap(),
            "--loose-sums" => self.with_loose(),
            "--cores" => Progress::WantsCores(self),
            "--local" => Progress::WantsAddress(self),
            _ => self.with_value(behind("--cores=", word), behind("--local=", word)),
        }
    }

    /// The options with a word that bears its value: the number of `--cores=`, or the address of `--local=`.
    fn with_value(self, number: Option<&'a str>, text: Option<&'a str>) -> Progress<'a>
        ensures { progress_in result ≡ forms.with_value (options_in self.entry) (option_map (λ n. n.now) number.entry)
            (option_map (λ t. t.now) text.entry) }
    {
        match (number, text) {
            (Some(number), _) => self.with_cores(number),
            (None, Some(text)) => self.with_address(text),
            (None, None) => Progress::Refused,
        }
    }

    fn with_serial(self) -> Progress<'a>
        ensures { progress_in result ≡ forms.with_serial (options_in self.entry) }
    {
        if self.serial {
            return Progress::Refused;
        }
        Progress::Reads(Options {
            serial: true,
            ..self
        })
    }

    fn with_pcap(self) -> Progress<'a>
        ensures { progress_in result ≡ forms.with_pcap (options_in self.entry) }
    {
        if self.pcap {
            return Progress::Refused;
        }
        Progress::Reads(Options { pcap: true, ..self })
    }

    fn with_loose(self) -> Progress<'a>
        ensures { progress_in result ≡ forms.with_loose (options_in self.entry) }
    {
        if self.loose {
            return Progress::Refused;
        }
        Progress::Reads(Options {
            loose: true,
            ..self
        })
    }

    fn with_cores(self, number: &str) -> Progress<'a>
        ensures { progress_in result ≡ forms.with_cores (options_in self.entry) number.now }
    {
        match number_in(number, MOST_CORES) {
            Some(cores) if self.cores.is_none() => Progress::Reads(Options {
                cores: Some(cores),
                ..self
            }),
            _ => Progress::Refused,
        }
    }

    fn with_address(self, text: &'a str) -> Progress<'a>
        ensures { progress_in result ≡ forms.with_address (options_in self.entry) text.now }
    {
        if self.local.is_some() {
            return Progress::Refused;
        }
        Progress::Reads(Options {
            local: Some(text),
            ..self
        })
    }
}
