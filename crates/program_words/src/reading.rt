//! From words to what they ask for, or to their refusal.

ghost use Rattle.std.specs.Prelude.{◌≡◌, map, string_bytes, true, false, Some, IfOk, IfErr, IfSome, IfNone};
ghost use Rattle.std.specs.Net.Grammar.{IsIpv4Text};
ghost use Rattle.std.specs.declared.net.ipv4_addr.Ipv4Addr.{Ipv4Addr};
ghost use Rattle.clap.specs.Words.{Text, found_of, one_text, subcommand_rows_of};
ghost use Rattle.program_words.specs.Words as forms;
ghost use Rattle.program_words.specs.Requests.{form_in, request_in};
ghost use Rattle.program_words.specs.Faults.{Refuses};
ghost use Rattle.program_words.specs.Found.{AreTaken, found_in, name_in, text_in};

use crate::canonical::{bulk_words, replay_words, run_words};
use crate::command::program;
use crate::forms::{Form, form_of};
use crate::requests::{Input, Request};
use clap::ArgMatches;
use clap::error::ErrorKind;
use std::alloc::{AllocError, Global};
use std::net::Ipv4Addr;

/// Why words ask for no run.
#[derive(Clone, Copy, PartialEq, Eq, Debug)]
pub enum WordsFault {
    /// They are of no form of the program.
    Unknown,
    /// They ask for a run, and there was no memory to read them.
    OutOfMemory,
}

/// What the words ask for: `run`, with `--serial` or `--cores N`, and with `--pcap`, where they are wanted; `bulk N`
/// for N clients, from 1 to 1,000, with `--serial` or `--cores N`; or `replay`, with `--local ADDRESS` or
/// `--local=ADDRESS`, and with `--cores N`, `--pcap` and `--loose-sums`. N of `--cores N`, or of `--cores=N`, is from 1
/// to 16. Options stand in any order and each at most once. The error is `Unknown` where they are of no form of the
/// program. Words of a form are put into one order, and `clap` reads them; the only error is then want of memory.
pub fn read_words(alloc: Global, words: &[String]) -> Result<Request, WordsFault>
    ensures ok { IfOk result (λ r. forms.Asks (forms.form_of (map string_bytes words.now)) (request_in r)) }
    ensures err { IfErr result (Refuses (forms.form_of (map string_bytes words.now))) }
{
    let form = form_of(words);
    if !is_form(&form) {
        return Err(WordsFault::Unknown);
    }
    match request_of(alloc, form) {
        Ok(request) => Ok(request),
        Err(_) => Err(WordsFault::OutOfMemory),
    }
}

/// Whether the words name cores, as those of a form of the program with `--cores` do. It takes no memory.
pub fn names_cores(words: &[String]) -> bool
    ensures { result ≡ forms.names_cores (forms.form_of (map string_bytes words.now)) }
{
    match form_of(words) {
        Form::Unknown => false,
        Form::Run { cores, .. } | Form::Bulk { cores, .. } | Form::Replay { cores, .. } => {
            cores.is_some()
        }
    }
}

/// Whether words of this form are of a form of the program.
fn is_form(form: &Form<'_>) -> bool
    ensures is { result ≡ true → forms.IsForm (form_in form.now) }
    ensures not { result ≡ false → ¬ forms.IsForm (form_in form.now) }
{
    match *form {
        Form::Unknown => false,
        Form::Run { .. } | Form::Bulk { .. } => true,
        Form::Replay { local, .. } => address_in(local).is_some(),
    }
}

/// What is asked for by words of this form.
fn request_of(alloc: Global, form: Form<'_>) -> Result<Request, AllocError>
    requires { forms.IsForm (form_in form) }
    ensures { IfOk result (λ r. forms.Asks (form_in form.entry) (request_in r)) }
{
    match form {
        Form::Run { cores, pcap } => run_request(alloc, cores, pcap),
        Form::Bulk { clients, cores } => bulk_request(alloc, clients, cores),
        Form::Replay {
            local,
            cores,
            pcap,
            loose,
        } => replay_request(alloc, local, cores, pcap, loose),
        Form::Unknown => unreachable!(),
    }
}

/// The address that the text writes.
fn address_in(text: &str) -> Option<Ipv4Addr>
    ensures some { IfSome result (IsIpv4Text text.now) }
    ensures none { IfNone result ((address : Ipv4Addr) → ¬ IsIpv4Text text.now address) }
{
    text.parse().ok()
}

/// What is asked for by `run`.
fn run_request(alloc: Global, cores: Option<u32>, pcap: bool) -> Result<Request, AllocError>
    ensures { IfOk result (λ r. forms.Asks (forms.Run cores pcap) (request_in r)) }
{
    let words = run_words(alloc, cores, pcap)?;
    let matches = matches_of(alloc, &words)?;
    let found = found_for(&matches, "run");
    Ok(Request {
        input: Input::Scenario,
        cores: found.get_one::<u32>("cores"),
        pcap: found.get_flag("pcap"),
    })
}

/// What is asked for by `bulk`.
fn bulk_request(alloc: Global, clients: u32, cores: Option<u32>) -> Result<Request, AllocError>
    ensures { IfOk result (λ r. forms.Asks (forms.Bulk clients cores) (request_in r)) }
{
    let words = bulk_words(alloc, clients, cores)?;
    let matches = matches_of(alloc, &words)?;
    let found = found_for(&matches, "bulk");
    let Some(number) = found.get_one::<u32>("clients") else {
        unreachable!()
    };
    Ok(Request {
        input: Input::Made { clients: number },
        cores: found.get_one::<u32>("cores"),
        pcap: false,
    })
}

/// What is asked for by `replay`, with the text of an address.
fn replay_request(
    alloc: Global,
    local: &str,
    cores: Option<u32>,
    pcap: bool,
    loose: bool,
) -> Result<Request, AllocError>
    requires { forms.IsForm (forms.Replay local.now cores pcap loose) }
    ensures { IfOk result (λ r. forms.Asks (forms.Replay local.now cores pcap loose) (request_in r)) }
{
    let words = replay_words(alloc, local, cores, pcap, loose)?;
    let matches = matches_of(alloc, &words)?;
    let found = found_for(&matches, "replay");
    let Some(address) = found.get_one::<Ipv4Addr>("local") else {
        unreachable!()
    };
    Ok(Request {
        input: Input::Capture {
            local: address,
            loose: found.get_flag("loose-sums"),
        },
        cores: found.get_one::<u32>("cores"),
        pcap: found.get_flag("pcap"),
    })
}

/// What `clap` finds in words that the command takes. It refuses them only for want of memory.
fn matches_of<'a>(alloc: Global, words: &'a [String]) -> Result<ArgMatches<'a>, AllocError>
    requires { AreTaken (map string_bytes words.now) }
    ensures { IfOk result (λ m. subcommand_rows_of m ≡ found_in (map string_bytes words.now)) }
{
    match program(alloc)?.try_get_matches_from(words) {
        Ok(matches) => Ok(matches),
        Err(error) => match error.kind() {
            ErrorKind::OutOfMemory => Err(AllocError),
            _ => unreachable!(),
        },
    }
}

/// What was found for the subcommand, which has this name.
fn found_for<'m, 'a>(matches: &'m ArgMatches<'a>, name: &str) -> &'m ArgMatches<'a>
    requires { name_in (subcommand_rows_of matches.now) ≡ Some name.now }
    ensures { (id : Text) → text_in id (subcommand_rows_of matches.now) ≡ Some (one_text (found_of result.now) id) }
{
    match matches.subcommand_matches(name) {
        Some(found) => found,
        None => unreachable!(),
    }
}
