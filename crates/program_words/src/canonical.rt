//! The words of a run in one order, as the command line's reader takes them.

ghost use Rattle.std.specs.Prelude.{◌≡◌, ◌++◌, ◌∷◌, [], map, string_bytes, codes, IfOk, OnOk};
ghost use Rattle.program_words.specs.Canonical as canonical;

use itoa::Buffer;
use std::alloc::{AllocError, Global};

/// The words of a run of a scenario, in their order.
pub fn run_words(alloc: Global, cores: Option<u32>, pcap: bool) -> Result<Vec<String>, AllocError>
    ensures { IfOk result (λ words. map string_bytes words.items ≡ canonical.run_words cores pcap) }
{
    let mut words = command_words(alloc, "run")?;
    add_cores(alloc, &mut words, cores)?;
    add_given(alloc, &mut words, pcap, "--pcap")?;
    Ok(words)
}

/// Those of a made scenario.
pub fn bulk_words(
    alloc: Global,
    clients: u32,
    cores: Option<u32>,
) -> Result<Vec<String>, AllocError>
    ensures { IfOk result (λ words. map string_bytes words.items ≡ canonical.bulk_words clients cores) }
{
    let mut words = command_words(alloc, "bulk")?;
    add_cores(alloc, &mut words, cores)?;
    add(alloc, &mut words, "--")?;
    add(alloc, &mut words, Buffer::new().format(clients))?;
    Ok(words)
}

/// Those of a replay.
pub fn replay_words(
    alloc: Global,
    local: &str,
    cores: Option<u32>,
    pcap: bool,
    loose: bool,
) -> Result<Vec<String>, AllocError>
    ensures { IfOk result (λ words. map string_bytes words.items ≡ canonical.replay_words local.now cores pcap loose) }
{
    let mut words = command_words(alloc, "replay")?;
    words.push(format!(in alloc; "--local={local}")?)?;
    add_cores(alloc, &mut words, cores)?;
    add_given(alloc, &mut words, pcap, "--pcap")?;
    add_given(alloc, &mut words, loose, "--loose-sums")?;
    Ok(words)
}

/// The name of the program, and this command.
fn command_words(alloc: Global, command: &str) -> Result<Vec<String>, AllocError>
    ensures { IfOk result (λ words. map string_bytes words.items ≡ codes "tas" ∷ command.now ∷ []) }
{
    let mut words = Vec::new(alloc);
    add(alloc, &mut words, "tas")?;
    add(alloc, &mut words, command)?;
    Ok(words)
}

/// One word more.
fn add(alloc: Global, words: &mut Vec<String>, word: &str) -> Result<(), AllocError>
    ensures { OnOk result (map string_bytes words.new.items ≡ map string_bytes words.old.items ++ word.now ∷ []) }
{
    words.push(String::from_str(alloc, word)?)?;
    Ok(())
}

/// An option more, where it is given.
fn add_given(
    alloc: Global,
    words: &mut Vec<String>,
    given: bool,
    option: &str,
) -> Result<(), AllocError>
    ensures { OnOk result (map string_bytes words.new.items
        ≡ map string_bytes words.old.items ++ canonical.where_given given option.now) }
{
    if given {
        add(alloc, words, option)?;
    }
    Ok(())
}

/// The option of the cores, where they are asked for.
fn add_cores(alloc: Global, words: &mut Vec<String>, cores: Option<u32>) -> Result<(), AllocError>
    ensures { OnOk result (map string_bytes words.new.items
        ≡ map string_bytes words.old.items ++ canonical.cores_words cores) }
{
    if let Some(count) = cores {
        let mut buffer = Buffer::new();
        let number = buffer.format(count);
        words.push(format!(in alloc; "--cores={number}")?)?;
    }
    Ok(())
}
