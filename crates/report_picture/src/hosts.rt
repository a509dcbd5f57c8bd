//! The hosts that a report names.

ghost use Rattle.std.specs.Prelude.{◌≡◌, ◌||◌, bytes_eq, map, OnOk, IfOk, []};
ghost use Rattle.std.specs.List.{list_any};
ghost use Rattle.scenario_text.specs.Words as words;
ghost use Rattle.report_lines.specs.Shown.{AreNames};
ghost use Rattle.report_picture.specs.Hosts as rules;

use crate::lines::{before, behind, next_line};
use report_lines::{ReportLine, read_line};
use std::alloc::{AllocError, Global};

/// What a report names: whether it is one of a replay, and its hosts, by their names and their addresses.
#[derive(Drop)]
pub struct Hosts<'a> {
    pub replay: bool,
    pub names: Vec<&'a [u8]>,
    pub addrs: Vec<u32>,
}

/// Whether a byte may stand in a host's name.
fn is_of_name(c: u8) -> bool
    ensures { result ≡ words.is_letter c || words.is_digit c }
{
    c >= b'a' && c <= b'z' || c >= b'0' && c <= b'9'
}

/// Whether a name is of letters and digits.
fn is_plain(name: &[u8]) -> bool
    ensures { result ≡ rules.is_plain name.now }
{
    name.iter().all(|c| is_of_name(*c))
}

/// The address that a line tells of a host of this name.
fn told_addr(name: &[u8], line: &[u8]) -> Option<u32>
    ensures { result ≡ rules.told_addr name.now line.now }
{
    if !is_plain(name) {
        return None;
    }
    match read_line(&[name], before(b'\n', line)) {
        Some(ReportLine::Host { addr, .. }) => Some(addr),
        _ => None,
    }
}

/// Whether this is one of the names, which stand there as slices.
fn any_is(names: &[&[u8]], name: &[u8]) -> bool
    ensures { result ≡ list_any (λ n. bytes_eq n.now name.now) names.now }
{
    names.iter().any(|n| *n == name)
}

/// Whether this is one of the names.
fn is_among(names: &[&[u8]], name: &[u8]) -> bool
    ensures { result ≡ rules.is_there (map (λ n. n.now) names.now) name.now }
{
    any_is(names, name)
}

impl<'a> Hosts<'a> {
    /// No host was named yet.
    fn new(alloc: Global, replay: bool) -> Hosts<'a>
        ensures { rules.seen_hosts result ≡ record { replay = replay; names = []; addrs = [] } }
    {
        Hosts {
            replay,
            names: Vec::new(alloc),
            addrs: Vec::new(alloc),
        }
    }

    /// Whether a host has this name.
    fn is_there(&self, name: &[u8]) -> bool
        ensures { result ≡ rules.is_there (rules.seen_hosts self.now).names name.now }
    {
        is_among(&self.names, name)
    }

    /// Whether one host more may have this name: none has it, and a replay has one host, `local`.
    fn may_be_named(&self, name: &[u8]) -> bool
        ensures { result ≡ rules.may_be_named (rules.seen_hosts self.now) name.now }
    {
        self.names.len() < 8
            && !self.is_there(name)
            && (!self.replay || name == b"local".as_slice())
    }

    /// Takes a host of this name, where its address is told. The error is want of memory.
    fn take_named(&mut self, name: &'a [u8], addr: Option<u32>) -> Result<(), AllocError>
        ensures { OnOk result (rules.seen_hosts self.new ≡ rules.with_addr (rules.seen_hosts self.old) name.now addr) }
    {
        let Some(addr) = addr else {
            return Ok(());
        };
        if !self.may_be_named(name) {
            return Ok(());
        }
        self.names.push(name)?;
        self.addrs.push(addr)?;
        Ok(())
    }

    /// Takes a line: where it is a host's, that host. The error is want of memory.
    fn take(&mut self, line: &'a [u8]) -> Result<(), AllocError>
        ensures { OnOk result (rules.seen_hosts self.new ≡ rules.with_text (rules.seen_hosts self.old) line.now) }
    {
        let Some(rest) = behind(line, b"host ") else {
            return Ok(());
        };
        let name = before(b' ', rest);
        self.take_named(name, told_addr(name, line))
    }
}

/// The hosts that a report names, each once. The error is want of memory.
pub fn hosts_of(alloc: Global, report: &[u8]) -> Result<Hosts<'_>, AllocError>
    ensures hosts { IfOk result (λ h. rules.seen_hosts h ≡ rules.hosts_in report.now) }
    ensures names { IfOk result (λ h. AreNames (rules.seen_hosts h).names) }
{
    let replay = behind(report, b"tas replay\n").is_some();
    let mut hosts = Hosts::new(alloc, replay);
    let mut rest = report;
    while let Some((line, more)) = next_line(rest) {
        hosts.take(line)?;
        rest = more;
    }
    Ok(hosts)
}
