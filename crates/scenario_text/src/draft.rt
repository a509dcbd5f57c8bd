//! A scenario while its lines are read, and the limits of it.

ghost use Rattle.std.specs.Prelude.{◌≡◌, ◌*◌, ◌^◌, ◌<◌, ◌≤◌, ◌||◌, ℕ, Bool, not, List, length, IfOk, IfSome, min};
ghost use Rattle.std.specs.Prelude.{unwrap_or, nat_lt};
ghost use Rattle.scenario_text.specs.Drafts as drafts;
ghost use Rattle.scenario_text.specs.declared.scenario.Step.{Step};

use crate::lists::Lines;
use crate::names::{Names, has_name};
use crate::roles::{Roles, brings_again, is_listener, is_socket};
use crate::scenario::{AppLine, HostLine, KillLine, MoveLine, Step};
use crate::statement::{Given, Statement};
use link_script::{LinkScript, Target};
use std::alloc::{AllocError, Global};

/// The most hosts.
const MOST_HOSTS: usize = 8;
/// The most applications.
const MOST_APPS: usize = 2_048;
/// The most steps of an application.
const MOST_STEPS: usize = 1_000;

/// The most bytes of the rings of one direction of all flows of a host.
const MOST_BYTES: u64 = 67_108_864;

/// The least ring whose window a field shows with this shift: 256 units, in bytes.
fn least_ring(scale: Option<u8>) -> u64
    ensures { result ≡ 256 * 2 ^ min (unwrap_or scale 0) 32 }
{
    256 << scale.unwrap_or(0).min(32)
}

/// Whether a ring is below the least one of its shift.
fn is_below_least(ring: u32, scale: Option<u8>) -> bool
    ensures { result ≡ nat_lt ring (256 * 2 ^ unwrap_or scale 0) }
{
    u64::from(ring) < least_ring(scale)
}

/// Whether a host's ring is too small for its shift, or its rings are too large for its slots.
fn is_large(given: &Given) -> bool
    ensures { result ≡ drafts.is_large given.now }
{
    let ring = given.ring.unwrap_or(16_384);
    let slots = given.slots.unwrap_or(1_024);
    is_below_least(ring, given.scale) || u64::from(slots) * u64::from(ring) > MOST_BYTES
}

/// A scenario as far as it was read.
#[derive(Drop)]
pub struct Draft {
    pub limit: Option<u32>,
    pub hosts: Lines<HostLine>,
    pub apps: Lines<AppLine>,
    pub link: LinkScript,
    pub moves: Lines<MoveLine>,
    pub kills: Lines<KillLine>,
}

/// The place of the host of a name.
pub(crate) fn host_of(hosts: &[HostLine], name: &[u8]) -> Option<usize>
    ensures host { result ≡ drafts.host_of hosts.now name.now }
    ensures below { IfSome result (λ i. i < length hosts.now) }
{
    hosts.iter().position(|host| host.name.as_slice() == name)
}

/// Whether there is a host of a name.
pub(crate) fn has_host(hosts: &[HostLine], name: &[u8]) -> bool
    ensures { result ≡ drafts.has_host hosts.now name.now }
{
    host_of(hosts, name).is_some()
}

fn has_address(hosts: &[HostLine], addr: u32) -> bool
    ensures { result ≡ drafts.has_address hosts.now addr }
{
    hosts.iter().any(|host| host.params.addr == addr)
}

/// Whether a step names a listener, a host or a socket that does not stand.
fn is_lost_step(hosts: &[HostLine], roles: &Roles, step: &Step) -> bool
    ensures { (before : List Step) → drafts.AreRoles roles.now before
        → result ≡ drafts.is_lost_step hosts.now before step.now }
{
    match step {
        Step::Listen(_, _) | Step::Wait(_) => false,
        Step::Accept(_, listener) => !is_listener(roles, listener.as_slice()),
        Step::Connect(_, host, _) => !has_host(hosts, host.as_slice()),
        Step::Send(name, _) | Step::Fill(name, _) | Step::Recv(name, _) => !is_socket(
            roles,
            name.as_slice(),
        ),
        Step::Drain(name) | Step::Shut(name) | Step::Close(name) | Step::Abort(name) => !is_socket(
            roles,
            name.as_slice(),
        ),
    }
}

/// Whether a line kills an application that does not stand, or has another word than its form. The error is want of
/// memory.
fn kills_unknown(
    alloc: Global,
    names: &Names,
    line: &KillLine,
    worded: bool,
) -> Result<bool, AllocError>
    ensures { IfOk result (λ b. (test : List ℕ → List ℕ → Bool) → drafts.HaveNames names.now.apps test
        → b ≡ (not worded || not (test line.now.host line.now.app))) }
{
    if !worded {
        return Ok(true);
    }
    let found = has_name(
        alloc,
        &names.apps,
        line.host.as_slice(),
        line.app.as_slice(),
    )?;
    Ok(!found)
}

impl Draft {
    /// What was read before the first line. The error is want of memory.
    pub(crate) fn new(alloc: Global) -> Result<Draft, AllocError>
        ensures { IfOk result (λ d. d ≡ drafts.no_draft) }
    {
        Ok(Draft {
            limit: None,
            hosts: Lines::new(alloc),
            apps: Lines::new(alloc),
            link: LinkScript::new(alloc)?,
            moves: Lines::new(alloc),
            kills: Lines::new(alloc),
        })
    }

    /// The refusal of a line that is of a form, of the lowest kind. The error is want of memory.
    pub(crate) fn judged(
        &self,
        alloc: Global,
        names: &Names,
        statement: &Statement,
    ) -> Result<Option<u8>, AllocError>
        ensures { IfOk result (λ kind. drafts.AreNames names.now self.now → length self.now.hosts ≤ 8
            → kind ≡ drafts.judged self.now statement.now) }
    {
        if self.is_unknown(alloc, names, statement)? {
            return Ok(Some(6));
        }
        if self.repeats(alloc, names, statement)? {
            return Ok(Some(7));
        }
        if self.is_full(statement) {
            return Ok(Some(8));
        }
        Ok(None)
    }

    /// Whether a line has an unknown name, another word than its form, or is a step before any application. The error
    /// is want of memory.
    fn is_unknown(
        &self,
        alloc: Global,
        names: &Names,
        statement: &Statement,
    ) -> Result<bool, AllocError>
        ensures { IfOk result (λ b. drafts.AreNames names.now self.now → b ≡ drafts.is_unknown self.now statement.now) }
    {
        let hosts = self.hosts.as_slice();
        match statement {
            Statement::Limit(_) => Ok(false),
            Statement::Host(_, _, given) => Ok(given.unknown),
            Statement::App(host, _) => Ok(!has_host(hosts, host.as_slice())),
            Statement::Do(step) => Ok(
                self.apps.is_nil() || is_lost_step(hosts, &names.roles, step),
            ),
            Statement::OnFrame(host, _, _, _) => Ok(!has_host(hosts, host.as_slice())),
            Statement::DropEach(host, _) => Ok(!has_host(hosts, host.as_slice())),
            Statement::Move(line, worded) => Ok(!*worded || !has_host(hosts, line.host.as_slice())),
            Statement::Kill(line, worded) => kills_unknown(alloc, names, line, *worded),
        }
    }

    /// Whether a line is a repetition. The error is want of memory.
    fn repeats(
        &self,
        alloc: Global,
        names: &Names,
        statement: &Statement,
    ) -> Result<bool, AllocError>
        ensures { IfOk result (λ b. drafts.AreNames names.now self.now → length self.now.hosts ≤ 8
            → b ≡ drafts.repeats self.now statement.now) }
    {
        let hosts = self.hosts.as_slice();
        match statement {
            Statement::Limit(_) => Ok(self.limit.is_some()),
            Statement::Host(name, addr, given) => {
                Ok(given.repeated || has_host(hosts, name.as_slice()) || has_address(hosts, *addr))
            }
            Statement::App(host, name) => {
                has_name(alloc, &names.apps, host.as_slice(), name.as_slice())
            }
            Statement::Do(step) => Ok(brings_again(&names.roles, step)),
            Statement::OnFrame(host, flow, number, _) => {
                Ok(self.is_second(host.as_slice(), *flow, *number))
            }
            Statement::DropEach(host, _) => Ok(self.is_second_each(host.as_slice())),
            Statement::Move(_, _) => Ok(false),
            Statement::Kill(line, _) => {
                has_name(
                    alloc,
                    &names.kills,
                    line.host.as_slice(),
                    line.app.as_slice(),
                )
            }
        }
    }

    /// Whether a frame of a host has a line.
    fn is_second(&self, host: &[u8], flow: u32, number: u32) -> bool
        ensures { length self.now.hosts ≤ 8
            → result ≡ drafts.is_second self.now.link (drafts.host_of self.now.hosts host.now) flow number }
    {
        match self.number_of(host) {
            Some(host) => self.link.line_on(&Target { host, flow, number }).is_some(),
            None => false,
        }
    }

    /// Whether a host has a `dropeach` line.
    fn is_second_each(&self, host: &[u8]) -> bool
        ensures { length self.now.hosts ≤ 8
            → result ≡ drafts.is_second_each self.now.link (drafts.host_of self.now.hosts host.now) }
    {
        match self.number_of(host) {
            Some(host) => self.link.drop_each_of(host).is_some(),
            None => false,
        }
    }

    /// The number of the host of a name.
    pub(crate) fn number_of(&self, name: &[u8]) -> Option<u32>
        ensures { length self.now.hosts ≤ 8 → result ≡ drafts.host_of self.now.hosts name.now }
    {
        match host_of(self.hosts.as_slice(), name) {
            Some(host) => u32::try_from(host).ok(),
            None => None,
        }
    }

    /// Whether a line goes above a limit.
    fn is_full(&self, statement: &Statement) -> bool
        ensures { result ≡ drafts.is_full self.now statement.now }
    {
        match statement {
            Statement::Host(_, _, given) => self.hosts.len() >= MOST_HOSTS || is_large(given),
            Statement::App(_, _) => self.apps.len() >= MOST_APPS,
            Statement::Do(_) => self.apps.last_steps() >= MOST_STEPS,
            _ => false,
        }
    }
}
