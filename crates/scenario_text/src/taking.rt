//! A line is taken up, behind those before it.

ghost use Rattle.std.specs.Prelude.{◌≡◌, ◌≤◌, ◌++◌, ◌∷◌, [], length, true, false, OnOk, None};
ghost use Rattle.scenario_text.specs.Drafts as drafts;

use crate::draft::Draft;
use crate::lists::Lines;
use crate::names::{Names, take_name};
use crate::roles::take_role;
use crate::scenario::{AppLine, HostLine, KillLine, Step};
use crate::statement::{Given, Statement};
use link_script::LinkAct;
use std::alloc::{AllocError, Global};
use tas_model::{Bytes, HostParams};

/// A host with the options that its line gives, and with those that stand else.
fn host_with(name: Bytes, addr: u32, given: Given) -> HostLine
    ensures { result ≡ drafts.host_with name addr given }
{
    HostLine {
        name,
        params: HostParams {
            addr,
            iss: given.iss.unwrap_or(0),
            ring: given.ring.unwrap_or(16_384),
            mss: given.mss.unwrap_or(1_460),
            rto: given.rto.unwrap_or(20),
            slots: given.slots.unwrap_or(1_024),
            backlog: given.backlog.unwrap_or(16),
            fixed: false,
            scale: given.scale,
        },
    }
}

impl Draft {
    /// Takes a line up that is not refused. The error is want of memory.
    pub(crate) fn take(
        &mut self,
        alloc: Global,
        names: &mut Names,
        statement: Statement,
    ) -> Result<(), AllocError>
        requires names { drafts.AreNames names.old self.old }
        requires few { length self.old.hosts ≤ 8 }
        requires right { drafts.judged self.old statement ≡ None }
        ensures names { OnOk result (drafts.AreNames names.new self.new) }
        ensures few { OnOk result (length self.new.hosts ≤ 8) }
        ensures line { OnOk result (self.new ≡ drafts.with_line self.old statement) }
    {
        match statement {
            Statement::Limit(ticks) => {
                self.limit = Some(ticks);
                Ok(())
            }
            Statement::Host(name, addr, given) => self.hosts.push(host_with(name, addr, given)),
            Statement::App(host, name) => self.take_app(alloc, names, host, name),
            Statement::Do(step) => self.take_step(alloc, names, step),
            Statement::OnFrame(host, flow, number, act) => self.take_act(&host, flow, number, act),
            Statement::DropEach(host, k) => self.take_drop_each(&host, k),
            Statement::Move(line, _) => self.moves.push(line),
            Statement::Kill(line, _) => self.take_kill(alloc, names, line),
        }
    }

    /// Takes an application up, which has no names yet. The error is want of memory.
    fn take_app(
        &mut self,
        alloc: Global,
        names: &mut Names,
        host: Bytes,
        name: Bytes,
    ) -> Result<(), AllocError>
        ensures apps { OnOk result (self.new ≡ drafts.with_line self.old (Statement.App host name)) }
        ensures names { OnOk result (drafts.AreNames names.old self.old
            → drafts.AreNames names.new (drafts.with_line self.old (Statement.App host name))) }
    {
        names.roles.clear();
        take_name(alloc, &mut names.apps, host.as_slice(), name.as_slice())?;
        self.apps.push(AppLine {
            host,
            name,
            steps: Lines::new(alloc),
        })
    }

    /// Takes a step of the last application up. The error is want of memory.
    fn take_step(&mut self, alloc: Global, names: &mut Names, step: Step) -> Result<(), AllocError>
        requires some { drafts.is_nil self.old.apps ≡ false }
        requires fresh { drafts.brings_again (drafts.last_steps self.old.apps) (drafts.brings step) ≡ false }
        ensures apps { OnOk result (self.new ≡ record self.old { apps = drafts.with_step self.old.apps step }) }
        ensures names { OnOk result (drafts.AreNames names.old self.old
            → drafts.AreNames names.new (record self.old { apps = drafts.with_step self.old.apps step })) }
    {
        take_role(alloc, &mut names.roles, &step)?;
        self.apps.push_step(step)
    }

    /// Takes a kill up. The error is want of memory.
    fn take_kill(
        &mut self,
        alloc: Global,
        names: &mut Names,
        line: KillLine,
    ) -> Result<(), AllocError>
        ensures kills { OnOk result (self.new ≡ record self.old { kills = self.old.kills ++ line ∷ [] }) }
        ensures names { OnOk result (drafts.AreNames names.old self.old
            → drafts.AreNames names.new (record self.old { kills = self.old.kills ++ line ∷ [] })) }
    {
        take_name(
            alloc,
            &mut names.kills,
            line.host.as_slice(),
            line.app.as_slice(),
        )?;
        self.kills.push(line)
    }

    /// Takes a line on a frame up, which is the first one on it. The error is want of memory.
    fn take_act(
        &mut self,
        host: &Bytes,
        flow: u32,
        number: u32,
        act: LinkAct,
    ) -> Result<(), AllocError>
        requires few { length self.old.hosts ≤ 8 }
        requires first { drafts.is_second self.old.link (drafts.host_of self.old.hosts host.now) flow number ≡ false }
        requires known { drafts.has_host self.old.hosts host.now ≡ true }
        ensures { OnOk result (self.new ≡ drafts.with_line self.old (Statement.OnFrame host.now flow number act)) }
    {
        match self.number_of(host.as_slice()) {
            Some(host) => self.link.add(host, flow, number, act),
            None => Ok(()),
        }
    }

    /// Takes a `dropeach` line up, which is the first one of its host. The error is want of memory.
    fn take_drop_each(&mut self, host: &Bytes, k: u32) -> Result<(), AllocError>
        requires few { length self.old.hosts ≤ 8 }
        requires first { drafts.is_second_each self.old.link (drafts.host_of self.old.hosts host.now) ≡ false }
        requires known { drafts.has_host self.old.hosts host.now ≡ true }
        ensures { OnOk result (self.new ≡ drafts.with_line self.old (Statement.DropEach host.now k)) }
    {
        match self.number_of(host.as_slice()) {
            Some(host) => self.link.drop_each(host, k),
            None => Ok(()),
        }
    }
}
