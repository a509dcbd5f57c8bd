//! The script of one application, and how far it is.

ghost use Rattle.std.specs.Prelude.{◌≡◌, ◌≤◌, ◌+◌, true, false, not, [], map, filter, bytes_eq, OnOk};
ghost use Rattle.scenario_runs.specs.Applications.{has_ended, is_killed_at, bound_in, port_of, flow_of, bind};
ghost use Rattle.scenario_runs.specs.Applications.{unbind};
ghost use Rattle.scenario_runs.specs.Applications.{stepped, done_or};
ghost use Rattle.std.specs.Option.{option_map, is_some};
ghost use Rattle.scenario_runs.specs.Applications.{bound_in as model_bound_in};
ghost use Rattle.local_host.specs.Live.{took};
ghost use Rattle.scenario_host.specs.Answers.{IsWithin, gave, waited_by, sent_by, received_by};
ghost use Rattle.scenario_host.specs.Scripts.{bound_of, named};

use flow_state::Answer;
use scenario_text::Step;
use std::alloc::{AllocError, Global};
use std::marker::Model;

/// What a name of a script stands for.
#[derive(Clone, Copy, Debug)]
pub enum Bound {
    /// A listener, by its port.
    Listener(u16),
    /// The socket of a flow, by the flow's place on its host.
    Socket(usize),
}

/// A name of a script, and what it stands for.
#[derive(Clone, Copy, Debug)]
pub struct Named<'a> {
    name: &'a [u8],
    bound: Bound,
}

/// An application of a scenario: how far its script is, seen as that script.
#[derive(Drop)]
pub struct AppScript<'a> {
    /// Its number among all applications of the scenario, from 0 on.
    number: u32,
    /// The tick in which it is killed.
    kill: Option<u32>,
    /// Whether it ends with a record in hand then.
    holding: bool,
    /// The steps that are not over; the first is under way.
    left: &'a [Step],
    /// How much of that one is done: ticks waited, bytes taken or received.
    done: u32,
    /// Its connect was made.
    begun: bool,
    names: Vec<Named<'a>>,
}

impl<'a> Model for AppScript<'a> {
    ghost use Rattle.scenario_runs.specs.Applications.{Script};

    ghost Value = { Script };

    ghost use Rattle.scenario_host.specs.Scripts.{script_of};

    ghost view = { script_of };
}

impl<'a> AppScript<'a> {
    /// An application at the start of its script. Where it is killed it ends `holding` a record. It takes no memory.
    pub fn at_start(
        alloc: Global,
        number: u32,
        kill: Option<u32>,
        holding: bool,
        steps: &'a [Step],
    ) -> AppScript<'a>
        ensures { result ≡ record {
          number = number;
          kill = kill;
          left = steps.now;
          done = 0;
          begun = false;
          names = [];
        } }
    {
        AppScript {
            number,
            kill,
            holding,
            left: steps,
            done: 0,
            begun: false,
            names: Vec::new(alloc),
        }
    }

    /// Its number.
    pub fn number(&self) -> u32
        ensures { result ≡ self.now.number }
    {
        self.number
    }

    /// Whether all its steps are over.
    pub fn has_ended(&self) -> bool
        ensures { result ≡ has_ended self.now }
    {
        match self.left {
            [] => true,
            [_, ..] => false,
        }
    }

    /// Whether it is killed in this tick.
    pub fn is_killed_at(&self, tick: u32) -> bool
        ensures { result ≡ is_killed_at tick self.now.kill }
    {
        match self.kill {
            None => false,
            Some(at) => at == tick,
        }
    }

    /// Whether it is killed in some tick.
    pub fn is_to_be_killed(&self) -> bool
        ensures { result ≡ is_some self.now.kill }
    {
        self.kill.is_some()
    }

    /// Whether it ends with a record in hand where it is killed.
    pub(crate) fn ends_holding(&self) -> bool {
        self.holding
    }

    /// The steps that are not over.
    pub fn left(&self) -> &'a [Step]
        ensures { result.now ≡ self.now.left }
    {
        self.left
    }

    /// How much of the step under way is done.
    pub fn done(&self) -> u32
        ensures { result ≡ self.now.done }
    {
        self.done
    }

    /// Whether its connect was made.
    pub fn has_begun(&self) -> bool
        ensures { result ≡ self.now.begun }
    {
        self.begun
    }

    /// The port of the listener of this name.
    pub fn port_of(&self, name: &[u8]) -> Option<u16>
        ensures { result ≡ port_of (bound_in self.now.names name.now) }
    {
        match bound_in(self.names.as_slice(), name) {
            Some(Bound::Listener(port)) => Some(port),
            _ => None,
        }
    }

    /// The place of the flow whose socket has this name.
    pub fn flow_of(&self, name: &[u8]) -> Option<usize>
        ensures { result ≡ flow_of (bound_in self.now.names name.now) }
    {
        match bound_in(self.names.as_slice(), name) {
            Some(Bound::Socket(place)) => Some(place),
            _ => None,
        }
    }

    /// The name stands for this from now on. The error is want of memory.
    pub fn bind(&mut self, name: &'a [u8], bound: Bound) -> Result<(), AllocError>
        ensures { OnOk result (self.new ≡ bind name.now (bound_of bound) self.old) }
    {
        self.names.push(Named { name, bound })?;
        Ok(())
    }

    /// The name stands for nothing any more.
    pub fn unbind(&mut self, name: &[u8])
        ensures { self.new ≡ unbind name.now self.old }
    {
        drop_named(&mut self.names, name);
    }

    /// The step under way is over.
    pub fn step_over(&mut self)
        ensures { self.new ≡ stepped self.old }
    {
        if let [_, rest @ ..] = self.left {
            self.left = rest;
        }
        self.done = 0;
        self.begun = false;
    }

    /// The step under way is over, or else so much of it is done.
    pub fn go_on(&mut self, over: bool, done: u32)
        ensures { self.new ≡ done_or over done self.old }
    {
        if over {
            self.step_over();
        } else {
            self.done = done;
        }
    }

    /// It goes on by the answer to Ready.
    pub fn waited(&mut self, answer: Answer)
        ensures { self.new ≡ waited_by answer self.old }
    {
        match answer {
            Answer::NotYet => {}
            _ => self.step_over(),
        }
    }

    /// It goes on by the answer to a Send, where it sends so many bytes in all.
    pub fn sent(&mut self, answer: Answer, all: u32)
        requires { self.old.done + took answer ≤ all }
        ensures { self.new ≡ sent_by answer all self.old }
    {
        match answer {
            Answer::Took { len } => {
                let done = self.done + len;
                self.go_on(done == all, done);
            }
            Answer::NotYet => {}
            _ => self.step_over(),
        }
    }

    /// It goes on by the answer to a Recv, where it receives so many bytes, or all that come.
    pub fn received(&mut self, answer: Answer, all: Option<u32>)
        requires { IsWithin all (self.old.done + gave answer) }
        ensures { self.new ≡ received_by answer all self.old }
    {
        match (answer, all) {
            (Answer::Got { len, .. }, Some(all)) => {
                let done = self.done + len;
                self.go_on(done == all, done);
            }
            (Answer::Got { .. }, None) | (Answer::NotYet, _) => {}
            _ => self.step_over(),
        }
    }

    /// Its connect was made.
    pub fn begin(&mut self)
        ensures { self.new ≡ record self.old { begun = true } }
    {
        self.begun = true;
    }

    /// It ends before its time: no step is left, and no name stands for anything.
    pub fn end(&mut self)
        ensures { self.new ≡ record self.old { left = []; names = [] } }
    {
        self.left = &[];
        self.names.clear();
    }
}

/// What the name stands for, among these.
fn bound_in(names: &[Named<'_>], name: &[u8]) -> Option<Bound>
    ensures { option_map bound_of result ≡ model_bound_in (map named names.now) name.now }
{
    for n in names {
        if n.name == name {
            return Some(n.bound);
        }
    }
    None
}

/// The name stands for nothing any more, among these.
fn drop_named(names: &mut Vec<Named<'_>>, name: &[u8])
    ensures { names.new.items ≡ filter (λ n. not (bytes_eq n.name.now name.now)) names.old.items }
{
    names.retain(|n| n.name != name);
}
